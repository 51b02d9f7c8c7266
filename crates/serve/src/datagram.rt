//! What is done for a datagram.

ghost use Rattle.std.specs.Prelude.{◌≡◌, ◌≤◌, false, option_copied};
ghost use Rattle.ot_base.specs.Minute.{minute_at};
ghost use Rattle.std.specs.List.{AllByRecursion};
ghost use Rattle.tracker_core.specs.UdpPlan.{IsComplete, calls_of};
ghost use Rattle.tracker_model.specs.Calls.{IsWellFormed};
ghost use Rattle.request_handler.specs.Datagram.{HasRoom};
ghost use Rattle.serve.specs.Datagram.{Carries, FaultsAreCounted, IdlesAreCounted, Serves};

use crate::scratch::Scratch;
use access_list::AccessList;
use ot_base::in_place::HASHES;
use ot_base::{Family, Minute, Secret};
use ot_io::{Clock, Recv, Sent, Wire};
use request_handler::{Outcome, carry_out};
use shards::laws::seat_follows;
use shards::{Pass, Seat, Shards};
use std::sync::Wait;
use tracker_core::{UdpPlan, plan_udp};
use udp_wire::{Quiet, REPLY_ROOM, hash_ahead};

/// What was done for a datagram.
#[derive(Clone, Copy, Debug, PartialEq, Eq)]
pub enum Served {
    /// None waits.
    Idle,
    /// The outside failed as one was to be received.
    RecvFault,
    /// Its sender has an IPv6 address. Those aren't answered yet, so it is left without a reply.
    Unbuilt,
    /// It is no request, and is left without a reply.
    Silent(Quiet),
    /// Its sender was sent the reply.
    Sent,
    /// The outside failed as the reply was to be sent. The request's calls were made.
    SendFault,
    /// There was no memory for the call of an announce or a stop, and nothing was sent.
    NoMemory,
}

/// Serves one datagram: receives it, reads the clock once, makes the calls that its plan asks for,
/// and sends the one reply to where it came from. An announce is told the peers that the
/// scratch's words choose.
///
/// Want of memory comes only to an announce or a stop.
pub fn serve_datagram<R: Wait, W: Wire, C: Clock>(
    rt: &R,
    shards: &Shards,
    pass: &mut Pass,
    wire: &mut W,
    clock: &mut C,
    secret: &Secret,
    access: Option<&AccessList>,
    scratch: &mut Scratch,
) -> Served
    requires pass { pass.old.shards ≡ shards.now }
    ensures served { Serves (record {
      secret = secret.now;
      access = option_copied access.entry;
      minute = minute_at (C.told clock.new);
    }) pass.old pass.new (W.traffic wire.old) (W.traffic wire.new) result }
    ensures pass { pass.new ≡ record pass.old { seen = pass.new.seen } }
    ensures faults { FaultsAreCounted (W.faults wire.old) (W.faults wire.new) result }
    ensures idles { IdlesAreCounted (W.idles wire.old) (W.idles wire.new) result }
{
    let (len, from) = match wire.recv(&mut scratch.datagram) {
        Recv::Got { len, from } => (len, from),
        Recv::Idle => return Served::Idle,
        Recv::Failed => return Served::RecvFault,
    };
    if from.addr.family() == Family::Six {
        return Served::Unbuilt;
    }
    approach(shards, &scratch.datagram[..len]);
    let minute = Minute::of_seconds(clock.now());
    let plan = plan_udp(&scratch.datagram[..len], from, minute, secret, access);
    scratch.words.draw_for_datagram(&plan);
    let words = scratch.words.last();
    match carry(rt, shards, pass, minute, &plan, words, &mut scratch.reply) {
        Outcome::Silent(quiet) => Served::Silent(quiet),
        Outcome::NoMemory => Served::NoMemory,
        Outcome::Replied(len) => match wire.send(from, &scratch.reply[..len]) {
            Sent::Done => Served::Sent,
            Sent::Failed => Served::SendFault,
        },
    }
}

/// Looks at the locks of the torrents that a scrape names, whatever it is worth: so they come from
/// memory at once, and not one after the other.
fn approach(shards: &Shards, datagram: &[u8]) {
    for i in 0..HASHES {
        match hash_ahead(datagram, i) {
            Some(hash) => shards.approach(&hash),
            None => return,
        }
    }
}

/// Carries out a plan at a minute, through the pass.
fn carry<R: Wait>(
    rt: &R,
    shards: &Shards,
    pass: &mut Pass,
    minute: Minute,
    plan: &UdpPlan<'_>,
    words: &[u32; 200],
    reply: &mut [u8; REPLY_ROOM],
) -> Outcome
    requires pass { pass.old.shards ≡ shards.now }
    requires formed { AllByRecursion IsWellFormed (calls_of plan.now) }
    requires complete { IsComplete plan.now }
    ensures carried { Carries minute plan.now pass.old pass.new reply.new result }
    ensures pass { pass.new ≡ record pass.old { seen = pass.new.seen } }
    ensures fits { HasRoom result }
{
    seat_follows::<R>();
    let mut seat = Seat { rt, shards, pass };
    carry_out(&mut seat, minute, plan, words, reply)
}
