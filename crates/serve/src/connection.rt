//! What is done for a connection.

ghost use Rattle.std.specs.Prelude.{◌≡◌, ◌≢◌, IfOk, OnErr, false, option_copied};
ghost use Rattle.std.specs.List.{AllByRecursion};
ghost use Rattle.ot_base.specs.Minute.{minute_at};
ghost use Rattle.ot_io.specs.Counts.{Rose};
ghost use Rattle.ot_io.specs.Tales.{tale};
ghost use Rattle.tracker_core.specs.ConnectionPlan.{IsBoundedConnection, IsCompleteConnection};
ghost use Rattle.tracker_core.specs.ConnectionPlan.{connection_calls};
ghost use Rattle.tracker_core.specs.declared.connection_plan.ConnectionPlan.TheVariants.{More, Planned};
ghost use Rattle.tracker_core.specs.declared.http_plan.HttpPlan.TheVariants.{Full};
ghost use Rattle.tracker_model.specs.Calls.{IsWellFormed};
ghost use Rattle.serve.specs.Connection.{Answers, AreFaultsCounted, CallsSome, EndsConnection};
ghost use Rattle.serve.specs.Connection.{SendsReply, Serves, code_of, end_of};

use crate::full::{Stop, tell_all};
use crate::request::read_plan;
use crate::scratch::Scratch;
use access_list::AccessList;
use http_wire::Code;
use ot_base::{Bytes, Family, Minute};
use ot_io::{Clock, Conn, Wrote, send_all};
use request_handler::{asks_for_all, serve};
use shards::laws::seat_follows;
use shards::{Pass, Seat, Shards};
use std::alloc::{AllocError, Global};
use std::sync::Wait;
use tracker_core::{ConnectionPlan, HttpPlan};

/// How the serving of a connection ended.
#[derive(Clone, Copy, Debug, PartialEq, Eq)]
pub enum ConnEnd {
    /// Its client has an IPv6 address. Those aren't answered yet: nothing was read or written.
    Unbuilt,
    /// The whole reply was written, with this code.
    Replied(Code),
    /// It ended before the head of a request was whole. Nothing was written.
    Cut,
    /// The outside failed as the request was read. Nothing was written.
    ReadFault,
    /// The outside failed as the reply was written, of which a front was written.
    WriteFault,
    /// There was no memory for the request or for its reply. Nothing was written; but of a reply
    /// that tells all torrents a front may have been, and some of the request's calls may have
    /// been made, the first ones.
    NoMemory,
}

/// Serves the one request of a connection: reads it, at most 8,192 bytes, reads the clock once,
/// makes the calls that its plan asks for, and writes the one reply. An announce is told the peers
/// that the scratch's words choose. Where `full` is off, all torrents are never told.
pub fn serve_connection<R: Wait, N: Conn, C: Clock>(
    rt: &R,
    alloc: Global,
    shards: &Shards,
    pass: &mut Pass,
    conn: &mut N,
    clock: &mut C,
    access: Option<&AccessList>,
    full: bool,
    scratch: &mut Scratch,
) -> ConnEnd
    requires pass { pass.old.shards ≡ shards.now }
    ensures served { Serves (record {
      access = option_copied access.entry;
      full = full;
      minute = minute_at (C.told clock.new);
    }) pass.old pass.new
        (tale (N.client conn.old) (N.left conn.old) (N.written conn.old)
        (N.Source.faults conn.old) (N.ends conn.old))
        (tale (N.client conn.new) (N.left conn.new) (N.written conn.new)
        (N.Source.faults conn.new) (N.ends conn.new)) result }
    ensures pass { pass.new ≡ record pass.old { seen = pass.new.seen } }
    ensures client { N.client conn.new ≡ N.client conn.old }
    ensures faults { AreFaultsCounted (N.Source.faults conn.old) (N.Source.faults conn.new)
        result }
    ensures cut { result ≡ ConnEnd.Cut → Rose (N.ends conn.old) (N.ends conn.new) }
{
    let from = conn.from();
    if from.addr.family() == Family::Six {
        return ConnEnd::Unbuilt;
    }
    let plan = match read_plan(alloc, conn, from, access, full) {
        Ok(Some(plan)) => plan,
        Ok(None) => return ConnEnd::ReadFault,
        Err(_) => return ConnEnd::NoMemory,
    };
    let minute = Minute::of_seconds(clock.now());
    answer(rt, alloc, shards, pass, conn, minute, &plan, scratch)
}

/// Carries out the plan of a request at a minute, through the pass, and writes its reply.
fn answer<R: Wait, N: Conn>(
    rt: &R,
    alloc: Global,
    shards: &Shards,
    pass: &mut Pass,
    conn: &mut N,
    minute: Minute,
    plan: &ConnectionPlan,
    scratch: &mut Scratch,
) -> ConnEnd
    requires pass { pass.old.shards ≡ shards.now }
    requires formed { AllByRecursion IsWellFormed (connection_calls plan.now) }
    requires complete { IsCompleteConnection plan.now }
    ensures ended { EndsConnection minute pass.old pass.new plan.now
        (N.written conn.old) (N.written conn.new) result }
    ensures pass { pass.new ≡ record pass.old { seen = pass.new.seen } }
    ensures faults { AreFaultsCounted (N.Sink.faults conn.old) (N.Sink.faults conn.new) result }
    ensures aside { N.Sink.aside conn.new ≡ N.Sink.aside conn.old }
{
    let Some(code) = status_of(plan) else {
        return ConnEnd::Cut;
    };
    if asks_for_all(plan) {
        return tell_torrents(rt, alloc, shards, pass, conn, minute);
    }
    scratch.words.draw_for_connection(plan);
    let words = scratch.words.last();
    match make_reply(rt, alloc, shards, pass, minute, plan, words) {
        Ok(reply) => send_reply(conn, code, &reply),
        Err(_) => ConnEnd::NoMemory,
    }
}

/// The code of a plan's reply, which a plan that awaits more doesn't have.
fn status_of(plan: &ConnectionPlan) -> Option<Code>
    ensures { result ≡ code_of plan.now }
{
    match plan {
        ConnectionPlan::More => None,
        ConnectionPlan::Rejected(code) => Some(*code),
        ConnectionPlan::Planned(HttpPlan::NotFound) => Some(Code::NotFound),
        ConnectionPlan::Planned(_) => Some(Code::Ok),
    }
}

/// Makes the calls of a plan that isn't to tell all torrents, through the pass, and gives the whole
/// reply. Where there is no memory for it, the first ones of the calls may have been made.
fn make_reply<R: Wait>(
    rt: &R,
    alloc: Global,
    shards: &Shards,
    pass: &mut Pass,
    minute: Minute,
    plan: &ConnectionPlan,
    words: &[u32; 200],
) -> Result<Bytes, AllocError>
    requires whole { plan.now ≢ More }
    requires pass { pass.old.shards ≡ shards.now }
    requires formed { AllByRecursion IsWellFormed (connection_calls plan.now) }
    requires complete { IsCompleteConnection plan.now }
    requires bounded { IsBoundedConnection plan.now }
    ensures made { IfOk result (Answers minute pass.old pass.new plan.now) }
    ensures front { OnErr result (CallsSome minute pass.old pass.new plan.now) }
    ensures pass { pass.new ≡ record pass.old { seen = pass.new.seen } }
{
    seat_follows::<R>();
    let mut seat = Seat { rt, shards, pass };
    match serve(alloc, &mut seat, minute, plan, words)? {
        Some(reply) => Ok(reply),
        None => unreachable!(),
    }
}

/// Writes a reply of this code.
fn send_reply<N: Conn>(conn: &mut N, code: Code, reply: &Bytes) -> ConnEnd
    ensures sent { SendsReply (N.written conn.old) (N.written conn.new) code reply.now result }
    ensures faults { AreFaultsCounted (N.Sink.faults conn.old) (N.Sink.faults conn.new) result }
    ensures aside { N.Sink.aside conn.new ≡ N.Sink.aside conn.old }
{
    match send_all(conn, reply.as_slice()) {
        Wrote::Took(_) => ConnEnd::Replied(code),
        Wrote::Failed => ConnEnd::WriteFault,
    }
}

/// Tells all torrents at a minute, by scans through the pass.
fn tell_torrents<R: Wait, N: Conn>(
    rt: &R,
    alloc: Global,
    shards: &Shards,
    pass: &mut Pass,
    conn: &mut N,
    minute: Minute,
) -> ConnEnd
    requires pass { pass.old.shards ≡ shards.now }
    ensures ended { EndsConnection minute pass.old pass.new (Planned Full)
        (N.written conn.old) (N.written conn.new) result }
    ensures pass { pass.new ≡ record pass.old { seen = pass.new.seen } }
    ensures faults { AreFaultsCounted (N.Sink.faults conn.old) (N.Sink.faults conn.new) result }
    ensures aside { N.Sink.aside conn.new ≡ N.Sink.aside conn.old }
{
    seat_follows::<R>();
    let mut seat = Seat { rt, shards, pass };
    end_of(tell_all(alloc, &mut seat, minute, conn))
}

/// How the serving of a connection ended that was to be told all torrents.
fn end_of(told: Result<(), Stop>) -> ConnEnd
    ensures { result ≡ end_of told }
{
    match told {
        Ok(()) => ConnEnd::Replied(Code::Ok),
        Err(Stop::NoMemory) => ConnEnd::NoMemory,
        Err(Stop::WriteFault) => ConnEnd::WriteFault,
    }
}
