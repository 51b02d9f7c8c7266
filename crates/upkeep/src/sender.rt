//! The job that tells other nodes.

ghost use Rattle.std.specs.Prelude.{◌≡◌, ◌≤◌, length};
ghost use Rattle.tracker_model.specs.declared.call.Call.TheVariants.{Drain};
ghost use Rattle.upkeep.specs.Sweeps.{Sweeps};

use crate::sync_out::sync_out_turn;
use ot_base::{Endpoint, Minute};
use ot_io::{Clock, NODES, Wire};
use shards::{Pass, Shards};
use std::sync::Wait;
use std::sync::atomic::{AtomicBool, Ordering};

/// How many pauses there are between two rounds. One of the host's takes 4 milliseconds, so a round
/// begins about each 20 to 25. With fewer pauses an idle server would ask all of its buckets more
/// often, for nothing. With twice as many a bucket that gets 100,000 announces a second would have
/// more to tell after a round than the 4,096 notes that it keeps.
const PAUSES: u32 = 5;

/// Tells the other nodes what each bucket learnt, bucket after bucket, again and again, and waits
/// after each round. It ends after a round that began with the flag up.
pub fn keep_sending<R: Wait, W: Wire, C: Clock>(
    rt: &R,
    shards: &Shards,
    pass: &mut Pass,
    wire: &mut W,
    clock: &mut C,
    own: u32,
    nodes: &[Endpoint],
    stop: &AtomicBool,
)
    requires pass { pass.old.shards ≡ shards.now }
    requires few { length nodes.now ≤ NODES }
    ensures { Sweeps Drain pass.old pass.new }
{
    for _ in rt.forever() {
        let ends = stop.load(Ordering::SeqCst);
        let minute = Minute::of_seconds(clock.now());
        send_all(rt, shards, pass, wire, own, nodes, minute);
        if ends {
            return;
        }
        wait_for_round(clock, stop);
    }
    unreachable!()
}

/// Pauses so long as the next round has to wait, but looks at the flag after each pause: once it is
/// up the last round begins.
fn wait_for_round<C: Clock>(clock: &mut C, stop: &AtomicBool) {
    for _ in 0..PAUSES {
        clock.pause();
        if stop.load(Ordering::SeqCst) {
            return;
        }
    }
}

/// Takes the notes out of each bucket once and sends them, as far as that can be done.
fn send_all<R: Wait, W: Wire>(
    rt: &R,
    shards: &Shards,
    pass: &mut Pass,
    wire: &mut W,
    own: u32,
    nodes: &[Endpoint],
    minute: Minute,
)
    requires pass { pass.old.shards ≡ shards.now }
    requires few { length nodes.now ≤ NODES }
    ensures { Sweeps Drain pass.old pass.new }
{
    for bucket in 0..shards.bucket_count() {
        sync_out_turn(rt, shards, pass, wire, own, nodes, bucket, minute);
    }
}
