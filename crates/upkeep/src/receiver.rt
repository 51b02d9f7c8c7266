//! The job that hears other nodes.

ghost use Rattle.std.specs.Prelude.{◌≡◌, ◌⊎◌};
ghost use Rattle.ot_io.specs.Counts.{Rose};
ghost use Rattle.ot_io.specs.Traffic.{NoneWaits};
ghost use Rattle.upkeep.specs.Heard.{Heard, is_received};

use crate::sync_in::{SyncIn, sync_in_turn};
use ot_base::{Endpoint, Minute};
use ot_io::{Clock, Wire};
use shards::{Pass, Shards};
use std::sync::Wait;
use std::sync::atomic::{AtomicBool, Ordering};

/// Applies what other nodes tell, datagram after datagram, until the flag is up while none waits or
/// the outside fails. As long as the flag is down it pauses then and looks again.
pub fn keep_receiving<R: Wait, W: Wire, C: Clock>(
    rt: &R,
    shards: &Shards,
    pass: &mut Pass,
    wire: &mut W,
    clock: &mut C,
    own: u32,
    nodes: &[Endpoint],
    stop: &AtomicBool,
)
    requires { pass.old.shards ≡ shards.now }
    ensures heard { Heard own nodes.now pass.old pass.new
        (W.traffic wire.old) (W.traffic wire.new) (W.faults wire.old) (W.faults wire.new) }
    ensures rests { NoneWaits (W.traffic wire.new) ⊎ Rose (W.faults wire.old) (W.faults wire.new) }
{
    for _ in rt.forever() {
        let minute = Minute::of_seconds(clock.now());
        if is_received(&sync_in_turn(rt, shards, pass, wire, own, nodes, minute)) {
            continue;
        }
        if stop.load(Ordering::SeqCst) {
            return;
        }
        clock.pause();
    }
    unreachable!()
}

/// Whether a datagram was received.
fn is_received(heard: &SyncIn) -> bool
    ensures { result ≡ is_received heard.now }
{
    !matches!(heard, SyncIn::Idle | SyncIn::RecvFault)
}
