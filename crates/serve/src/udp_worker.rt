//! A worker that serves datagrams.

ghost use Rattle.std.specs.Prelude.{◌≡◌, false, option_copied};
ghost use Rattle.serve.specs.Worked.{Rests, Worked, is_received};

use crate::datagram::{Served, serve_datagram};
use crate::scratch::Scratch;
use access_list::AccessList;
use ot_base::Secret;
use ot_io::{Clock, Wire};
use shards::{Pass, Shards};
use std::sync::Wait;
use std::sync::atomic::{AtomicBool, Ordering};

/// Serves the datagrams of a wire, one after another, until the flag is up while none waits or the
/// outside fails. As long as the flag is down it pauses then and looks again.
///
/// A reply is left out only where there was no memory for its announce, or where the outside failed
/// as it was to be sent.
pub fn serve_wire<R: Wait, W: Wire, C: Clock>(
    rt: &R,
    shards: &Shards,
    pass: &mut Pass,
    wire: &mut W,
    clock: &mut C,
    secret: &Secret,
    access: Option<&AccessList>,
    scratch: &mut Scratch,
    stop: &AtomicBool,
)
    requires pass { pass.old.shards ≡ shards.now }
    ensures worked { Worked secret.now (option_copied access.entry) pass.old pass.new
        (W.traffic wire.old) (W.traffic wire.new) (W.faults wire.old) (W.faults wire.new) }
    ensures rests { Rests (W.traffic wire.new) (W.faults wire.old) (W.faults wire.new) }
{
    for _ in rt.forever() {
        if serve_next(rt, shards, pass, wire, clock, secret, access, scratch) {
            continue;
        }
        if stop.load(Ordering::SeqCst) {
            return;
        }
        clock.pause();
    }
    unreachable!()
}

/// Serves the datagram that waits first. Whether one was received; else none waits, or the outside
/// failed.
fn serve_next<R: Wait, W: Wire, C: Clock>(
    rt: &R,
    shards: &Shards,
    pass: &mut Pass,
    wire: &mut W,
    clock: &mut C,
    secret: &Secret,
    access: Option<&AccessList>,
    scratch: &mut Scratch,
) -> bool
    requires pass { pass.old.shards ≡ shards.now }
    ensures worked { Worked secret.now (option_copied access.entry) pass.old pass.new
        (W.traffic wire.old) (W.traffic wire.new) (W.faults wire.old) (W.faults wire.new) }
    ensures rests { result ≡ false →
        Rests (W.traffic wire.new) (W.faults wire.old) (W.faults wire.new) }
{
    let served = serve_datagram(rt, shards, pass, wire, clock, secret, access, scratch);
    is_received(&served)
}

/// Whether a datagram was received.
fn is_received(served: &Served) -> bool
    ensures { result ≡ is_received served.now }
{
    !matches!(served, Served::Idle | Served::RecvFault)
}
