//! A worker that serves connections.

ghost use Rattle.std.specs.Prelude.{◌≡◌, false, option_copied};
ghost use Rattle.serve.specs.ServedLinks.{RestsAt, WorkedLinks};

use crate::connection::serve_connection;
use crate::scratch::Scratch;
use access_list::AccessList;
use ot_io::{Accept, Clock, Listener};
use shards::{Pass, Shards};
use std::alloc::Global;
use std::sync::Wait;
use std::sync::atomic::{AtomicBool, Ordering};

/// Accepts connections at a listener, serves each and gives it back, one after another, until the
/// flag is up while none waits or the outside fails. As long as the flag is down it pauses then and
/// looks again. Where `full` is off, all torrents are never told.
pub fn serve_listener<R: Wait, L: Listener, C: Clock>(
    rt: &R,
    alloc: Global,
    shards: &Shards,
    pass: &mut Pass,
    listener: &mut L,
    clock: &mut C,
    access: Option<&AccessList>,
    full: bool,
    scratch: &mut Scratch,
    stop: &AtomicBool,
)
    requires pass { pass.old.shards ≡ shards.now }
    ensures worked { WorkedLinks (option_copied access.entry) full pass.old pass.new
        (L.links listener.old) (L.links listener.new)
        (L.faults listener.old) (L.faults listener.new) }
    ensures rests { RestsAt (L.links listener.new)
        (L.faults listener.old) (L.faults listener.new) }
{
    for _ in rt.forever() {
        if serve_next(
            rt, alloc, shards, pass, listener, clock, access, full, scratch,
        ) {
            continue;
        }
        if stop.load(Ordering::SeqCst) {
            return;
        }
        clock.pause();
    }
    unreachable!()
}

/// Serves the connection that waits first, and gives it back however that ends. Whether one was
/// accepted; else none waits, or the outside failed.
fn serve_next<R: Wait, L: Listener, C: Clock>(
    rt: &R,
    alloc: Global,
    shards: &Shards,
    pass: &mut Pass,
    listener: &mut L,
    clock: &mut C,
    access: Option<&AccessList>,
    full: bool,
    scratch: &mut Scratch,
) -> bool
    requires pass { pass.old.shards ≡ shards.now }
    ensures worked { WorkedLinks (option_copied access.entry) full pass.old pass.new
        (L.links listener.old) (L.links listener.new)
        (L.faults listener.old) (L.faults listener.new) }
    ensures rests { result ≡ false → RestsAt (L.links listener.new)
        (L.faults listener.old) (L.faults listener.new) }
{
    let mut link = match listener.accept() {
        Accept::Got(link) => link,
        Accept::Idle => return false,
        Accept::Failed => return false,
    };
    serve_connection(
        rt, alloc, shards, pass, &mut link, clock, access, full, scratch,
    );
    listener.done(link);
    true
}
