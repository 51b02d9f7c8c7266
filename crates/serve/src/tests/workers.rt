//! Workers, and when they end.

use super::*;
use ot_io::{Clock, MemListener};
use std::sync::atomic::{AtomicBool, Ordering};

/// A clock at second 0. It raises the flag in the last of so many pauses.
#[derive(Drop)]
struct Bell<'a> {
    pauses: u32,
    stop: &'a AtomicBool,
}

impl Clock for Bell<'_> {
    ghost told = { λ clock. 0 };

    fn now(&mut self) -> u64 {
        0
    }

    fn pause(&mut self) {
        self.pauses = self.pauses.saturating_sub(1);
        if self.pauses == 0 {
            self.stop.store(true, Ordering::SeqCst);
        }
    }
}

/// A worker serves a wire, and its flag is raised in this pause, or before the first datagram.
fn work<R: Wait>(rt: &R, alloc: Global, wire: &mut MemWire, pauses: u32) -> Result<(), AllocError> {
    let (shards, mut pass) = shards(alloc)?;
    let stop = AtomicBool::new(pauses == 0);
    let mut clock = Bell {
        pauses,
        stop: &stop,
    };
    let mut scratch = Scratch::new(0);
    serve_wire(
        rt,
        &shards,
        &mut pass,
        wire,
        &mut clock,
        &Secret([0; 20]),
        None,
        &mut scratch,
        &stop,
    );
    Ok(())
}

#[test]
fn worker_ends_when_none_waits(rt: HostRuntime) -> Result<(), Fail> {
    let mut wire = wire(rt.alloc(), &[(CLIENT, CONNECT), (CLIENT, SCRAPE)], &[])?;
    work(&rt, rt.alloc(), &mut wire, 0)?;
    assert_eq!(&rt; (wire.sent().len(), wire.idles()), (2, 1));
    assert_eq!(&rt; wire.sent()[0].bytes.as_slice(), CONNECTED);
    assert_eq!(&rt; wire.sent()[1].bytes.as_slice(), SCRAPED);
    Ok(())
}

#[test]
fn worker_goes_on_after_faults(rt: HostRuntime) -> Result<(), Fail> {
    // The first receive fails, and the first send, whose reply alone is lost. The flag is up in the
    // third pause: after the fault, and after none waited twice.
    let waiting = [(CLIENT, CONNECT), (CLIENT, CONNECT), (CLIENT, SCRAPE)];
    let mut wire = wire(rt.alloc(), &waiting, &[0, 2])?;
    work(&rt, rt.alloc(), &mut wire, 3)?;
    assert_eq!(&rt; (wire.sent().len(), wire.faults(), wire.idles()), (2, 2, 3));
    assert_eq!(&rt; wire.sent()[0].bytes.as_slice(), CONNECTED);
    assert_eq!(&rt; wire.sent()[1].bytes.as_slice(), SCRAPED);
    Ok(())
}

#[test]
fn worker_ends_at_a_fault(rt: HostRuntime) -> Result<(), Fail> {
    let mut wire = wire(rt.alloc(), &[(CLIENT, CONNECT)], &[0])?;
    work(&rt, rt.alloc(), &mut wire, 0)?;
    assert_eq!(&rt; (wire.sent().len(), wire.waiting().len()), (0, 1));
    Ok(())
}

/// What a client sends that asks for something that isn't there, and its reply.
const ASKED: &[u8] = b"GET /nothing HTTP/1.1\r\n\r\n";

const REFUSED: &[u8] = b"HTTP/1.1 404 Not Found\r\nContent-Type: text/plain\r\n\
    Content-Length: 0\r\nConnection: close\r\n\r\n";

/// A client that waits at a listener. It sends this, and the calls of these numbers fail.
fn offer(
    alloc: Global,
    listener: &mut MemListener,
    sent: &[u8],
    failing: &[u64],
) -> Result<(), AllocError> {
    let script = ConnScript {
        sent: Vec::from_slice(alloc, sent)?,
        lengths: Vec::new(alloc),
        room: 1_024,
        piece: 1_024,
        failing: Vec::from_slice(alloc, failing)?,
    };
    listener.offer(alloc, CLIENT, script)
}

/// The same for connections.
fn work_at<R: Wait>(
    rt: &R,
    alloc: Global,
    listener: &mut MemListener,
    pauses: u32,
) -> Result<(), AllocError> {
    let (shards, mut pass) = shards(alloc)?;
    let stop = AtomicBool::new(pauses == 0);
    let mut clock = Bell {
        pauses,
        stop: &stop,
    };
    let mut scratch = Scratch::new(0);
    serve_listener(
        rt,
        alloc,
        &shards,
        &mut pass,
        listener,
        &mut clock,
        None,
        false,
        &mut scratch,
        &stop,
    );
    Ok(())
}

#[test]
fn connections_are_given_back(rt: HostRuntime) -> Result<(), Fail> {
    // Of three connections the second one's first write fails, and the third one ends too soon.
    let mut listener = MemListener::new(rt.alloc(), Vec::from_slice(rt.alloc(), &[0])?);
    offer(rt.alloc(), &mut listener, ASKED, &[])?;
    offer(rt.alloc(), &mut listener, ASKED, &[1])?;
    offer(rt.alloc(), &mut listener, &ASKED[..20], &[])?;
    work_at(&rt, rt.alloc(), &mut listener, 2)?;
    assert_eq!(&rt; (listener.faults(), listener.idles()), (1, 2));
    let finished = listener.finished();
    assert_eq!(&rt; finished.len(), 3);
    assert_eq!(&rt; finished[0].written(), REFUSED);
    assert_eq!(&rt; (finished[1].written().len(), finished[1].faults()), (0, 1));
    assert_eq!(&rt; (finished[2].written().len(), finished[2].ends()), (0, 1));
    Ok(())
}

#[test]
fn worker_ends_at_a_listener_s_fault(rt: HostRuntime) -> Result<(), Fail> {
    let mut listener = MemListener::new(rt.alloc(), Vec::from_slice(rt.alloc(), &[1])?);
    offer(rt.alloc(), &mut listener, ASKED, &[])?;
    offer(rt.alloc(), &mut listener, ASKED, &[])?;
    work_at(&rt, rt.alloc(), &mut listener, 0)?;
    assert_eq!(&rt; (listener.faults(), listener.finished().len()), (1, 1));
    Ok(())
}
