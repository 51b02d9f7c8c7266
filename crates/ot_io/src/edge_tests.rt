//! What no clause says of wires, listeners, clocks and makers: how they are used, and that each
//! call succeeds.

ghost use Rattle.std.specs.Prelude.{◌≡◌, ◌∷◌, [], IfOk, Some, take};
ghost use Rattle.ot_io.specs.MemoryListener.{links_of, listener_faults, listener_idles};
ghost use Rattle.ot_io.specs.MemoryWire.{wire_faults, wire_idles, wire_traffic};
ghost use Rattle.ot_io.specs.Tales.{IsNewListener};
ghost use Rattle.ot_io.specs.Traffic.{Datagram, IsNewWire, Moves};

use super::*;
use ot_base::{Addr, Endpoint};
use std::alloc::{AllocError, Global};
use std::test::Fail;

const CLIENT: Endpoint = Endpoint {
    addr: Addr::V4([192, 0, 2, 1]),
    port: 6881,
};

/// Receives one datagram and sends its front back. What it promises follows from the wire's clauses
/// alone.
fn send_back<W: Wire>(wire: &mut W) -> Option<Sent>
    ensures { result ≡ Some Sent.Done → (came back : Datagram)
        × (back.peer ≡ came.peer)
        × (back.bytes ≡ take 2048 came.bytes)
        × Moves (W.traffic wire.old) (W.traffic wire.new) (came ∷ []) (back ∷ []) }
{
    let mut buf = [0; DATAGRAM_LEN];
    match wire.recv(&mut buf) {
        Recv::Got { len, from } => Some(wire.send(from, &buf[..len])),
        Recv::Idle | Recv::Failed => None,
    }
}

/// A wire at which a short and a long datagram wait, with room for one, whose call 2 fails.
fn wire(alloc: Global) -> Result<MemWire, AllocError>
    ensures { IfOk result (λ wire. IsNewWire (Some (wire_traffic wire)) (wire_faults wire)
        (wire_idles wire)) }
{
    let mut incoming = Vec::new(alloc);
    let short = Vec::from_slice(alloc, b"ab")?;
    let long = vec![in alloc; 7; 2049]?;
    for bytes in [short, long] {
        incoming.push(Incoming {
            from: CLIENT,
            bytes,
        })?;
    }
    let failing = Vec::from_slice(alloc, &[2])?;
    MemWire::new(
        alloc,
        WireScript {
            incoming,
            room: 1,
            failing,
        },
    )
}

#[test]
fn a_wire_sends_back_until_its_room_is_passed(rt: HostRuntime) -> Result<(), Fail> {
    let mut wire = wire(rt.alloc())?;
    for want in [Some(Sent::Done), None, Some(Sent::Failed), None] {
        assert_eq!(rt; send_back(&mut wire), want);
    }
    assert_eq!(rt; (wire.faults(), wire.idles()), (2, 1));
    assert_eq!(rt; wire.waiting().len(), 0);
    for sent in wire.sent() {
        assert_eq!(rt; sent.to, CLIENT);
        assert_eq!(rt; sent.bytes.as_slice(), b"ab".as_slice());
    }
    Ok(())
}

#[test]
fn a_long_datagram_is_cut(rt: HostRuntime) -> Result<(), Fail> {
    let mut wire = wire(rt.alloc())?;
    let mut buf = [0; DATAGRAM_LEN];
    for want in [2, DATAGRAM_LEN] {
        let got = wire.recv(&mut buf);
        assert_eq!(rt;
            got,
            Recv::Got {
                len: want,
                from: CLIENT
            }
        );
    }
    assert_eq!(rt; buf[DATAGRAM_LEN - 1], 7);
    Ok(())
}

/// Accepts one connection, greets its client and hands it back.
fn greet<L: Listener>(listener: &mut L) -> bool {
    match listener.accept() {
        Accept::Got(mut link) => {
            let wrote = send_all(&mut link, b"hi");
            listener.done(link);
            wrote == Wrote::Took(2)
        }
        Accept::Idle | Accept::Failed => false,
    }
}

/// A listener at which a client waits, and whose second call fails.
fn listener(alloc: Global) -> Result<MemListener, AllocError>
    ensures { IfOk result (λ listener. IsNewListener (Some (links_of listener))
        (listener_faults listener) (listener_idles listener)) }
{
    let mut listener = MemListener::new(alloc, Vec::from_slice(alloc, &[1])?);
    let script = ConnScript {
        sent: Vec::new(alloc),
        lengths: Vec::new(alloc),
        room: 2,
        piece: 2,
        failing: Vec::new(alloc),
    };
    listener.offer(alloc, CLIENT, script)?;
    Ok(listener)
}

#[test]
fn a_listener_gets_back_what_it_accepted(rt: HostRuntime) -> Result<(), Fail> {
    let mut listener = listener(rt.alloc())?;
    for want in [true, false, false] {
        assert_eq!(rt; greet(&mut listener), want);
    }
    assert_eq!(rt; (listener.faults(), listener.idles()), (1, 1));
    assert_eq!(rt; listener.finished().len(), 1);
    for link in listener.finished() {
        assert_eq!(rt; link.written(), b"hi".as_slice());
    }
    Ok(())
}

#[test]
fn a_clock_rises_to_its_last_number(rt: HostRuntime) {
    let mut clock = MemClock::new(u64::MAX - 3, 2);
    for want in [u64::MAX - 3, u64::MAX - 1, u64::MAX, u64::MAX] {
        assert_eq!(rt; clock.now(), want);
        clock.pause();
    }
}

/// Makes one wire and hands it back. Whether a wire was made.
fn borrow_wire<W: Wire + Drop, N: Outside<W = W>>(outside: &mut N) -> bool {
    match outside.wires(CLIENT, 1) {
        Made::Got(mut wires) => match wires.pop() {
            Some(wire) => {
                outside.wire_back(wire);
                true
            }
            None => false,
        },
        Made::Failed | Made::NoMemory => false,
    }
}

/// Makes one listener and hands it back. Whether a listener was made.
fn borrow_listener<L: Listener + Drop, N: Outside<L = L>>(outside: &mut N) -> bool {
    match outside.listeners(CLIENT, 1) {
        Made::Got(mut listeners) => match listeners.pop() {
            Some(listener) => {
                outside.listener_back(listener);
                true
            }
            None => false,
        },
        Made::Failed | Made::NoMemory => false,
    }
}

#[test]
fn an_outside_hands_out_what_it_has(rt: HostRuntime) -> Result<(), Fail> {
    let alloc = rt.alloc();
    let failing = Vec::from_slice(alloc, &[2])?;
    let mut outside = MemOutside::new(alloc, MemClock::new(60, 1), failing);
    outside.add_wire(wire(alloc)?)?;
    outside.add_listener(listener(alloc)?)?;
    assert!(rt; borrow_wire(&mut outside));
    assert!(rt; borrow_listener(&mut outside));
    assert!(rt; matches!(outside.clocks(1), Made::Failed));
    match outside.clocks(1) {
        Made::Got(clocks) => assert_eq!(rt; clocks.as_slice(), [MemClock::new(60, 1)].as_slice()),
        Made::Failed | Made::NoMemory => assert!(rt; false),
    }
    assert!(rt; !borrow_wire(&mut outside));
    assert_eq!(rt; outside.faults(), 2);
    assert_eq!(rt; outside.wires_back().len(), 1);
    assert_eq!(rt; outside.listeners_back().len(), 1);
    Ok(())
}

fn is_send<T: Send + Drop>(_value: T) {}

#[test]
fn wires_and_listeners_in_memory_can_be_sent_to_a_thread(rt: HostRuntime) -> Result<(), Fail> {
    is_send(wire(rt.alloc())?);
    is_send(listener(rt.alloc())?);
    is_send(MemClock::new(0, 1));
    Ok(())
}
