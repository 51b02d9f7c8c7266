//! What no clause says: datagrams and connections on loopback, and what a listener takes for a
//! whole head.

use super::*;
use crate::breather::Breather;
use crate::waiting::has_head;
use ot_base::{Addr, Endpoint};
use ot_io::{
    Accept, Clock, Conn, Listener, Made, Outside, Piece, Recv, Sent, Sink, Source, Wire, Wrote,
};
use std::io;
use std::net::TcpStream;
use std::test::Fail;
use std::time::Duration;

/// Loopback, at any port that is free.
const LOOPBACK: Endpoint = Endpoint {
    addr: Addr::V4([127, 0, 0, 1]),
    port: 0,
};

/// The first of so many wires at an address, if they are made.
fn first_wire<W: Wire + Drop, N: Outside<W = W>>(
    outside: &mut N,
    at: Endpoint,
    n: u32,
) -> Option<W> {
    match outside.wires(at, n) {
        Made::Got(mut wires) => wires.pop(),
        Made::Failed | Made::NoMemory => None,
    }
}

#[test]
fn a_datagram_goes_there_and_back(rt: HostRuntime) -> Result<(), Fail> {
    let mut outside = HostOutside::new(&rt);
    let mut server = first_wire(&mut outside, LOOPBACK, 2).ok_or("no server")?;
    let mut client = first_wire(&mut outside, LOOPBACK, 1).ok_or("no client")?;
    let at = server.at().ok_or("no address")?;
    let mut buf = [0; 2048];
    assert_eq!(rt; client.send(at, b"ask"), Sent::Done);
    let from = client.at().ok_or("no address")?;
    assert_eq!(rt; server.recv(&mut buf), Recv::Got { len: 3, from });
    assert_eq!(rt; &buf[..3], b"ask".as_slice());
    assert_eq!(rt; server.send(from, b"told"), Sent::Done);
    assert_eq!(rt; client.recv(&mut buf), Recv::Got { len: 4, from: at });
    assert_eq!(rt; client.recv(&mut buf), Recv::Idle);
    assert_eq!(rt; (client.faults(), client.idles()), (0, 1));
    Ok(())
}

#[test]
fn an_address_in_use_is_refused(rt: HostRuntime) -> Result<(), Fail> {
    let mut outside = HostOutside::new(&rt);
    let wire = first_wire(&mut outside, LOOPBACK, 1).ok_or("no wire")?;
    let at = wire.at().ok_or("no address")?;
    assert!(rt; first_wire(&mut outside, at, 1).is_none());
    assert_eq!(rt; outside.faults(), 1);
    Ok(())
}

/// A connection that waits, once it is there.
fn accept<L: Listener>(listener: &mut L, clock: &mut impl Clock) -> Option<L::Link> {
    for _ in 0..1_000u32 {
        if let Accept::Got(link) = listener.accept() {
            return Some(link);
        }
        clock.pause();
    }
    None
}

#[test]
fn a_connection_is_handed_out_with_its_head(rt: HostRuntime) -> Result<(), Fail> {
    let mut outside = HostOutside::new(&rt);
    let Made::Got(mut listeners) = outside.listeners(LOOPBACK, 1) else {
        return Err(Fail::from("no listener"));
    };
    let mut listener = listeners.pop().ok_or("no listener")?;
    let at = listener.at().ok_or("no address")?;
    let mut clock = HostClock::new(&rt);
    let mut client = NetConn::new(TcpStream::connect(&rt, ("127.0.0.1", at.port))?, at)?;
    assert_eq!(rt; client.write(b"GET / HTTP/1.1\r\n"), Wrote::Took(16));
    clock.pause();
    assert!(rt; matches!(listener.accept(), Accept::Idle));
    assert_eq!(rt; client.write(b"\r\n"), Wrote::Took(2));
    let mut link = accept(&mut listener, &mut clock).ok_or("nothing accepted")?;
    let mut buf = [0; 64];
    assert_eq!(rt; link.read(&mut buf), Piece::Got(18));
    assert_eq!(rt; link.write(b"told"), Wrote::Took(4));
    listener.done(link);
    assert_eq!(rt; client.read(&mut buf), Piece::Got(4));
    assert_eq!(rt; client.read(&mut buf), Piece::End);
    assert_eq!(rt; (listener.faults(), client.faults()), (0, 0));
    Ok(())
}

#[test]
fn heads_that_are_whole(rt: HostRuntime) {
    for (bytes, want) in [
        ("", false),
        ("GET / HTTP/1.1\r\nA: b\r\n", false),
        ("GET / HTTP/1.1\r\nA: b\r\n\r\n", true),
        ("GET / HTTP/1.1\n\n", true),
        ("\r\n\r\n", false),
        ("no request\r\n", true),
    ] {
        assert_eq!(rt; has_head(bytes.as_bytes()), want, "{bytes}");
    }
}

#[test]
fn the_clock_tells_a_time_of_this_century(rt: HostRuntime) {
    let mut clock = HostClock::new(&rt);
    assert!(rt; clock.now() > 946_684_800);
    assert_eq!(rt; clock.faults(), 0);
}

/// A clock of the host that stands still at so many seconds.
#[derive(Drop)]
struct Standing(u64);

impl std::rt::Clock for Standing {
    fn monotonic(&self) -> io::Result<Duration> {
        Ok(Duration::from_secs(self.0))
    }

    fn since_1970(&self) -> io::Result<Duration> {
        self.monotonic()
    }
}

/// At how many of 128 calls in this second a breath is due, and at the how manieth of them last.
fn dues(breather: &mut Breather, second: u64) -> (u32, u32) {
    let host = Standing(second);
    let (mut count, mut last) = (0u32, 0);
    for call in 1..=128u32 {
        if breather.is_due(&host) {
            count = count.saturating_add(1);
            last = call;
        }
    }
    (count, last)
}

#[test]
fn a_breath_is_due_once_a_second(rt: HostRuntime) {
    let mut breather = Breather::new();
    for (second, want) in [
        (0, (0, 0)),
        (7, (1, 16)),
        (7, (0, 0)),
        (8, (1, 16)),
        (6, (0, 0)),
        (9, (1, 16)),
    ] {
        assert_eq!(rt; dues(&mut breather, second), want, "{second}");
    }
}

fn is_send<T: Send + Drop>(_value: T) {}

#[test]
fn what_the_host_makes_can_be_sent_to_a_thread(rt: HostRuntime) -> Result<(), Fail> {
    let mut outside = HostOutside::new(&rt);
    is_send(first_wire(&mut outside, LOOPBACK, 1).ok_or("no wire")?);
    if let Made::Got(listeners) = outside.listeners(LOOPBACK, 1) {
        is_send(listeners);
    }
    if let Made::Got(clocks) = outside.clocks(1) {
        is_send(clocks);
    }
    Ok(())
}
