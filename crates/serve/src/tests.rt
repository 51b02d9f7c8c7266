//! What no clause says: datagrams with their replies, byte for byte, and that each call succeeds.

ghost use Rattle.std.specs.Prelude.{◌≡◌, IfOk, false};
ghost use Rattle.shards.specs.Shape.{first_pass};

mod connections;
mod workers;

use super::*;
use http_wire::Code;
use ot_base::{Addr, Endpoint, Limits, Secret};
use ot_io::{ConnScript, Incoming, MemClock, MemConn, MemWire, WireScript};
use shards::{Pass, Shards};
use std::alloc::{AllocError, Global};
use std::process::Abort;
use std::sync::Wait;
use std::test::Fail;
use tracker_core::{ConnectionPlan, HttpPlan};
use udp_wire::Quiet;

const CLIENT: Endpoint = Endpoint {
    addr: Addr::V4([10, 0, 0, 1]),
    port: 6881,
};

/// A connect request of BEP 15, with transaction 7.
const CONNECT: &[u8] = b"\x00\x00\x04\x17\x27\x10\x19\x80\x00\x00\x00\x00\x00\x00\x00\x07";

/// Its reply in minute 0, where the secret is all zeros: the id is the front of the SHA-1 of 20
/// zeros, the address as 16 bytes and the minute as 8 bytes.
const CONNECTED: &[u8] = b"\x00\x00\x00\x00\x00\x00\x00\x07\xa6\xee\x5e\x33\x88\xa9\x73\x31";

/// A scrape of one torrent by that id, with transaction 8.
const SCRAPE: &[u8] = b"\xa6\xee\x5e\x33\x88\xa9\x73\x31\x00\x00\x00\x02\x00\x00\x00\x08\
    \x11\x11\x11\x11\x11\x11\x11\x11\x11\x11\x11\x11\x11\x11\x11\x11\x11\x11\x11\x11";

/// Its reply where nobody takes part in the torrent.
const SCRAPED: &[u8] = b"\x00\x00\x00\x02\x00\x00\x00\x08\
    \x00\x00\x00\x00\x00\x00\x00\x00\x00\x00\x00\x00";

/// How much each bucket holds.
const LIMITS: Limits = Limits {
    peers: 100_000,
    torrents: 65_536,
};

/// Buckets that nobody has called, and the pass that they begin with.
fn shards(alloc: Global) -> Result<(Shards, Pass), AllocError>
    ensures pass { IfOk result (λ r. r.1 ≡ first_pass r.0) }
{
    Shards::new(alloc, 2, LIMITS, false, 1)
}

/// A wire at which these wait, each from its sender, of which the calls of these numbers fail.
fn wire(
    alloc: Global,
    datagrams: &[(Endpoint, &[u8])],
    failing: &[u64],
) -> Result<MemWire, AllocError> {
    let mut incoming = Vec::new(alloc);
    for (from, bytes) in datagrams {
        incoming.push(Incoming {
            from: *from,
            bytes: Vec::from_slice(alloc, bytes)?,
        })?;
    }
    MemWire::new(
        alloc,
        WireScript {
            incoming,
            room: datagrams.len(),
            failing: Vec::from_slice(alloc, failing)?,
        },
    )
}

/// Serves so many datagrams of a wire in minute 0, and checks what was done.
fn serve_each<R: Wait + Abort>(
    rt: &R,
    alloc: Global,
    wire: &mut MemWire,
    want: &[Served],
) -> Result<(), AllocError> {
    let (shards, mut pass) = shards(alloc)?;
    let mut clock = MemClock::new(0, 1);
    let mut scratch = Scratch::new(0);
    'served: for (number, want) in want.iter().enumerate() {
        let served = serve_datagram(
            rt,
            &shards,
            &mut pass,
            wire,
            &mut clock,
            &Secret([0; 20]),
            None,
            &mut scratch,
        );
        assert_eq!(rt; served, *want, "{number}");
    }
    Ok(())
}

#[test]
fn datagrams_are_served(rt: HostRuntime) -> Result<(), Fail> {
    let six = Endpoint {
        addr: Addr::V6([0x20; 16]),
        port: 6881,
    };
    let waiting = [
        (CLIENT, CONNECT),
        (CLIENT, SCRAPE),
        (CLIENT, b"short".as_slice()),
        (six, CONNECT),
    ];
    let mut wire = wire(rt.alloc(), &waiting, &[])?;
    serve_each(
        &rt,
        rt.alloc(),
        &mut wire,
        &[
            Served::Sent,
            Served::Sent,
            Served::Silent(Quiet::Short),
            Served::Unbuilt,
            Served::Idle,
        ],
    )?;
    let sent = wire.sent();
    assert_eq!(&rt; sent.len(), 2);
    assert_eq!(&rt; (sent[0].to, sent[1].to), (CLIENT, CLIENT));
    assert_eq!(&rt; sent[0].bytes.as_slice(), CONNECTED);
    assert_eq!(&rt; sent[1].bytes.as_slice(), SCRAPED);
    Ok(())
}

#[test]
fn faults_lose_one_reply(rt: HostRuntime) -> Result<(), Fail> {
    let mut wire = wire(rt.alloc(), &[(CLIENT, CONNECT), (CLIENT, CONNECT)], &[0, 2])?;
    serve_each(
        &rt,
        rt.alloc(),
        &mut wire,
        &[
            Served::RecvFault,
            Served::SendFault,
            Served::Sent,
            Served::Idle,
        ],
    )?;
    assert_eq!(&rt; (wire.sent().len(), wire.faults()), (1, 2));
    Ok(())
}

/// What is read of a connection whose client sends this, a byte first and then as much as it has,
/// where the calls of these numbers fail.
fn planned(
    alloc: Global,
    sent: &[u8],
    failing: &[u64],
) -> Result<Option<ConnectionPlan>, AllocError> {
    let script = ConnScript {
        sent: Vec::from_slice(alloc, sent)?,
        lengths: Vec::from_slice(alloc, &[1])?,
        room: 0,
        piece: 1,
        failing: Vec::from_slice(alloc, failing)?,
    };
    let mut conn = MemConn::new(alloc, CLIENT, script)?;
    read_plan(alloc, &mut conn, CLIENT, None, false)
}

#[test]
fn requests_are_read(rt: HostRuntime) -> Result<(), Fail> {
    let whole = b"GET /nothing HTTP/1.1\r\n\r\n";
    let plan = planned(rt.alloc(), whole, &[])?;
    assert!(rt; matches!(plan, Some(ConnectionPlan::Planned(HttpPlan::NotFound))));
    let cut = planned(rt.alloc(), &whole[..20], &[])?;
    assert!(rt; matches!(cut, Some(ConnectionPlan::More)));
    let failed = planned(rt.alloc(), whole, &[1])?;
    assert!(rt; failed.is_none());
    let long = vec![in rt.alloc(); b'a'; 9_000]?;
    let refused = planned(rt.alloc(), long.as_slice(), &[])?;
    assert!(rt; matches!(refused, Some(ConnectionPlan::Rejected(Code::TooLarge))));
    Ok(())
}
