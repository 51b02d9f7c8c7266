//! What no clause says: whole runs of a server, with replies worked out by hand, and that each call
//! succeeds.

ghost use Rattle.std.specs.Prelude.{IfOk, Some};
ghost use Rattle.ot_io.specs.MemoryListener.{links_of, listener_faults, listener_idles};
ghost use Rattle.ot_io.specs.MemoryWire.{wire_faults, wire_idles, wire_traffic};
ghost use Rattle.ot_io.specs.Tales.{IsNewListener};
ghost use Rattle.ot_io.specs.Traffic.{IsNewWire};
ghost use Rattle.server.specs.Run.{CanServe};

mod faults;
mod threads;

use super::*;
use ot_base::{AccessFault, Addr, Endpoint, Limits, Mode, Secret};
use ot_io::{
    ConnScript, Incoming, MemClock, MemListener, MemOutside, MemSink, MemSource, MemWire,
    ReplaySettings, ServeSettings, Status, SyncSettings, WireScript,
};
use std::alloc::{AllocError, Global};
use std::sync::Wait;
use std::test::Fail;
use std::thread::Threads;

const CLIENT: Endpoint = Endpoint {
    addr: Addr::V4([192, 0, 2, 1]),
    port: 6881,
};

const SERVER: Endpoint = Endpoint {
    addr: Addr::V4([192, 0, 2, 9]),
    port: 6969,
};

/// The settings of a server with a worker, which is nowhere yet.
const USUAL: ServeSettings = ServeSettings {
    replay: ReplaySettings {
        bits: 0,
        limits: Limits {
            peers: 100_000,
            torrents: 65_536,
        },
        full: false,
        secret: Secret([0; 20]),
        seed: 0,
        access: None,
    },
    udp: None,
    http: None,
    sync: None,
    workers: 1,
};

/// The settings of a server of datagrams with a worker.
const UDP: ServeSettings = ServeSettings {
    udp: Some(SERVER),
    ..USUAL
};

/// The settings of a server of connections with a worker.
const HTTP: ServeSettings = ServeSettings {
    http: Some(SERVER),
    ..USUAL
};

/// Another node.
const NODE: Endpoint = Endpoint {
    addr: Addr::V4([192, 0, 2, 8]),
    port: 9_696,
};

/// Node 1 shares with that one.
const SYNC: SyncSettings = SyncSettings {
    at: Endpoint {
        port: 9_696,
        ..SERVER
    },
    own: 1,
    nodes: [
        Some(NODE),
        None,
        None,
        None,
        None,
        None,
        None,
        None,
        None,
        None,
        None,
        None,
        None,
        None,
        None,
        None,
    ],
};

/// A seeder of a torrent announces itself by BEP 15, with the id that its client has in minute 0
/// where the secret is all zeros: the front of the SHA-1 of 20 zeros, the address as 16 bytes and
/// the minute as 8 bytes.
const ANNOUNCE: [u8; 98] = *b"\x3a\x09\x98\x6f\x9d\xdc\x67\x75\x00\x00\x00\x01\x12\x34\x56\x78\
    \x11\x11\x11\x11\x11\x11\x11\x11\x11\x11\x11\x11\x11\x11\x11\x11\x11\x11\x11\x11\
    \x00\x00\x00\x00\x00\x00\x00\x00\x00\x00\x00\x00\x00\x00\x00\x00\x00\x00\x00\x00\
    \x00\x00\x00\x00\x00\x00\x00\x00\x00\x00\x00\x00\x00\x00\x00\x00\
    \x00\x00\x00\x00\x00\x00\x00\x00\x00\x00\x00\x02\
    \x00\x00\x00\x00\x00\x00\x00\x00\xff\xff\xff\xff\x1a\xe1";

/// Its reply where nobody else takes part.
const ANNOUNCED: [u8; 20] = *b"\x00\x00\x00\x01\x12\x34\x56\x78\x00\x00\x07\x08\
    \x00\x00\x00\x00\x00\x00\x00\x01";

/// What a usual client sends, a seeder of that torrent.
const REQUEST: &[u8] = b"GET /announce?info_hash=\
    %11%11%11%11%11%11%11%11%11%11%11%11%11%11%11%11%11%11%11%11\
    &peer_id=-TR4050-abcdefghijkl&port=51413&uploaded=0&downloaded=0&left=0&numwant=80\
    &key=1a2b3c4d&compact=1&supportcrypto=1&event=started HTTP/1.1\r\n\
    Host: tracker.example:6969\r\nAccept: */*\r\nAccept-Encoding: deflate, gzip\r\n\r\n";

/// Its reply where nobody else takes part.
const REPLY: &[u8] = b"HTTP/1.1 200 OK\r\nContent-Type: text/plain\r\nContent-Length: 92\r\n\
    Connection: close\r\n\r\n\
    d8:completei1e10:downloadedi0e10:incompletei0e\
    8:intervali1800e12:min intervali900e5:peers0:e";

/// An outside with a clock that stands in minute 0, of which these calls of makers fail.
fn outside(alloc: Global, failing: &[u64]) -> Result<MemOutside, AllocError> {
    let failing = Vec::from_slice(alloc, failing)?;
    Ok(MemOutside::new(alloc, MemClock::new(0, 0), failing))
}

/// A wire at which datagrams wait that all come from here. Its calls of these numbers fail.
fn wire<const N: usize>(
    alloc: Global,
    from: Endpoint,
    datagrams: &[[u8; N]],
    failing: &[u64],
) -> Result<MemWire, AllocError>
    ensures { IfOk result (λ wire. IsNewWire (Some (wire_traffic wire)) (wire_faults wire)
        (wire_idles wire)) }
{
    let mut incoming = Vec::new(alloc);
    for bytes in datagrams {
        incoming.push(Incoming {
            from,
            bytes: Vec::from_slice(alloc, bytes)?,
        })?;
    }
    let script = WireScript {
        incoming,
        room: datagrams.len(),
        failing: Vec::from_slice(alloc, failing)?,
    };
    MemWire::new(alloc, script)
}

/// A listener at which a connection of CLIENT waits.
fn listener(alloc: Global) -> Result<MemListener, AllocError>
    ensures { IfOk result (λ listener. IsNewListener (Some (links_of listener))
        (listener_faults listener) (listener_idles listener)) }
{
    let mut listener = MemListener::new(alloc, Vec::new(alloc));
    let script = ConnScript {
        sent: Vec::from_slice(alloc, REQUEST)?,
        lengths: Vec::new(alloc),
        room: 1_000,
        piece: 1_000,
        failing: Vec::new(alloc),
    };
    listener.offer(alloc, CLIENT, script)?;
    Ok(listener)
}

/// How a server ended, and what it wrote.
#[derive(Debug, Drop)]
struct Run {
    status: Status,
    out: Vec<u8>,
    err: Vec<u8>,
}

/// Runs a server whose output takes 20 bytes at once, and whose writes of these numbers fail.
fn serve_with<R: Threads + Wait + Sync>(
    rt: &R,
    alloc: Global,
    settings: &ServeSettings,
    input: &mut MemSource,
    failing: &[u64],
    outside: &mut MemOutside,
) -> Result<Run, AllocError>
    requires { CanServe settings.now }
{
    let mut out = MemSink::with_capacity(alloc, 100, 20, failing)?;
    let mut err = MemSink::with_capacity(alloc, 100, 100, &[])?;
    let status = run_serve(rt, alloc, settings, input, &mut out, &mut err, outside);
    Ok(Run {
        status,
        out: Vec::from_slice(alloc, out.written())?,
        err: Vec::from_slice(alloc, err.written())?,
    })
}

/// Runs a server whose input ends at once.
fn serve<R: Threads + Wait + Sync>(
    rt: &R,
    alloc: Global,
    settings: &ServeSettings,
    outside: &mut MemOutside,
) -> Result<Run, AllocError>
    requires { CanServe settings.now }
{
    let mut input = MemSource::new(&[], &[], &[]);
    serve_with(rt, alloc, settings, &mut input, &[], outside)
}

/// The summary after the one announce of a seeder. The one bucket is cleaned twice, at the start
/// and at the end, since the clock stands.
const ONE_SEEDER: &[u8] = b"torrents 1 complete 1 incomplete 0 calls 3\n";

#[test]
fn datagrams_are_served(rt: HostRuntime) -> Result<(), Fail> {
    let mut outside = outside(rt.alloc(), &[])?;
    outside.add_wire(wire(rt.alloc(), CLIENT, &[ANNOUNCE], &[])?)?;
    let run = serve(&rt, rt.alloc(), &UDP, &mut outside)?;
    assert_eq!(&rt; run.status, Status::Done);
    assert_eq!(&rt; run.out.as_slice(), ONE_SEEDER);
    assert_eq!(&rt; run.err.len(), 0);
    assert_eq!(&rt; outside.wires_back().len(), 1);
    let sent = outside.wires_back()[0].sent();
    assert_eq!(&rt; sent.len(), 1);
    assert_eq!(&rt; sent[0].to, CLIENT);
    assert_eq!(&rt; sent[0].bytes.as_slice(), ANNOUNCED.as_slice());
    Ok(())
}

#[test]
fn connections_are_served(rt: HostRuntime) -> Result<(), Fail> {
    let mut outside = outside(rt.alloc(), &[])?;
    outside.add_listener(listener(rt.alloc())?)?;
    let run = serve(&rt, rt.alloc(), &HTTP, &mut outside)?;
    assert_eq!(&rt; run.status, Status::Done);
    assert_eq!(&rt; run.out.as_slice(), ONE_SEEDER);
    assert_eq!(&rt; run.err.len(), 0);
    assert_eq!(&rt; outside.listeners_back().len(), 1);
    let finished = outside.listeners_back()[0].finished();
    assert_eq!(&rt; finished.len(), 1);
    assert_eq!(&rt; finished[0].written(), REPLY);
    Ok(())
}

/// What a seeder is told whose torrent isn't admitted.
const REFUSED: [u8; 22] = *b"\x00\x00\x00\x03\x12\x34\x56\x78not authorized";

/// Runs a server of one datagram that denies the torrents of a list, with which its input begins.
fn serve_denying<R: Threads + Wait + Sync>(
    rt: &R,
    alloc: Global,
    list: &str,
    outside: &mut MemOutside,
) -> Result<Run, AllocError> {
    let settings = ServeSettings {
        replay: ReplaySettings {
            access: Some(Mode::Deny),
            ..UDP.replay
        },
        ..UDP
    };
    outside.add_wire(wire(alloc, CLIENT, &[ANNOUNCE], &[])?)?;
    let mut input = MemSource::new(list.as_bytes(), &[7], &[]);
    serve_with(rt, alloc, &settings, &mut input, &[], outside)
}

/// What stands behind the list's end is ignored.
#[test]
fn the_input_begins_with_a_list(rt: HostRuntime) -> Result<(), Fail> {
    for (list, want) in [
        (
            "1111111111111111111111111111111111111111\nend\nmore",
            REFUSED.as_slice(),
        ),
        (
            "2222222222222222222222222222222222222222\nend\n",
            &ANNOUNCED,
        ),
    ] {
        let mut outside = outside(rt.alloc(), &[])?;
        let run = serve_denying(&rt, rt.alloc(), list, &mut outside)?;
        assert_eq!(&rt; run.status, Status::Done, "{list}");
        assert_eq!(&rt; outside.wires_back().len(), 1, "{list}");
        let sent = outside.wires_back()[0].sent();
        assert_eq!(&rt; sent.len(), 1, "{list}");
        assert_eq!(&rt; sent[0].bytes.as_slice(), want, "{list}");
    }
    Ok(())
}

/// A line that is none of a list's is refused, and so is the end of the input within the list.
/// Nothing is made then.
#[test]
fn a_list_is_refused(rt: HostRuntime) -> Result<(), Fail> {
    for (list, line, told) in [
        ("# nothing\nmore\nend\n", 2, "opentracker: line 2: list\n"),
        ("# nothing\n", 2, "opentracker: line 2: list\n"),
        ("", 1, "opentracker: line 1: list\n"),
    ] {
        let mut outside = outside(rt.alloc(), &[])?;
        let run = serve_denying(&rt, rt.alloc(), list, &mut outside)?;
        let fault = AccessFault::Line;
        assert_eq!(&rt; run.status, Status::List { line, fault }, "{list}");
        assert_eq!(&rt; run.err.as_slice(), told.as_bytes(), "{list}");
        assert_eq!(&rt;
            (run.out.len(), outside.wires_back().len()),
            (0, 0),
            "{list}"
        );
    }
    Ok(())
}
