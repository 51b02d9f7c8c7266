//! Jobs that work at the same time.

ghost use Rattle.std.specs.Prelude.{◌≡◌, IfOk, Some, vec_len};
ghost use Rattle.std.specs.List.{All};
ghost use Rattle.ot_io.specs.MemoryWire.{wire_faults, wire_idles, wire_traffic};
ghost use Rattle.ot_io.specs.Traffic.{IsNewWire};
ghost use Rattle.server.specs.Run.{CanServe};

use super::*;
use ot_io::{Made, Outside, Piece, Recv, Sent, Source, Wire};
use std::sync::atomic::{AtomicBool, Ordering};
use std::thread;

/// The same announce of another torrent.
const OTHER: [u8; 98] = *b"\x3a\x09\x98\x6f\x9d\xdc\x67\x75\x00\x00\x00\x01\x12\x34\x56\x78\
    \xff\xff\xff\xff\xff\xff\xff\xff\xff\xff\xff\xff\xff\xff\xff\xff\xff\xff\xff\xff\
    \x00\x00\x00\x00\x00\x00\x00\x00\x00\x00\x00\x00\x00\x00\x00\x00\x00\x00\x00\x00\
    \x00\x00\x00\x00\x00\x00\x00\x00\x00\x00\x00\x00\x00\x00\x00\x00\
    \x00\x00\x00\x00\x00\x00\x00\x00\x00\x00\x00\x02\
    \x00\x00\x00\x00\x00\x00\x00\x00\xff\xff\xff\xff\x1a\xe1";

/// Node 2 tells that 192.0.2.7 at port 6881 is a seed of that torrent.
const HEARD: [u8; 36] = *b"\x00\x00\x00\x02\x00\x00\x00\x04\
    \xff\xff\xff\xff\xff\xff\xff\xff\xff\xff\xff\xff\xff\xff\xff\xff\xff\xff\xff\xff\
    \xc0\x00\x02\x07\x1a\xe1\x80\x00";

/// Node 1 tells that CLIENT is a seed of the torrent that it announced.
const TOLD: [u8; 36] = *b"\x00\x00\x00\x01\x00\x00\x00\x04\
    \x11\x11\x11\x11\x11\x11\x11\x11\x11\x11\x11\x11\x11\x11\x11\x11\x11\x11\x11\x11\
    \xc0\x00\x02\x01\x1a\xe1\x80\x00";

/// A wire in memory, whose sends may wait for another's.
#[derive(Drop)]
struct Watched<'a> {
    wire: MemWire,
    /// What a send waits for.
    awaits: Option<&'a AtomicBool>,
    /// What is raised by a send.
    raises: Option<&'a AtomicBool>,
    /// Whether a send waited in vain.
    is_late: bool,
}

impl Wire for Watched<'_> {
    ghost use Rattle.std.specs.Prelude.{Some};
    ghost use Rattle.ot_io.specs.MemoryWire.{wire_faults, wire_idles, wire_traffic};

    ghost traffic = { λ watched. Some (wire_traffic watched.wire) };

    ghost faults = { λ watched. wire_faults watched.wire };

    ghost idles = { λ watched. wire_idles watched.wire };

    fn recv(&mut self, buf: &mut [u8; 2048]) -> Recv {
        self.wire.recv(buf)
    }

    fn send(&mut self, to: Endpoint, bytes: &[u8]) -> Sent {
        if let Some(flag) = self.awaits {
            self.is_late = !is_set_in_time(flag);
        }
        let sent = self.wire.send(to, bytes);
        if let Some(flag) = self.raises {
            flag.store(true, Ordering::SeqCst);
        }
        sent
    }
}

/// Whether the flag is set before it was looked at 1,000,000,000 times. In between it lets others
/// run, since the other job may not have begun.
fn is_set_in_time(flag: &AtomicBool) -> bool {
    for look in 0..1_000_000_000_u32 {
        if flag.load(Ordering::SeqCst) {
            return true;
        }
        if look % 1_024 == 0 {
            thread::yield_now();
        }
    }
    false
}

/// An input that ends once a flag is set, or after that time.
#[derive(Drop)]
struct Until<'a> {
    flag: &'a AtomicBool,
    is_late: bool,
    ends: u64,
}

impl Source for Until<'_> {
    ghost use Rattle.std.specs.Prelude.{None};

    ghost left = { λ source. None };

    ghost faults = { λ source. 0 };

    ghost ends = { λ source. source.ends };

    fn read(&mut self, _buf: &mut [u8]) -> Piece {
        self.is_late = !is_set_in_time(self.flag);
        self.ends = self.ends.saturating_add(1);
        Piece::End
    }
}

/// Such an input, for this flag.
fn input_until(flag: &AtomicBool) -> Until {
    Until {
        flag,
        is_late: false,
        ends: 0,
    }
}

/// An outside that makes such wires, and no listeners. At each worker's a seeder's announce waits;
/// the torrent of the first one lies in another bucket than that of the others. At each wire to
/// other nodes NODE's datagram waits. It keeps the wires that come back.
#[derive(Drop)]
struct Watching<'a> {
    alloc: Global,
    /// What the first worker's reply waits for, and the others' raise.
    is_answered: &'a AtomicBool,
    /// What is raised by the first wire to other nodes.
    is_told: &'a AtomicBool,
    back: Vec<Watched<'a>>,
}

impl<'a> Outside for Watching<'a> {
    ghost use Rattle.std.specs.Prelude.{None};

    type W = Watched<'a>;

    type L = MemListener;

    type C = MemClock;

    ghost wires_lent = { λ outside. None };

    ghost listeners_lent = { λ outside. None };

    ghost faults = { λ outside. 0 };

    fn wires(&mut self, at: Endpoint, n: u32) -> Made<Vec<Watched<'a>>> {
        match self.make_wires(at == SYNC.at, n) {
            Ok(wires) => Made::Got(wires),
            Err(_) => Made::NoMemory,
        }
    }

    fn listeners(&mut self, _at: Endpoint, _n: u32) -> Made<Vec<MemListener>> {
        Made::NoMemory
    }

    fn clocks(&mut self, n: u32) -> Made<Vec<MemClock>> {
        match vec![in self.alloc; MemClock::new(0, 0); n as usize] {
            Ok(clocks) => Made::Got(clocks),
            Err(_) => Made::NoMemory,
        }
    }

    fn wire_back(&mut self, wire: Watched<'a>) {
        let _ = self.back.push(wire);
    }

    fn listener_back(&mut self, _listener: MemListener) {}

    ghost fair_wires = { λ outside. tt };

    ghost fair_listeners = { λ outside. tt };
}

impl<'a> Watching<'a> {
    ghost use Rattle.std.specs.Prelude.{◌≡◌, IfOk, Some, vec_len};
    ghost use Rattle.std.specs.List.{All};
    ghost use Rattle.ot_io.specs.MemoryWire.{wire_faults, wire_idles, wire_traffic};
    ghost use Rattle.ot_io.specs.Traffic.{IsNewWire};

    /// So many wires, of workers or to other nodes.
    fn make_wires(&self, to_nodes: bool, n: u32) -> Result<Vec<Watched<'a>>, AllocError>
        ensures count { IfOk result (λ wires. vec_len wires ≡ n) }
        ensures new { IfOk result (λ wires. All (λ watched.
            IsNewWire (Some (wire_traffic watched.wire)) (wire_faults watched.wire)
            (wire_idles watched.wire)) wires.items) }
    {
        let mut wires = Vec::with_capacity(self.alloc, n as usize)?;
        for number in 0..n {
            wires.push(self.make_wire(to_nodes, number == 0)?)?;
        }
        Ok(wires)
    }

    fn make_wire(&self, to_nodes: bool, is_first: bool) -> Result<Watched<'a>, AllocError>
        ensures { IfOk result (λ watched.
            IsNewWire (Some (wire_traffic watched.wire)) (wire_faults watched.wire)
            (wire_idles watched.wire)) }
    {
        if to_nodes {
            self.node_wire(is_first)
        } else {
            self.worker_wire(is_first)
        }
    }

    fn worker_wire(&self, is_first: bool) -> Result<Watched<'a>, AllocError>
        ensures { IfOk result (λ watched.
            IsNewWire (Some (wire_traffic watched.wire)) (wire_faults watched.wire)
            (wire_idles watched.wire)) }
    {
        let flag = Some(self.is_answered);
        let (announce, awaits, raises) = if is_first {
            (ANNOUNCE, flag, None)
        } else {
            (OTHER, None, flag)
        };
        Ok(Watched {
            wire: wire(self.alloc, CLIENT, &[announce], &[])?,
            awaits,
            raises,
            is_late: false,
        })
    }

    fn node_wire(&self, is_first: bool) -> Result<Watched<'a>, AllocError>
        ensures { IfOk result (λ watched.
            IsNewWire (Some (wire_traffic watched.wire)) (wire_faults watched.wire)
            (wire_idles watched.wire)) }
    {
        Ok(Watched {
            wire: wire(self.alloc, NODE, &[HEARD], &[])?,
            awaits: None,
            raises: is_first.then_some(self.is_told),
            is_late: false,
        })
    }
}

/// Runs a server.
fn serve_watched<R: Threads + Wait + Sync>(
    rt: &R,
    alloc: Global,
    settings: &ServeSettings,
    input: &mut Until,
    outside: &mut Watching,
) -> Result<Run, AllocError>
    requires { CanServe settings.now }
{
    let mut out = MemSink::with_capacity(alloc, 100, 100, &[])?;
    let mut err = MemSink::with_capacity(alloc, 100, 100, &[])?;
    let status = run_serve(rt, alloc, settings, input, &mut out, &mut err, outside);
    Ok(Run {
        status,
        out: Vec::from_slice(alloc, out.written())?,
        err: Vec::from_slice(alloc, err.written())?,
    })
}

/// The summary of both torrents. Each of the two buckets is cleaned twice.
const TWO_SEEDERS: &[u8] = b"torrents 2 complete 2 incomplete 0 calls 6\n";

/// The first worker's reply is sent only once the second worker's was.
#[test]
fn two_workers_answer_each_other(rt: HostRuntime) -> Result<(), Fail> {
    let (is_answered, is_over) = (AtomicBool::new(false), AtomicBool::new(true));
    let mut outside = Watching {
        alloc: rt.alloc(),
        is_answered: &is_answered,
        is_told: &is_over,
        back: Vec::new(rt.alloc()),
    };
    let settings = ServeSettings {
        replay: ReplaySettings {
            bits: 1,
            ..UDP.replay
        },
        workers: 2,
        ..UDP
    };
    let mut input = input_until(&is_over);
    let run = serve_watched(&rt, rt.alloc(), &settings, &mut input, &mut outside)?;
    assert_eq!(&rt; run.status, Status::Done);
    assert_eq!(&rt; run.out.as_slice(), TWO_SEEDERS);
    assert_eq!(&rt; outside.back.len(), 2);
    for watched in &outside.back {
        assert!(&rt; !watched.is_late);
        assert_eq!(&rt; watched.wire.sent().len(), 1);
        let bytes = watched.wire.sent()[0].bytes.as_slice();
        assert_eq!(&rt; bytes, ANNOUNCED.as_slice());
    }
    Ok(())
}

/// The sender of a server that runs really sends: the input ends only once another node was told of
/// the one announce. What that node tells is heard.
#[test]
fn serve_syncs(rt: HostRuntime) -> Result<(), Fail> {
    let (is_answered, is_told) = (AtomicBool::new(true), AtomicBool::new(false));
    let mut outside = Watching {
        alloc: rt.alloc(),
        is_answered: &is_answered,
        is_told: &is_told,
        back: Vec::new(rt.alloc()),
    };
    let settings = ServeSettings {
        sync: Some(SYNC),
        ..UDP
    };
    let mut input = input_until(&is_told);
    let run = serve_watched(&rt, rt.alloc(), &settings, &mut input, &mut outside)?;
    assert!(&rt; !input.is_late);
    assert_eq!(&rt; run.status, Status::Done);
    assert!(&rt;
        run.out
            .as_slice()
            .starts_with(b"torrents 2 complete 2 incomplete 0 calls ")
    );
    assert_eq!(&rt; outside.back.len(), 3);
    let sent = outside.back[1].wire.sent();
    assert_eq!(&rt; sent.len(), 1);
    assert_eq!(&rt; sent[0].to, NODE);
    assert_eq!(&rt; sent[0].bytes.as_slice(), TOLD.as_slice());
    let heard = &outside.back[2].wire;
    assert_eq!(&rt; (heard.waiting().len(), heard.sent().len()), (0, 0));
    Ok(())
}
