//! What no clause says: datagrams byte for byte, that each call succeeds, and when the jobs end.

ghost use Rattle.std.specs.Prelude.{◌≡◌, ◌<◌, IfOk, false, true, [], ◌∷◌};
ghost use Rattle.ot_base.specs.declared.address.Addr.TheVariants.{V4};
ghost use Rattle.shards.specs.Shape.{first_pass};
ghost use Rattle.tracker_model.specs.Calls.{IsWellFormed, names_torrent};

mod hearing;
mod jobs;
mod telling;

use super::*;
use ot_base::{Addr, Counts, Endpoint, InfoHash, Limits, Minute};
use ot_io::{Incoming, MemWire, WireScript};
use shards::{Pass, Shards};
use std::alloc::{AllocError, Global};
use std::process::Abort;
use std::sync::Wait;
use std::test::Fail;
use sync_wire::SyncFault;
use tracker_model::{Answer, Call};

/// A torrent. It is of bucket 0.
const HASH: InfoHash = InfoHash([0x11; 20]);

/// The reader's own number, and another node's.
const OWN: u32 = 1;

const OTHER: u32 = 2;

/// Where that other node is, and where none is.
const NODE: Endpoint = Endpoint {
    addr: Addr::V4([10, 0, 0, 9]),
    port: 7,
};

const STRANGER: Endpoint = Endpoint { port: 8, ..NODE };

/// How much each bucket holds.
const LIMITS: Limits = Limits {
    peers: 120,
    torrents: 3,
};

/// An endpoint of this port.
fn at(port: u16) -> Endpoint
    ensures { result ≡ record { addr = V4 (10 ∷ 0 ∷ 0 ∷ 9 ∷ []); port = port } }
{
    Endpoint { port, ..NODE }
}

/// Four buckets that nobody has called and that keep notes, and the pass that they begin with.
fn shards(alloc: Global) -> Result<(Shards, Pass), AllocError>
    ensures pass { IfOk result (λ r. r.1 ≡ first_pass r.0) }
{
    Shards::new(alloc, 2, LIMITS, true, 1)
}

/// A wire at which these wait, over which so many can be sent, and of which the calls of these
/// numbers fail.
fn wire(
    alloc: Global,
    incoming: Vec<Incoming>,
    room: usize,
    failing: &[u64],
) -> Result<MemWire, AllocError> {
    MemWire::new(
        alloc,
        WireScript {
            incoming,
            room,
            failing: Vec::from_slice(alloc, failing)?,
        },
    )
}

/// What another node sends: so many notes of one torrent, whose ports count up from this one, each
/// with this flag and this last byte.
#[derive(Clone, Copy)]
struct Batch {
    node: u32,
    kind: u32,
    notes: u16,
    port: u16,
    flag: u8,
    last: u8,
}

/// One note of a seed.
const SEED: Batch = Batch {
    node: OTHER,
    kind: 4,
    notes: 1,
    port: 6881,
    flag: 0x80,
    last: 0,
};

impl Batch {
    /// Its datagram, as the node's.
    fn incoming(&self, alloc: Global) -> Result<Incoming, AllocError> {
        let mut bytes = Vec::new(alloc);
        bytes.extend_from_slice(&self.node.to_be_bytes())?;
        bytes.extend_from_slice(&self.kind.to_be_bytes())?;
        for i in 0..self.notes {
            bytes.extend_from_slice(&HASH.0)?;
            bytes.extend_from_slice(&[10, 0, 0, 9])?;
            bytes.extend_from_slice(&self.port.wrapping_add(i).to_be_bytes())?;
            bytes.extend_from_slice(&[self.flag, self.last])?;
        }
        Ok(Incoming { from: NODE, bytes })
    }
}

/// Makes a call on a torrent in minute 0. Gives how many calls its bucket had before, or that there
/// was no memory for this one.
fn ask<R: Wait>(rt: &R, shards: &Shards, pass: &mut Pass, call: Call) -> Result<u64, AllocError>
    requires pass { pass.old.shards ≡ shards.now }
    requires formed { IsWellFormed call }
    requires named { names_torrent call ≡ true }
    ensures { pass.new.shards ≡ shards.now }
{
    let done = shards.call(rt, pass, Minute(0), call, &[0; 200]);
    match done.answer {
        Answer::NoMemory => Err(AllocError),
        _ => Ok(done.place),
    }
}

/// The announce of a seed of this port, who wants no peers.
fn announce(port: u16) -> Call
    requires { 0 < port }
    ensures formed { IsWellFormed result }
    ensures named { names_torrent result ≡ true }
{
    Call::Announce {
        hash: HASH,
        who: at(port),
        seed: true,
        completed: false,
        want: 0,
    }
}

/// Hears so many datagrams of a wire in minute 0, and checks what was done, up to the first for
/// which there is no memory.
fn hear_each<R: Wait + Abort>(
    rt: &R,
    shards: &Shards,
    pass: &mut Pass,
    wire: &mut MemWire,
    want: &[SyncIn],
) -> Result<(), AllocError>
    requires { pass.old.shards ≡ shards.now }
    ensures { pass.new.shards ≡ shards.now }
{
    'heard: for (number, want) in want.iter().enumerate() {
        let heard = sync_in_turn(rt, shards, pass, wire, OWN, &[NODE], Minute(0));
        if matches!(heard, SyncIn::NoMemory { .. }) {
            return Err(AllocError);
        }
        assert_eq!(rt; heard, *want, "{number}");
    }
    Ok(())
}

/// The same in new buckets. Gives the torrent's counts after that, and how many calls its bucket
/// had.
fn hear_anew<R: Wait + Abort>(
    rt: &R,
    alloc: Global,
    wire: &mut MemWire,
    want: &[SyncIn],
) -> Result<(Counts, u64), AllocError> {
    let (shards, mut pass) = shards(alloc)?;
    hear_each(rt, &shards, &mut pass, wire, want)?;
    let calls = ask(rt, &shards, &mut pass, Call::Scrape { hash: HASH })?;
    let (counts, _) = shards.scrape(rt, &mut pass, Minute(0), &HASH);
    Ok((counts, calls))
}
