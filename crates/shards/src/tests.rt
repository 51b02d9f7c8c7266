//! What no clause says: worked values, and that threads get their turns.

ghost use Rattle.std.specs.Prelude.{◌≡◌, ◌≢◌, ◌+◌, ◌<◌, ◌≤◌, ◌^◌, All, IfOk, false, length, true};
ghost use Rattle.tracker_model.specs.Calls.{IsPeer, IsReport, IsWellFormed, names_torrent};
ghost use Rattle.shards.specs.Shape.{first_pass};

mod seats;
mod syncs;
mod threads;

use super::*;
use ot_base::{Addr, Counts, Endpoint, InfoHash, Limits, Minute};
use std::alloc::{AllocError, Global};
use std::process::Abort;
use std::sync::Wait;
use std::test::Fail;
use tracker_model::{Answer, Call};

const A: InfoHash = InfoHash([0x11; 20]);

const WORDS: [u32; 200] = [0; 200];

/// The limits that a tracker has where nobody sets others.
const USUAL: Limits = Limits {
    peers: 100_000,
    torrents: 65_536,
};

/// 192.0.2.n at port 6881.
fn peer(n: u8) -> Endpoint
    ensures { IsPeer result }
{
    Endpoint {
        addr: Addr::V4([192, 0, 2, n]),
        port: 6881,
    }
}

/// The peer takes part, has not all of the torrent, and wants no peers.
fn announce(hash: InfoHash, n: u8) -> Call
    ensures formed { IsWellFormed result }
    ensures report { IsReport result }
    ensures request { names_torrent result ≡ true }
{
    Call::Announce {
        hash,
        who: peer(n),
        seed: false,
        completed: false,
        want: 0,
    }
}

/// New shards for so many callers, and the pass that they begin with.
fn open<R: Abort>(rt: &R, alloc: Global, bits: u32, callers: u32) -> (Shards, Pass)
    requires few_buckets { bits ≤ 10 }
    requires some_callers { 1 ≤ callers }
    requires few_callers { callers ≤ 1024 }
    ensures bits { result.0.bits ≡ bits }
    ensures callers { result.0.callers ≡ callers }
    ensures pass { result.1 ≡ first_pass result.0 }
{
    Shards::new(alloc, bits, USUAL, false, callers).expect(rt, "memory")
}

/// New passes of so many callers.
#[tactic(auto, using(crate::proofs::SplitLemmas::passes_of, crate::proofs::SplitLemmas::count_of))]
fn split<R: Abort>(
    rt: &R,
    alloc: Global,
    shards: &Shards,
    pass: &mut Pass,
    callers: u32,
) -> Vec<Pass>
    requires pass { pass.old.shards ≡ shards.now }
    requires first { pass.old.caller ≡ 0 }
    requires some { 1 ≤ pass.old.free }
    requires spare { pass.old.free + callers ≤ shards.now.callers }
    ensures count { length result.items ≡ callers }
    ensures passes { All (λ one. (one.shards ≡ shards.now) × (one.caller ≢ 0)) result.items }
    ensures pass { (pass.new.shards ≡ shards.now) × (pass.new.caller ≡ 0) }
    ensures free { pass.new.free ≡ pass.old.free + callers }
    ensures out { pass.new.out ≡ pass.old.out + callers }
{
    shards.split(alloc, pass, callers).expect(rt, "memory")
}

/// Ends all passes but caller 0's.
fn join_all(shards: &Shards, pass: &mut Pass, mut others: Vec<Pass>)
    requires pass { pass.old.shards ≡ shards.now }
    requires first { pass.old.caller ≡ 0 }
    requires out { pass.old.out ≡ length others.items }
    requires passes { All (λ one. (one.shards ≡ shards.now) × (one.caller ≢ 0)) others.items }
    ensures pass { (pass.new.shards ≡ shards.now) × (pass.new.caller ≡ 0) }
    ensures out { pass.new.out ≡ 0 }
{
    while let Some(other) = others.pop() {
        shards.join(pass, other);
    }
}

#[test]
fn joined_passes_leave_their_calls(rt: HostRuntime) -> Result<(), Fail> {
    let (shards, mut pass) = open(&rt, rt.alloc(), 0, 4);
    let mut both = split(&rt, rt.alloc(), &shards, &mut pass, 2);
    let (Some(second), Some(mut first)) = (both.pop(), both.pop()) else {
        unreachable!()
    };
    let told = shards.call(&rt, &mut first, Minute(0), announce(A, 1), &WORDS);
    assert_eq!(&rt; (told.bucket, told.place), (0, 0));
    shards.join(&mut pass, first);
    shards.join(&mut pass, second);
    assert_eq!(&rt; (pass.caller(), pass.spare(), pass.out()), (0, 1, 0));
    let mut late = split(&rt, rt.alloc(), &shards, &mut pass, 1);
    let Some(mut third) = late.pop() else {
        unreachable!()
    };
    let scraped = shards.call(&rt, &mut third, Minute(0), Call::Scrape { hash: A }, &WORDS);
    assert_eq!(&rt; counted(&scraped.answer), Some((0, 1)));
    let Err(live) = shards.close(&rt, pass) else {
        unreachable!()
    };
    let Live {
        passes,
        shards,
        mut pass,
    } = live;
    assert_eq!(&rt; passes, 1);
    shards.join(&mut pass, third);
    let Ok(Closed { shelf, calls }) = shards.close(&rt, pass) else {
        unreachable!()
    };
    assert_eq!(&rt; (shelf.bucket(0).held(), calls), (1, 2));
    Ok(())
}

/// What a scrape told: the torrent's seeds and leechers.
fn counted(answer: &Answer) -> Option<(u32, u32)> {
    match answer {
        Answer::Stats { counts, .. } => Some((counts.complete, counts.incomplete)),
        _ => None,
    }
}

#[test]
fn many_passes_of_many_buckets_are_made(rt: HostRuntime) -> Result<(), Fail> {
    let (shards, mut pass) = open(&rt, rt.alloc(), 10, 141);
    let others = split(&rt, rt.alloc(), &shards, &mut pass, 140);
    assert_eq!(&rt; others.len(), 140);
    join_all(&shards, &mut pass, others);
    let Ok(Closed { shelf, calls }) = shards.close(&rt, pass) else {
        unreachable!()
    };
    assert_eq!(&rt; (shelf.bits(), calls), (10, 0));
    Ok(())
}
