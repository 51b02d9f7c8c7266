//! The shards, and how they are made.

ghost use Rattle.std.specs.Prelude.{◌≡◌, ◌≤◌, ◌^◌, All, IfOk, length, map, vec_len};
ghost use Rattle.shards.specs.Shape.{IsLockFor, first_pass};
ghost use Rattle.tracker_model.specs.Settings.{AreLimits};
ghost use Rattle.turn_lock.specs.Shape.{first_turn};

use crate::call::place_in;
use crate::pass::Pass;
use bucket::Bucket;
use ot_base::{InfoHash, Limits};
use std::alloc::{AllocError, Global};
use std::marker::Model;
use turn_lock::{Turn, TurnLock};

/// The buckets of a tracker, 2^`bits` of them, each under a lock of its own. To a contract they are
/// the locks, the settings of each bucket, the bits of a hash that tell its bucket, and the number
/// of callers. None of these ever changes.
#[derive(Drop)]
pub struct Shards {
    pub(crate) locks: Vec<TurnLock<Bucket>>,
    /// Room for the buckets once the locks are closed.
    pub(crate) room: Vec<Bucket>,
    pub(crate) limits: Limits,
    pub(crate) sync: bool,
    pub(crate) bits: u32,
    pub(crate) callers: u32,
}

impl Model for Shards {
    ghost use Rattle.std.specs.Prelude.{◌≡◌, ◌≤◌, [], length, vec_capacity};
    ghost use Rattle.shards.specs.Shape.{AreShards, ShardsShape};

    ghost Value = { ShardsShape };

    ghost view = { λ s. record {
      locks = s.locks.items;
      settings = record { limits = s.limits; sync = s.sync };
      bits = s.bits;
      callers = s.callers;
    } };

    ghost invariant = { λ s. AreShards (record {
      locks = s.locks.items;
      settings = record { limits = s.limits; sync = s.sync };
      bits = s.bits;
      callers = s.callers;
    }) × (s.room.items ≡ []) × (length s.locks.items ≤ vec_capacity s.room) };
}

impl Shards {
    /// Shards of 2^`bits` empty buckets for callers of the numbers below `callers`, and the pass of
    /// caller 0, which has all the other numbers free. Each bucket has limits from 1 to 1,000,000.
    /// They keep notes for other nodes where `sync` is set. The room that `close` needs is taken
    /// here.
    pub fn new(
        alloc: Global,
        bits: u32,
        limits: Limits,
        sync: bool,
        callers: u32,
    ) -> Result<(Shards, Pass), AllocError>
        requires few_buckets { bits ≤ 10 }
        requires limits { AreLimits limits }
        requires some_callers { 1 ≤ callers }
        requires few_callers { callers ≤ 1024 }
        ensures settings { IfOk result (λ r. r.0.settings ≡ record { limits = limits; sync = sync }) }
        ensures bits { IfOk result (λ r. r.0.bits ≡ bits) }
        ensures callers { IfOk result (λ r. r.0.callers ≡ callers) }
        ensures buckets { IfOk result (λ r. length r.0.locks ≡ 2 ^ bits) }
        ensures pass { IfOk result (λ r. r.1 ≡ first_pass r.0) }
    {
        let count = 1usize << bits;
        let room = Vec::with_capacity(alloc, count)?;
        let (locks, turns) = open_all(alloc, count, limits, sync, callers)?;
        let shards = Shards {
            locks,
            room,
            limits,
            sync,
            bits,
            callers,
        };
        let pass = Pass::first(&shards, turns);
        Ok((shards, pass))
    }

    /// Looks at the lock of a torrent's bucket, and tells nothing: for who will make calls for
    /// several torrents, so that their locks come from memory at once.
    pub fn approach(&self, hash: &InfoHash) {
        let bucket = place_in(*hash, self.bits);
        self.locks[bucket as usize].approach();
    }

    /// How many buckets there are, at most 1,024.
    pub fn bucket_count(&self) -> u32
        ensures count { result ≡ 2 ^ self.now.bits }
        ensures most { result ≤ 1024 }
    {
        1 << self.bits
    }
}

/// A lock for each of `count` empty buckets, and the turn that each begins with.
fn open_all(
    alloc: Global,
    count: usize,
    limits: Limits,
    sync: bool,
    callers: u32,
) -> Result<(Vec<TurnLock<Bucket>>, Vec<Turn<Bucket>>), AllocError>
    requires limits { AreLimits limits }
    requires some_callers { 1 ≤ callers }
    requires few_callers { callers ≤ 1024 }
    ensures count { IfOk result (λ r. length r.0.items ≡ count) }
    ensures locks { IfOk result (λ r.
        All (IsLockFor (record { limits = limits; sync = sync }) callers) r.0.items) }
    ensures turns { IfOk result (λ r. r.1.items ≡ map first_turn r.0.items) }
{
    let mut locks = Vec::with_capacity(alloc, count)?;
    let mut turns = Vec::with_capacity(alloc, count)?;
    for _ in 0..count {
        let (lock, turn) = TurnLock::new(alloc, Bucket::new(alloc, limits, sync)?, callers)?;
        locks.push(lock)?;
        turns.push(turn)?;
    }
    Ok((locks, turns))
}
