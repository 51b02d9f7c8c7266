//! How shards end.

ghost use Rattle.std.specs.Prelude.{◌≡◌, ◌≤◌, [], false, ◌↔◌, All, IfErr, IfOk, IsOk, length, map, sum_by, vec_capacity};
ghost use Rattle.std.specs.List.{AllZip};
ghost use Rattle.bucket.specs.Shelf.{AllStand};
ghost use Rattle.shards.specs.Shape.{numbers_of};
ghost use Rattle.tracker_model.specs.Settings.{Settings};
ghost use Rattle.tracker_model.specs.Stands.{StandsFor};

use crate::pass::Pass;
use crate::shards::Shards;
use bucket::{Bucket, Shelf};
use std::sync::Wait;
use turn_lock::{Turn, TurnLock};

/// What is left of shards that ended.
#[derive(Drop)]
pub struct Closed {
    /// The buckets, in order.
    pub shelf: Shelf,
    /// How many calls were made on all of them.
    pub calls: u128,
}

/// Shards that can't end yet.
#[derive(Drop)]
pub struct Live {
    /// How many passes are out.
    pub passes: u32,
    pub shards: Shards,
    pub pass: Pass,
}

impl Shards {
    /// Ends the shards, where no pass but caller 0's is left. That one has seen the whole history
    /// of each bucket, with all calls of all passes. Else all comes back as it was. Takes no
    /// memory.
    pub fn close<R: Wait>(self, rt: &R, pass: Pass) -> Result<Closed, Live>
        requires pass { pass.shards ≡ self }
        requires first { pass.caller ≡ 0 }
        ensures alone { IsOk result ↔ (pass.out ≡ 0) }
        ensures live { IfErr result (λ live. live ≡
            record { passes = pass.out; shards = self; pass = pass }) }
        ensures settings { IfOk result (λ closed. closed.shelf.settings ≡ self.settings) }
        ensures bits { IfOk result (λ closed. closed.shelf.bits ≡ self.bits) }
        ensures stands { IfOk result (λ closed. AllStand pass.seen closed.shelf) }
        ensures calls { IfOk result (λ closed. closed.calls ≡ sum_by length pass.seen) }
    {
        if pass.out != 0 {
            return Err(Live {
                passes: pass.out,
                shards: self,
                pass,
            });
        }
        let bits = self.bits;
        let (buckets, calls) = close_all(rt, self.locks, pass.turns, self.room);
        Ok(Closed {
            shelf: Shelf::of_buckets(bits, buckets),
            calls,
        })
    }
}

/// Ends the locks, and puts their values into the room, in order. Answers with them how many calls
/// were made on all of them.
fn close_all<R: Wait>(
    rt: &R,
    locks: Vec<TurnLock<Bucket>>,
    turns: Vec<Turn<Bucket>>,
    mut room: Vec<Bucket>,
) -> (Vec<Bucket>, u128)
    requires locks { map (λ turn. turn.lock) turns.items ≡ locks.items }
    requires turns { All (λ turn. (turn.holds ≡ false) × ((turn.caller ≡ 0) × (turn.out ≡ 0)))
        turns.items }
    requires few { length locks.items ≤ 1024 }
    requires empty { room.items ≡ [] }
    requires room { length locks.items ≤ vec_capacity room }
    ensures settings { (g : Settings) → All (λ lock. lock.settings ≡ numbers_of g) locks.items →
        All (λ bucket. bucket.settings ≡ g) result.0.items }
    ensures stands { AllZip StandsFor (map (λ turn. turn.seen) turns.items) result.0.items }
    ensures calls { result.1 ≡ sum_by length (map (λ turn. turn.seen) turns.items) }
{
    let mut calls = 0;
    for (lock, turn) in locks.into_iter().zip(turns) {
        let (bucket, count) = lock.close(rt, turn);
        room.push_reserved(bucket);
        calls += u128::from(count);
    }
    (room, calls)
}
