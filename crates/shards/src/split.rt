//! How new passes are split from one.

ghost use Rattle.std.specs.Prelude.{◌≡◌, ◌≢◌, ◌+◌, ◌<◌, ◌≤◌, ℕ, [], false, All, IfOk, OnOk, MatchResult, length, map, vec_len, vec_capacity};
ghost use Rattle.shards.specs.Shape.{new_pass, new_passes};
ghost use Rattle.tracker_model.specs.Grows.{OthersBetween};
ghost use Rattle.turn_lock.specs.Shape.{IsSpare, TurnShape, new_turn};

use crate::pass::Pass;
use crate::shards::Shards;
use bucket::Bucket;
use std::alloc::{AllocError, Global};
use std::snapshot::Snapshot;
use turn_lock::{Turn, TurnLock};

impl Shards {
    /// New passes of the next `n` numbers that the pass has free, in order. Each has seen what the
    /// pass has seen, in which its number has no entry. The pass keeps the free numbers above them.
    /// All memory is taken before the first turn is split.
    pub fn split(&self, alloc: Global, pass: &mut Pass, n: u32) -> Result<Vec<Pass>, AllocError>
        requires pass { pass.old.shards ≡ self.now }
        requires spare { pass.old.free + n ≤ self.now.callers }
        ensures passes { IfOk result (λ passes. passes.items ≡ new_passes pass.old n) }
        ensures pass { MatchResult result
            (λ _. pass.new ≡
            record pass.old { free = pass.old.free + n; out = pass.old.out + n })
            (λ _. pass.new ≡ pass.old) }
        ensures no_entry_yet { OnOk result ((number : ℕ) → pass.old.free ≤ number →
            number < pass.old.free + n → All (OthersBetween number) pass.old.seen) }
    {
        let count = n as usize;
        let mut rooms = take_rooms(alloc, count, self.locks.len())?;
        let mut passes = Vec::with_capacity(alloc, count)?;
        while let Some(room) = rooms.pop() {
            passes.push_reserved(self.split_one(pass, room));
        }
        Ok(passes)
    }

    /// One new pass, whose turns stand in the room.
    fn split_one(&self, pass: &mut Pass, room: Vec<Turn<Bucket>>) -> Pass
        requires pass { pass.old.shards ≡ self.now }
        requires spare { pass.old.free < self.now.callers }
        requires empty { room.items ≡ [] }
        requires room { length self.now.locks ≤ vec_capacity room }
        ensures new { result ≡ new_pass self.now pass.old.free pass.old.seen }
        ensures pass { pass.new ≡
            record pass.old { free = pass.old.free + 1; out = pass.old.out + 1 } }
        ensures no_entry_yet { All (OthersBetween pass.old.free) pass.old.seen }
    {
        let caller = pass.free;
        let turns = split_turns(self.locks.as_slice(), &mut pass.turns, caller, room);
        pass.free += 1;
        pass.out += 1;
        Pass {
            turns,
            place: Snapshot::of(self),
            caller,
            free: self.callers,
            callers: self.callers,
            out: 0,
        }
    }
}

/// Rooms for as many passes, with as many turns in each.
fn take_rooms(
    alloc: Global,
    passes: usize,
    turns: usize,
) -> Result<Vec<Vec<Turn<Bucket>>>, AllocError>
    ensures count { IfOk result (λ rooms. length rooms.items ≡ passes) }
    ensures rooms { IfOk result (λ rooms. All (λ room.
        (room.items ≡ []) × (turns ≤ vec_capacity room)) rooms.items) }
{
    let mut rooms = Vec::with_capacity(alloc, passes)?;
    for _ in 0..passes {
        rooms.push(Vec::with_capacity(alloc, turns)?)?;
    }
    Ok(rooms)
}

/// Splits a new turn from each, all of the same number, into the room.
fn split_turns(
    locks: &[TurnLock<Bucket>],
    turns: &mut Vec<Turn<Bucket>>,
    number: u32,
    mut room: Vec<Turn<Bucket>>,
) -> Vec<Turn<Bucket>>
    requires locks { map (λ turn. turn.lock) turns.old.items ≡ locks.now }
    requires free { All (λ turn. turn.holds ≡ false) turns.old.items }
    requires number { All (λ turn. IsSpare turn number) turns.old.items }
    requires empty { room.items ≡ [] }
    requires room { length locks.now ≤ vec_capacity room }
    ensures turns { turns.new.items ≡
        map (λ (turn : TurnShape). record turn { free = number + 1; out = turn.out + 1 }) turns.old.items }
    ensures new { result.items ≡ map (λ (turn : TurnShape). new_turn turn.lock number turn.seen) turns.old.items }
    ensures no_entry_yet { All (λ turn. OthersBetween number turn.seen) turns.old.items }
{
    for i in 0..turns.len() {
        room.push_reserved(locks[i].split(&mut turns[i], number));
    }
    room
}
