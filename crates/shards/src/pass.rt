//! A pass.

ghost use Rattle.std.specs.Prelude.{◌≡◌, ◌+◌, map};
ghost use Rattle.shards.specs.Shape.{first_pass};
ghost use Rattle.turn_lock.specs.Shape.{first_turn};

use crate::shards::Shards;
use bucket::Bucket;
use std::marker::Model;
use std::snapshot::Snapshot;
use turn_lock::Turn;

/// What one caller has of shards: a turn at each of their locks. To a contract it is the shards
/// that it belongs to, its caller number, the numbers that it has free, those of the passes that
/// were joined to it, how many passes split from it are out, and the history that it has seen of
/// each bucket. A pass that is dropped stays out, and so the shards can't be closed.
#[derive(Drop)]
pub struct Pass {
    /// One at each lock, in their order.
    pub(crate) turns: Vec<Turn<Bucket>>,
    /// What it is a pass of.
    pub(crate) place: Snapshot<Shards>,
    pub(crate) caller: u32,
    /// The first free number.
    pub(crate) free: u32,
    pub(crate) callers: u32,
    pub(crate) out: u32,
}

impl Model for Pass {
    ghost use Rattle.std.specs.Prelude.{◌≡◌, map};
    ghost use Rattle.shards.specs.Shape.{IsPass, PassShape, joined_of};

    ghost Value = { PassShape };

    ghost view = { λ p. record {
      shards = p.place.value;
      caller = p.caller;
      free = p.free;
      joined = joined_of p.turns.items;
      out = p.out;
      seen = map (λ turn. turn.seen) p.turns.items;
    } };

    ghost invariant = { λ p. IsPass p.place.value p.caller p.free p.out p.turns.items ×
        (p.callers ≡ p.place.value.callers) };
}

impl Pass {
    /// The pass's own number, from 0 on.
    pub fn caller(&self) -> u32
        ensures { result ≡ self.now.caller }
    {
        self.caller
    }

    /// How many numbers it has free.
    pub fn spare(&self) -> u32
        ensures { self.now.free + result ≡ self.now.shards.callers }
    {
        self.callers - self.free
    }

    /// How many passes that were split from it aren't joined yet.
    pub fn out(&self) -> u32
        ensures { result ≡ self.now.out }
    {
        self.out
    }

    /// The pass that shards begin with, of the turns that their locks begin with.
    pub(crate) fn first(shards: &Shards, turns: Vec<Turn<Bucket>>) -> Pass
        requires { turns.items ≡ map first_turn shards.now.locks }
        ensures { result ≡ first_pass shards.now }
    {
        Pass {
            turns,
            place: Snapshot::of(shards),
            caller: 0,
            free: 1,
            callers: shards.callers,
            out: 0,
        }
    }
}
