//! How a pass ends.

ghost use Rattle.std.specs.Prelude.{◌≡◌, ◌≢◌, ◌+◌, ◌<◌, ◌∷◌, ℕ, false, All, length, map, slice_index_or};
ghost use Rattle.shards.specs.Histories.{IsJoined, IsJoinedTurn};
ghost use Rattle.shards.specs.Shape.{KnowsNumbers};
ghost use Rattle.tracker_model.specs.Grows.{history_at};
ghost use Rattle.turn_lock.specs.Shape.{TurnShape};

use crate::pass::Pass;
use crate::shards::Shards;
use bucket::Bucket;
use turn_lock::{Turn, TurnLock};

impl Shards {
    /// Ends a pass that was split from caller 0's. Of each bucket that one has then seen the longer
    /// of both histories, which has of the ended number just the entries that the ended pass has
    /// seen. From now on nobody adds an entry of that number: it is one of those joined, of which
    /// no call comes between.
    pub fn join(&self, pass: &mut Pass, other: Pass)
        requires pass { pass.old.shards ≡ self.now }
        requires first { pass.old.caller ≡ 0 }
        requires other { other.shards ≡ self.now }
        requires other_split { other.caller ≢ 0 }
        ensures pass { pass.new ≡ record pass.old {
          seen = pass.new.seen;
          joined = other.caller ∷ pass.old.joined;
          out = pass.new.out;
        } }
        ensures out { pass.old.out ≡ pass.new.out + 1 }
        ensures buckets { length pass.new.seen ≡ length pass.old.seen }
        ensures seen { (bucket : ℕ) → IsJoined (pass.old.caller ∷ pass.old.joined) other.caller
            (history_at pass.old.seen bucket) (history_at other.seen bucket)
            (history_at pass.new.seen bucket) }
        ensures known { KnowsNumbers pass.new }
    {
        join_turns(self.locks.as_slice(), &mut pass.turns, other.turns);
        pass.out -= 1;
    }
}

/// Joins to each turn the other one at its lock.
fn join_turns(
    locks: &[TurnLock<Bucket>],
    turns: &mut Vec<Turn<Bucket>>,
    mut others: Vec<Turn<Bucket>>,
)
    requires locks { map (λ turn. turn.lock) turns.old.items ≡ locks.now }
    requires other_locks { map (λ turn. turn.lock) others.items ≡ locks.now }
    requires turns { All (λ turn. (turn.holds ≡ false) × (turn.caller ≡ 0)) turns.old.items }
    requires others { All (λ turn. (turn.holds ≡ false) × (turn.caller ≢ 0)) others.items }
    ensures count { length turns.new.items ≡ length turns.old.items }
    ensures joined { (i : ℕ) (d : TurnShape) → i < length turns.old.items →
        IsJoinedTurn (slice_index_or turns.old.items i d) (slice_index_or others.items i d)
        (slice_index_or turns.new.items i d) }
{
    while let Some(other) = others.pop() {
        let i = others.len();
        locks[i].join(&mut turns[i], other);
    }
}
