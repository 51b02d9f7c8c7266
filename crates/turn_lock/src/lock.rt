//! The lock.

ghost use Rattle.std.specs.Prelude.{◌≡◌, ◌≢◌, ◌+◌, ◌⊎◌, ◌≤◌, true, false, [], ◌∷◌, ◌++◌, length, IfOk};
ghost use Rattle.tracker_model.specs.Grows.{OthersBetween};
ghost use Rattle.turn_lock.specs.Histories.{GoesOn};
ghost use Rattle.turn_lock.specs.Shape.{IsSpare, KnowsCallers, entry_of, first_turn, new_turn};

use crate::answers::AsAnswer;
use crate::board::{Board, Key, SERVING, SLOT};
use crate::steps::{advance, cut, draw, finish, merge, wait};
use crate::turn::Turn;
use atomic_table::Table;
use ot_base::Minute;
use std::alloc::{AllocError, Global};
use std::marker::{Brand, Model};
use std::snapshot::Snapshot;
use std::sync::Wait;
use tracker_model::{Call, Stands};

/// A lock that is taken in turns, in the order in which callers ask for it. It keeps one value,
/// which stands for the history of all calls that were made on it. To a contract it is what tells
/// it from other locks, the settings of its value, and how many callers it has. None of these ever
/// changes.
#[derive(Drop)]
pub struct TurnLock<T: Stands> {
    board: Board<T>,
}

impl<T: Stands> Model for TurnLock<T> {
    ghost use Rattle.turn_lock.specs.Seats.{IsSized};
    ghost use Rattle.turn_lock.specs.Shape.{LockShape};

    ghost Value = { LockShape };

    ghost view = { λ l. record {
      table = l.board.shared.table_id;
      settings = T.settings l.board.shared.key.first.value;
      callers = l.board.shared.key.callers;
    } };

    ghost invariant = { λ l. IsSized l.board.shared.table_id };
}

impl<T: Stands> TurnLock<T> {
    /// A lock for callers of the numbers below `callers`, and the turn of caller 0, which has all
    /// the other numbers free. The value stands for the history that has no entry.
    pub fn new(alloc: Global, value: T, callers: u32) -> Result<(TurnLock<T>, Turn<T>), AllocError>
    where
        T: Drop,
        requires some_callers { 1 ≤ callers }
        requires few_callers { callers ≤ 1024 }
        requires stands { T.stands value [] }
        ensures settings { IfOk result (λ r. r.0.settings ≡ T.settings value) }
        ensures callers { IfOk result (λ r. r.0.callers ≡ callers) }
        ensures turn { IfOk result (λ r. r.1 ≡ first_turn r.0) }
        ensures known { IfOk result (λ r. KnowsCallers r.1) }
    {
        let about = Key {
            first: Snapshot::of(&value),
            callers,
        };
        let mut slots = Vec::new(alloc);
        slots.push(Some(value))?;
        match Table::new(alloc, &[0, 0], slots, &about) {
            Ok((board, place)) => Ok((TurnLock { board }, Turn { place })),
            Err(_) => Err(AllocError),
        }
    }

    /// Looks at the words of the lock, and tells nothing. Who will take turns at several locks looks
    /// at all of them first: so they come from memory at once, and not one after the other.
    pub fn approach(&self) {
        self.board.shared.peek(SERVING);
    }

    /// Waits for the turn, and takes the value out. It stands for all that the turn has now seen.
    /// That begins with what it had seen, and goes on with entries of neither this caller nor one
    /// whose turn was joined to this one. After 2^62 turns at one lock nobody gets another.
    pub fn take<R: Wait>(&self, rt: &R, turn: &mut Turn<T>) -> T
        requires lock { turn.old.lock ≡ self.now }
        requires free { turn.old.holds ≡ false }
        ensures settings { T.settings result ≡ self.now.settings }
        ensures stands { T.stands result turn.new.seen }
        ensures turn { turn.new ≡ record turn.old { seen = turn.new.seen; holds = true } }
        ensures seen { GoesOn (turn.old.caller ∷ turn.old.joined) turn.old.seen turn.new.seen }
        ensures known { KnowsCallers turn.new }
    {
        let words = &self.board.shared;
        let ticket = draw(rt, words, &mut turn.place);
        wait(rt, words, &mut turn.place, ticket);
        words.exchange(&mut turn.place, SLOT, None).unwrap()
    }

    /// Puts a value back, and ends the turn with the entry of its call, for which the value stands
    /// too. Answers the entry's place in the history, from 0 on. The entry is told by its parts and
    /// made by nobody, so an answer stays where it lies, however large it is.
    // Where this was inlined, a caller that returns the answer moved it twice and not once, by its
    // disassembly.
    #[inline(never)]
    pub fn give<A: AsAnswer>(
        &self,
        turn: &mut Turn<T>,
        value: T,
        minute: Minute,
        call: &Call,
        answer: &A,
    ) -> u64
        requires lock { turn.old.lock ≡ self.now }
        requires holds { turn.old.holds ≡ true }
        requires settings { T.settings value ≡ self.now.settings }
        requires stands { T.stands value (turn.old.seen
            ++ entry_of turn.old.caller minute call.now (A.answer answer.now) ∷ []) }
        ensures place { result ≡ length turn.old.seen }
        ensures turn { turn.new ≡ record turn.old {
          seen = turn.old.seen
              ++ entry_of turn.old.caller minute call.now (A.answer answer.now) ∷ [];
          holds = false;
        } }
        ensures known { KnowsCallers turn.new }
    {
        let words = &self.board.shared;
        let emptied = words.exchange(&mut turn.place, SLOT, Some(value));
        let None = emptied else { unreachable!() };
        advance::<T, A, Brand>(words, &mut turn.place, minute, call, answer)
    }

    /// A new turn, of a number that the turn has free. It has seen what the turn has seen, in which
    /// its number has no entry. The turn keeps the free numbers above it.
    pub fn split(&self, turn: &mut Turn<T>, number: u32) -> Turn<T>
        requires lock { turn.old.lock ≡ self.now }
        requires free { turn.old.holds ≡ false }
        requires number { IsSpare turn.old number }
        ensures turn { turn.new ≡
            record turn.old { free = number + 1; out = turn.old.out + 1 } }
        ensures new { result ≡ new_turn turn.old.lock number turn.old.seen }
        ensures no_entry_yet { OthersBetween number turn.old.seen }
        ensures known { KnowsCallers turn.new }
        ensures new_known { KnowsCallers result }
    {
        let place = cut::<T, Brand>(&self.board.shared, &mut turn.place, number);
        Turn { place }
    }

    /// Ends a turn that was split from caller 0's. That one has then seen the longer of the two
    /// histories, in which both go on without an entry of their own number. From now on nobody adds
    /// an entry of the number that ended: it is one of those joined, which `take` speaks of.
    pub fn join(&self, turn: &mut Turn<T>, other: Turn<T>)
        requires lock { turn.old.lock ≡ self.now }
        requires free { turn.old.holds ≡ false }
        requires first { turn.old.caller ≡ 0 }
        requires other_lock { other.lock ≡ self.now }
        requires other_free { other.holds ≡ false }
        requires other_split { other.caller ≢ 0 }
        ensures turn { turn.new ≡ record turn.old {
          seen = turn.new.seen;
          joined = other.caller ∷ turn.old.joined;
          out = turn.new.out;
        } }
        ensures out { turn.old.out ≡ turn.new.out + 1 }
        ensures longer { (turn.new.seen ≡ turn.old.seen) ⊎ (turn.new.seen ≡ other.seen) }
        ensures seen { GoesOn (turn.old.caller ∷ turn.old.joined) turn.old.seen turn.new.seen }
        ensures other_seen { GoesOn (other.caller ∷ []) other.seen turn.new.seen }
        ensures known { KnowsCallers turn.new }
    {
        let Turn { place } = other;
        merge(&self.board.shared, &mut turn.place, place);
    }

    /// The value, and the number of entries of the history, when no turn but caller 0's is left. It
    /// has then seen the whole history, so `rt` is there for a body that waits, which this one
    /// doesn't.
    pub fn close<R: Wait>(self, _rt: &R, turn: Turn<T>) -> (T, u64)
        requires lock { turn.lock ≡ self }
        requires free { turn.holds ≡ false }
        requires first { turn.caller ≡ 0 }
        requires alone { turn.out ≡ 0 }
        ensures settings { T.settings result.0 ≡ self.settings }
        ensures stands { T.stands result.0 turn.seen }
        ensures count { result.1 ≡ length turn.seen }
        ensures known { KnowsCallers turn }
    {
        let Turn { place } = turn;
        let TurnLock { board } = self;
        finish(board, place)
    }
}
