//! The steps of a turn on its lock's table.

ghost use Rattle.std.specs.Prelude.{◌≡◌, ◌≢◌, ◌<◌, ◌≤◌, [], ◌++◌, ◌∷◌, length, MatchBool};
ghost use Rattle.turn_lock.specs.declared.know.Stage.TheVariants.{Free, Waits, Serves, Joins};
ghost use Rattle.turn_lock.specs.Plays.{HasKnown, IsServed, IsSettled, kept_part, new_part};
ghost use Rattle.turn_lock.specs.Seats.{IsSized, IsSamePlace, IsFilled};
ghost use Rattle.turn_lock.specs.Shape.{entry_of};

use crate::answers::AsAnswer;
use crate::board::{Board, MOST_TICKETS, Place, SERVING, SLOT, TICKET, Words};
use crate::plays::{Advance, Cut, Draw, Merge, Numbered, Settle, Told, Watch};
use crossbeam_utils::Backoff;
use ot_base::Minute;
use std::sync::Wait;
use tracker_model::{Call, Stands};

/// Draws a ticket, once the words show that all that were drawn before are served to their end.
/// Tickets are served in their order, and a thread that has drawn one may not be running when its
/// turn comes, so all others would wait until the system finds it. One that draws so late is
/// running, and mostly served at once. After 2^62 tickets this waits for ever.
pub fn draw<T: Stands, R: Wait>(rt: &R, words: &Words<T>, place: &mut Place<T>) -> u64
    requires table { (place.old.table_id ≡ words.now.table_id) × IsSized words.now.table_id }
    requires free { place.old.me.0.stage ≡ Free }
    ensures place { IsSamePlace place.old place.new }
    ensures drawn { place.new.me ≡
        (record place.old.me.0 { stage = Waits result }, place.old.me.1) }
{
    let backoff = Backoff::new();
    for _ in rt.forever() {
        let served = words.peek(SERVING);
        let ticket = words.peek(TICKET);
        if ticket < MOST_TICKETS
            && ticket == served
            && words.compare_exchange::<Draw>(place, TICKET, ticket, ticket + 1) == ticket
        {
            return ticket;
        }
        backoff.snooze();
    }
    unreachable!()
}

/// Looks whether the ticket is served, and if it is takes the slot. It only reads the word, whose
/// cache line stays with the turn that is served.
pub fn watch<T: Stands>(words: &Words<T>, place: &mut Place<T>, ticket: u64) -> bool
    requires table { (place.old.table_id ≡ words.now.table_id) × IsSized words.now.table_id }
    requires waits { place.old.me.0.stage ≡ Waits ticket }
    ensures place { IsSamePlace place.old place.new }
    ensures served { MatchBool result (IsServed T.settings T.stands place.old.me place.new.me)
        (place.new.me ≡ place.old.me) }
{
    words.load::<Watch>(place, SERVING) == ticket
}

/// Waits until the ticket is served, and takes the slot at that step.
pub fn wait<T: Stands, R: Wait>(rt: &R, words: &Words<T>, place: &mut Place<T>, ticket: u64)
    requires table { (place.old.table_id ≡ words.now.table_id) × IsSized words.now.table_id }
    requires waits { place.old.me.0.stage ≡ Waits ticket }
    ensures place { IsSamePlace place.old place.new }
    ensures served { IsServed T.settings T.stands place.old.me place.new.me }
{
    let backoff = Backoff::new();
    for _ in rt.forever() {
        if watch(words, place, ticket) {
            return;
        }
        backoff.snooze();
    }
    unreachable!()
}

/// Ends the turn: the entry of its call is added, and the slot given back. Answers the entry's
/// place. The entry's parts tell it, and nothing reads them.
pub fn advance<T: Stands, A: AsAnswer, J: Told>(
    words: &Words<T>,
    place: &mut Place<T>,
    minute: Minute,
    call: &Call,
    answer: &A,
) -> u64
    requires table { (place.old.table_id ≡ words.now.table_id) × IsSized words.now.table_id }
    requires told { entry_of place.old.me.0.caller minute call.now (A.answer answer.now) ≡ J.entry }
    requires serves { place.old.me.0.stage ≡ Serves }
    requires filled { IsFilled T.settings T.stands J.entry place.old.me }
    ensures place { IsSamePlace place.old place.new }
    ensures number { result ≡ length place.old.me.0.seen }
    ensures over { place.new.me ≡ (
      record place.old.me.0 {
        seen = place.old.me.0.seen
            ++ entry_of place.old.me.0.caller minute call.now (A.answer answer.now) ∷ [];
        stage = Free;
      },
      [],
    ) }
{
    words.fetch_add::<Advance<J>>(place, SERVING, 1)
}

/// Makes a turn of a number that the turn has free.
pub fn cut<T: Stands, J: Numbered>(words: &Words<T>, place: &mut Place<T>, number: u32) -> Place<T>
    requires table { (place.old.table_id ≡ words.now.table_id) × IsSized words.now.table_id }
    requires told { number ≡ J.number }
    requires free { place.old.me.0.stage ≡ Free }
    requires first { place.old.me.0.caller ≡ 0 }
    requires from { place.old.me.0.free ≤ number }
    requires below { number < place.old.me.0.callers }
    ensures place { IsSamePlace place.old place.new }
    ensures kept { place.new.me ≡ (kept_part number place.old.me.0, place.old.me.1) }
    ensures table { result.table_id ≡ place.old.table_id }
    ensures new { result.me ≡ (new_part number place.old.me.0, []) }
{
    let _number = number;
    words.split_seat::<Cut<J>>(place)
}

/// Takes in a turn that was split from caller 0's. The first step only merges what the two know,
/// and tells nothing of the history. So a second one tells which of the two saw more of it.
pub fn merge<T: Stands>(words: &Words<T>, place: &mut Place<T>, other: Place<T>)
    requires table { (place.old.table_id ≡ words.now.table_id) × IsSized words.now.table_id }
    requires others { other.table_id ≡ words.now.table_id }
    requires free { place.old.me.0.stage ≡ Free }
    requires other_free { (other.me.0.stage ≡ Free) × (other.me.1 ≡ []) }
    requires first { place.old.me.0.caller ≡ 0 }
    requires second { other.me.0.caller ≢ 0 }
    ensures place { IsSamePlace place.old place.new }
    ensures settled { IsSettled other.me.0.caller other.me.0.seen place.old.me place.new.me }
{
    words.join_seat::<Merge>(place, other);
    words.load::<Settle>(place, TICKET);
}

/// Ends the table, when no turn but caller 0's is left: nobody is served then, so the value is at
/// home. Answers the value, and the number of entries of the history.
pub fn finish<T: Stands>(board: Board<T>, place: Place<T>) -> (T, u64)
    requires table { (place.table_id ≡ board.shared.table_id) × IsSized board.shared.table_id }
    requires free { place.me.0.stage ≡ Free }
    requires first { place.me.0.caller ≡ 0 }
    requires alone { place.me.0.out ≡ 0 }
    ensures settings { T.settings result.0 ≡ T.settings board.shared.key.first.value }
    ensures stands { T.stands result.0 place.me.0.seen }
    ensures count { result.1 ≡ length place.me.0.seen }
{
    let mut closed = board.close_with(place);
    let count = closed.word(SERVING);
    let value = closed.take(SLOT);
    closed.free();
    (value.unwrap(), count)
}
