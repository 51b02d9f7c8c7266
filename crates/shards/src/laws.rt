//! Laws of a pass: each function's contract is the law, and its body is empty.

ghost use Rattle.std.specs.Prelude.{◌≡◌, List, ℕ};
ghost use Rattle.ot_base.specs.declared.minute.Minute.{Minute};
ghost use Rattle.shards.specs.Passing.{MadeByPass, PassFollows};
ghost use Rattle.shards.specs.Shape.{PassShape};
ghost use Rattle.shards.specs.declared.seat.Seat.{Seat};
ghost use Rattle.tracker_model.specs.Making.{Makes};
ghost use Rattle.tracker_model.specs.declared.answer.Answer.{Answer};
ghost use Rattle.tracker_model.specs.declared.call.Call.{Call};

use crate::seat::Seat;
use std::sync::Wait;
use tracker_model::Tracker;

/// Where calls were made through a pass, the histories that it has seen grew by them, as one
/// caller's calls among those of several, and each answer is right just there.
pub fn pass_follows()
    ensures { (minute : Minute) (old new : PassShape) (placed : List (ℕ × Call))
        (answers : List Answer) → Makes MadeByPass minute old placed answers new →
        PassFollows minute old placed answers new }
{}

/// The same of a seat's pass, which stays the one that it was lent.
pub fn seat_follows<R: Wait>()
    ensures { (minute : Minute) (old new : Seat R) (placed : List (ℕ × Call))
        (answers : List Answer) →
        Makes ⟦<Seat<'static, R> as Tracker>⟧.made minute old placed answers new →
        (new.pass.ghost_name ≡ old.pass.ghost_name)
        × PassFollows minute old.pass.now placed answers new.pass.now }
{}
