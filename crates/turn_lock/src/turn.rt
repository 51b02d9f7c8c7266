//! A turn.

use crate::board::Place;
use std::marker::Model;

/// A caller's seat at one lock, which takes no bytes. To a contract it is the lock that it belongs
/// to, its caller number, the history that it has seen, the numbers that it has free, those of the
/// turns that were joined to it, how many turns split from it are out, and whether it has the
/// value. A turn that is dropped stays out, and so the lock can't be closed. Where it had the
/// value, the lock's other callers wait for ever.
#[derive(Drop)]
pub struct Turn<T> {
    pub(crate) place: Place<T>,
}

impl<T> Model for Turn<T> {
    ghost use Rattle.turn_lock.specs.Seats.{IsTurn, turn_of};
    ghost use Rattle.turn_lock.specs.Shape.{TurnShape};

    ghost Value = { TurnShape };

    ghost view = { λ t. turn_of t.place };

    ghost invariant = { λ t. IsTurn t.place.me };
}
