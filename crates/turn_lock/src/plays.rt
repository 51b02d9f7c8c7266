//! What each step on the table tells. These types are for the proofs alone.

ghost use Rattle.turn_lock.specs.Plays.{drawn, watched, advanced, settled, kept_part, new_part, merged, nobody};

use crate::know::Know;
use atomic_table::{Join, Play, Split};
use std::marker::{Brand, PhantomData};
use tracker_model::Stands;

/// The entry that ends a turn, which the step's caller picks.
pub trait Told {
    ghost use Rattle.tracker_model.specs.declared.entry.Entry.{Entry};

    ghost entry: { Entry };
}

impl Told for Brand {
    ghost use Rattle.turn_lock.specs.Plays.{no_entry};

    ghost entry = { no_entry };
}

/// The number of a new turn, which the step's caller picks.
pub trait Numbered {
    ghost use Rattle.std.specs.Prelude.{ℕ};

    ghost number: { ℕ };
}

impl Numbered for Brand {
    ghost number = { 0 };
}

pub struct Draw;

impl<S> Play<S, Know> for Draw {
    ghost then = { drawn };
}

pub struct Watch;

impl<T: Stands> Play<Option<T>, Know> for Watch {
    ghost then = { watched T.settings T.stands };
}

pub struct Advance<J> {
    told: PhantomData<J>,
}

impl<S, J: Told> Play<S, Know> for Advance<J> {
    ghost then = { advanced J.entry };
}

pub struct Settle;

impl<S> Play<S, Know> for Settle {
    ghost then = { settled };
}

pub struct Cut<J> {
    numbered: PhantomData<J>,
}

impl<J: Numbered> Split<Know> for Cut<J> {
    ghost left = { kept_part J.number };

    ghost right = { new_part J.number };
}

pub struct Merge;

impl Join<Know> for Merge {
    ghost both = { merged };

    ghost spent = { nobody };
}
