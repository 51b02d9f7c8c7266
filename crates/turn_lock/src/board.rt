//! The table that turns share. Word 0 is the ticket word, which is the next ticket, and word 1 the
//! serving word, which is the ticket that is served. Slot 0 holds the value, but while a turn that
//! is served has it.

use crate::know::Know;
use atomic_table::{Seat, Shared, Table, TableRule};
use std::alloc::Global;
use std::snapshot::Snapshot;
use tracker_model::Stands;

pub const TICKET: usize = 0;

pub const SERVING: usize = 1;

pub const SLOT: usize = 0;

/// No ticket is drawn from this one on.
pub const MOST_TICKETS: u64 = 1 << 62;

/// What a lock is made with.
#[derive(Drop)]
pub struct Key<T> {
    pub first: Snapshot<T>,
    pub callers: u32,
}

/// The rule of a lock's table.
pub struct OneHistory;

impl<T: Stands> TableRule<Option<T>, Know, Key<T>> for OneHistory {
    ghost use Rattle.turn_lock.specs.Rule.{IsKept, first_know};

    ghost holds = { λ key. IsKept T.settings T.stands (T.settings key.first.value) key.callers };

    ghost first = { λ key. first_know (T.settings key.first.value) key.callers };
}

pub type Board<T> = Table<Option<T>, Know, Key<T>, OneHistory, Global>;

pub type Words<T> = Shared<Option<T>, Know, Key<T>, OneHistory>;

/// A turn's place at the table. It has no bytes.
pub type Place<T> = Seat<Option<T>, Know>;
