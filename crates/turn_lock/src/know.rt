//! What a turn knows. No value of these types is ever made: they exist in proofs alone, where a
//! list is written as an array, which clauses read as a list of any length.

use tracker_model::Entry;

/// What a turn is at.
pub enum Stage {
    /// It has no ticket.
    Free,
    /// It waits with this ticket.
    Waits(u64),
    /// It is served, and holds the slot.
    Serves,
    /// It has taken in the turn of this number, which had seen this history, and hasn't yet
    /// compared that history with its own.
    Joins(u32, [Entry; 0]),
    /// It was taken in by another turn, and nobody has it any more.
    Spent,
}

/// What a turn knows of its lock, and of the history.
pub struct Know {
    /// The settings that the lock's value has.
    pub settings: [u64; 0],
    /// How many callers the lock has.
    pub callers: u32,
    /// The turn's own number.
    pub caller: u32,
    /// The history as far as the turn has seen it, with the oldest entry first.
    pub seen: [Entry; 0],
    /// The numbers from this one on, below the number of callers, are free.
    pub free: u32,
    /// The numbers of the turns that were joined to it.
    pub joined: [u32; 0],
    /// How many turns that were split from it aren't joined yet.
    pub out: u32,
    pub stage: Stage,
}
