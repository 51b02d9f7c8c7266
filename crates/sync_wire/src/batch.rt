//! Batches of notes: as many as one datagram holds.

ghost use Rattle.std.specs.Prelude.{◌≡◌, ◌<◌, ◌≤◌, ℕ, [], ◌∷◌, ◌++◌, length, take, slice_get, Some};
ghost use Rattle.sync_wire.specs.Batches.{AreOfOneFamily, is_of_family, front_len, batch_len_of};

use ot_base::{Family, InPlace, Note};
use std::marker::Model;

/// How many notes a datagram holds at most.
pub const NOTES: usize = 50;

/// What one node tells the others in one datagram: 1 to 50 notes in order, kept in place, with the
/// sender's number.
#[derive(Debug, Drop)]
pub struct NoteBatch {
    node: u32,
    notes: InPlace<Note, NOTES>,
}

impl Model for NoteBatch {
    ghost use Rattle.std.specs.Prelude.{◌≤◌, length};
    ghost use Rattle.sync_wire.specs.Batches.{Batch};

    ghost Value = { Batch };

    ghost view = { λ batch. record { node = batch.node; notes = batch.notes } };

    ghost invariant = { λ batch. 1 ≤ length batch.notes };
}

impl NoteBatch {
    /// The batch of a sender's notes, of which there is one at least.
    pub(crate) fn of(node: u32, notes: InPlace<Note, NOTES>) -> Self
        requires { 1 ≤ length notes }
        ensures { result ≡ record { node = node; notes = notes } }
    {
        NoteBatch { node, notes }
    }

    /// The sender's number.
    pub fn node(&self) -> u32
        ensures { result ≡ self.now.node }
    {
        self.node
    }

    pub fn len(&self) -> usize
        ensures value { result ≡ length self.now.notes }
        ensures some { 1 ≤ result }
        ensures fits { result ≤ NOTES }
    {
        self.notes.len()
    }

    /// All notes as a slice.
    pub fn as_slice(&self) -> &[Note]
        ensures value { result.now ≡ self.now.notes }
        ensures some { 1 ≤ length result.now }
        ensures fits { length result.now ≤ NOTES }
    {
        self.notes.as_slice()
    }

    /// The note at a place, from 0.
    pub fn get(&self, i: usize) -> Note
        requires { i < length self.now.notes }
        ensures { slice_get self.now.notes i ≡ Some result }
    {
        self.notes.get(i)
    }

    /// Adds a note at the end, where there is room.
    pub fn push(&mut self, note: Note)
        requires { length self.old.notes < NOTES }
        ensures { self.new ≡ record self.old { notes = self.old.notes ++ note ∷ [] } }
    {
        self.notes.push(note);
    }
}

/// How many of the notes the next batch has: the length of the longest part from the front on that
/// has notes of one family and at most 50. So it is 0 exactly for an empty list.
pub fn batch_len(notes: &[Note]) -> usize
    ensures value { result ≡ batch_len_of notes.now }
    ensures fits { result ≤ NOTES }
    ensures within { result ≤ length notes.now }
    ensures some { 1 ≤ length notes.now → 1 ≤ result }
    ensures family { AreOfOneFamily (take result notes.now) }
    ensures longest { (n : ℕ) → n ≤ NOTES → n ≤ length notes.now →
        AreOfOneFamily (take n notes.now) → n ≤ result }
{
    match notes {
        [] => 0,
        [first, ..] => front_of(notes, first.who.addr.family()),
    }
}

/// How many of the first 50 notes, from the front on, are of a family.
fn front_of(notes: &[Note], family: Family) -> usize
    ensures { result ≡ front_len family notes.now }
{
    for (i, note) in notes.iter().enumerate() {
        if i == NOTES || !is_of(*note, family) {
            return i;
        }
    }
    notes.len()
}

/// Whether a note tells of an endpoint of a family.
fn is_of(note: Note, family: Family) -> bool
    ensures { result ≡ is_of_family family note }
{
    note.who.addr.family() == family
}
