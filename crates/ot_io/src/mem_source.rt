//! A source in memory.

ghost use Rattle.std.specs.Prelude.{◌≡◌, length};
ghost use Rattle.ot_io.specs.Lengths.{next_length};

use crate::faults::Faults;
use crate::source::{Piece, Source};

/// A source in memory, for tests: the bytes, how they are cut into pieces, and which reads fail.
#[derive(Debug, Drop)]
pub struct MemSource<'a> {
    left: &'a [u8],
    lengths: &'a [usize],
    failing: &'a [u64],
    faults: Faults,
    ends: u64,
    pub ghost blameless: { length failing.now ≡ 0 → faults.count ≡ 0 },
}

impl<'a> MemSource<'a> {
    ghost use Rattle.std.specs.Prelude.{◌≡◌, drop};
    ghost use Rattle.ot_io.specs.Memory.{bytes_left, lengths_left, failing_reads, reads_made};
    ghost use Rattle.ot_io.specs.Memory.{source_faults, source_ends};
    ghost use Rattle.ot_io.specs.Lengths.{next_length};

    /// A source of these bytes.
    ///
    /// `lengths` are the lengths of its pieces, each at least 1 (0 counts as 1): a read gives at
    /// most the next of them, and after the last of them as much as the buffer holds. `failing` are
    /// the numbers, from 0, of the reads that fail. Such a read takes no byte and no length.
    pub fn new(bytes: &'a [u8], lengths: &'a [usize], failing: &'a [u64]) -> Self
        ensures left { bytes_left result ≡ bytes.now }
        ensures lengths { lengths_left result ≡ lengths.now }
        ensures failing { failing_reads result ≡ failing.now }
        ensures number { reads_made result ≡ 0 }
        ensures faults { source_faults result ≡ 0 }
        ensures ends { source_ends result ≡ 0 }
    {
        MemSource {
            left: bytes,
            lengths,
            failing,
            faults: Faults::new(),
            ends: 0,
        }
    }

    /// The bytes that weren't read yet.
    pub fn left(&self) -> &'a [u8]
        ensures { result.now ≡ bytes_left self.now }
    {
        self.left
    }

    /// How many reads have failed. From 2^64 - 1 on the count stands still.
    pub fn faults(&self) -> u64
        ensures { result ≡ source_faults self.now }
    {
        self.faults.count
    }

    /// How many reads have answered that there are no more bytes. From 2^64 - 1 on the count stands
    /// still.
    pub fn ends(&self) -> u64
        ensures { result ≡ source_ends self.now }
    {
        self.ends
    }

    /// Takes the length of the next piece into so much room.
    fn take_length(&mut self, room: usize) -> usize
        ensures length { result ≡ next_length (lengths_left self.old) room }
        ensures lengths { lengths_left self.new ≡ drop 1 (lengths_left self.old) }
        ensures left { self.new.left ≡ self.old.left }
        ensures failing { self.new.failing ≡ self.old.failing }
        ensures faults { self.new.faults ≡ self.old.faults }
        ensures ends { self.new.ends ≡ self.old.ends }
    {
        let length = length_of_next(self.lengths, room);
        if let Some((_, others)) = self.lengths.split_first() {
            self.lengths = others;
        }
        length
    }
}

impl Source for MemSource<'_> {
    ghost use Rattle.std.specs.Prelude.{◌≡◌, ◌<◌, ◌↔◌, ◌⊎◌, ◌+◌, IsTrue, Some, length, min};
    ghost use Rattle.ot_io.specs.Counts.{last_count};
    ghost use Rattle.ot_io.specs.Pieces.{GivesPiece, EndsOnlyCounted, FailsOnlyCounted};
    ghost use Rattle.ot_io.specs.Memory.{bytes_left, lengths_left, failing_reads, is_read_failing};
    ghost use Rattle.ot_io.specs.Memory.{reads_made, source_faults, source_ends};
    ghost use Rattle.ot_io.specs.Lengths.{TakesLength};

    ghost left = { λ source. Some (bytes_left source) };

    ghost faults = { source_faults };

    ghost ends = { source_ends };

    fn read(&mut self, buf: &mut [u8]) -> Piece
        requires { 0 < length buf.old }
        ensures piece { GivesPiece (Some (bytes_left self.old)) (Some (bytes_left self.new))
            result buf.new }
        ensures end { EndsOnlyCounted (source_ends self.old) (source_ends self.new) result }
        ensures failed { FailsOnlyCounted (source_faults self.old) (source_faults self.new) result }
        ensures length { TakesLength (lengths_left self.old) (lengths_left self.new)
            (length buf.old) (length (bytes_left self.old)) result }

        // It fails exactly where it is told to, so with no such read it never does.
        ensures demanded { (result ≡ Piece.Failed) ↔ IsTrue (is_read_failing self.old) }
        ensures number { reads_made self.new ≡ min (reads_made self.old + 1) last_count }
        ensures failing { failing_reads self.new ≡ failing_reads self.old }
        ensures blameless { (result ≡ Piece.Failed)
            ⊎ (source_faults self.new ≡ source_faults self.old) }
    {
        if self.faults.is_next_among(self.failing) {
            self.faults.raise();
            return Piece::Failed;
        }
        if self.left.is_empty() {
            self.ends = self.ends.saturating_add(1);
            return Piece::End;
        }
        let count = self.take_length(buf.len()).min(self.left.len());
        buf[..count].copy_from_slice(&self.left[..count]);
        self.left = &self.left[count..];
        Piece::Got(count)
    }
}

/// The length of the next piece into so much room.
pub(crate) fn length_of_next(lengths: &[usize], room: usize) -> usize
    ensures { result ≡ next_length lengths.now room }
{
    match lengths.first() {
        Some(length) => (*length).max(1).min(room),
        None => room,
    }
}
