//! Where bytes come from.

ghost use Rattle.std.specs.Prelude.{◌≡◌, ◌<◌, ℕ, List, length, Option};
ghost use Rattle.ot_io.specs.Content.{Aside, nothing_aside};
ghost use Rattle.ot_io.specs.Pieces.{GivesPiece, EndsOnlyCounted, FailsOnlyCounted};

/// What one read gave.
#[derive(Clone, Copy, Debug, PartialEq, Eq)]
pub enum Piece {
    /// So many bytes, at least one, which stand at the front of the buffer.
    Got(usize),
    /// There are no more bytes.
    End,
    /// The outside failed. Nothing was taken.
    Failed,
}

/// A stream of bytes from outside.
pub trait Source {
    /// The bytes that are left, where they are known.
    ghost left: { Self → Option (List ℕ) };

    /// How often it has failed: a number that doesn't fall.
    ghost faults: { Self → ℕ };

    /// How often it has answered that there are no more bytes: a number that doesn't fall.
    ghost ends: { Self → ℕ };

    /// What a read leaves alone, where this object is more than a source.
    ghost aside: { Self → Aside } = { nothing_aside };

    /// Reads at most as many bytes as the buffer has. It may wait for the machine.
    fn read(&mut self, buf: &mut [u8]) -> Piece
        requires { 0 < length buf.old }
        ensures piece { GivesPiece (left self.old) (left self.new) result buf.new }
        ensures end { EndsOnlyCounted (ends self.old) (ends self.new) result }
        ensures failed { FailsOnlyCounted (faults self.old) (faults self.new) result }
        ensures aside { aside self.new ≡ aside self.old };
}
