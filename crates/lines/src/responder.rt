//! What answers lines.

ghost use Rattle.std.specs.Prelude.{◌≡◌, ℕ, List, Err, MatchResult};
ghost use Rattle.ot_io.specs.Counts.{Rose};
ghost use Rattle.lines.specs.Streams.{IsLaterSink};
ghost use Rattle.lines.specs.Responses.{Responds};

use crate::replies::{Replies, WriteFault};
use ot_io::Sink;
use std::alloc::AllocError;

/// Why a line wasn't answered, or not to the end of its answer.
#[derive(Clone, Copy, Debug, PartialEq, Eq)]
pub enum Trouble<F> {
    /// The line is refused, with the responder's own fault. No answer was added.
    Refused(F),
    /// There was no memory for the line or for its answer, of which a front may have been added.
    NoMemory,
    /// The outside failed while answers were written.
    WriteFault,
}

impl<F> From<AllocError> for Trouble<F> {
    ghost use Rattle.lines.specs.declared.responder.Trouble.TheVariants.{NoMemory};

    ghost from_gives = { λ _ trouble. trouble ≡ NoMemory };

    fn from(_error: AllocError) -> Self {
        Trouble::NoMemory
    }
}

impl<F> From<WriteFault> for Trouble<F> {
    ghost use Rattle.lines.specs.declared.responder.Trouble.TheVariants.{WriteFault};

    ghost from_gives = { λ _ trouble. trouble ≡ WriteFault };

    fn from(_fault: WriteFault) -> Self {
        Trouble::WriteFault
    }
}

/// What answers lines, one after another.
pub trait Responder {
    /// Why a line, or the input's end, is refused.
    type Fault: Copy;

    /// In an old state the line may be answered with the text, and a new state follows.
    ghost answers: { Self → List ℕ → List ℕ → Self → Type 0 };

    /// In this state the line is refused with this fault.
    ghost refuses: { Self → List ℕ → Self.Fault → Type 0 };

    /// In this state the input may end.
    ghost may_end: { Self → Type 0 } = { λ _. Unit {0} };

    /// In this state the input's end is refused with this fault.
    ghost refuses_end: { Self → Self.Fault → Type 0 } = { λ _ _. ⊥ };

    /// Adds the answer to a line, which is handed in without its end, to the replies.
    fn respond<O: Sink>(
        &mut self,
        line: &[u8],
        replies: &mut Replies,
        out: &mut O,
    ) -> Result<(), Trouble<Self::Fault>>
        ensures responds { Responds answers refuses self.old self.new line.now
            (O.written out.old) (O.written out.new) replies.old replies.new result }
        ensures fault { result ≡ Err Trouble.WriteFault
            → Rose (O.faults out.old) (O.faults out.new) }
        ensures later { IsLaterSink O.faults O.aside out.old out.new };

    /// Whether the input may end here. A fault belongs to the line after the last.
    fn end(&self) -> Result<(), Self::Fault>
        ensures { MatchResult result (λ _. may_end self.now)
            (λ fault. refuses_end self.now fault) };
}
