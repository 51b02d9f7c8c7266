//! How a run ends.

ghost use Rattle.std.specs.Prelude.{◌≡◌, ◌≤◌, length};
ghost use Rattle.ot_io.specs.Message.{fault_word};
ghost use Rattle.ot_io.specs.Status.{code_of};

use ot_base::{AccessFault, TraceFault};

/// What is wrong with a line of the input.
#[derive(Clone, Copy, Debug, PartialEq, Eq)]
pub enum LineFault {
    /// It is no record of a trace, or there was no memory to read it.
    Trace(TraceFault),
}

impl LineFault {
    /// The word that tells it, in ASCII, of at most 9 bytes.
    pub fn word(self) -> &'static str
        ensures word { result.now ≡ fault_word self }
        ensures short { length result.now ≤ 9 }
    {
        match self {
            LineFault::Trace(fault) => fault.word(),
        }
    }
}

/// How a run ended.
#[derive(Clone, Copy, Debug, PartialEq, Eq)]
pub enum Status {
    /// The input was read to its end, and every line was answered.
    Done,
    /// The word at this place, from 0, can't stand there, or is missing.
    Words { at: u32 },
    /// There was no memory.
    NoMemory,
    /// A read of the input failed.
    ReadFault,
    /// A write to the output failed.
    WriteFault,
    /// This line, from 1, is the first that is refused.
    Line { line: u64, fault: LineFault },
    /// This line, from 1, is longer than a line may be.
    TooLong { line: u64 },
    /// 2^40 bytes were read, and more came.
    TooMuch,
    /// This line, from 1, is the first of the access list that is refused. Where the input ended
    /// before the list did, it is the line after the last.
    List { line: u64, fault: AccessFault },
    /// A socket couldn't be opened, or a clock couldn't be made.
    Device,
}

impl Status {
    /// The number that the process ends with.
    pub fn code(&self) -> u8
        ensures { result ≡ code_of self.now }
    {
        match self {
            Status::Done => 0,
            Status::Words { .. } => 2,
            Status::NoMemory => 3,
            Status::ReadFault => 4,
            Status::WriteFault => 5,
            Status::Line { .. } => 6,
            Status::TooLong { .. } => 7,
            Status::TooMuch => 8,
            Status::List { .. } => 9,
            Status::Device => 10,
        }
    }
}
