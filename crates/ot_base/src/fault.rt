//! What can be wrong with a line of a trace.

ghost use Rattle.std.specs.Prelude.{◌≡◌, ◌≤◌, length};
ghost use Rattle.ot_base.specs.Fault.{trace_fault_word};

/// Why a line isn't a record.
#[derive(Clone, Copy, Debug, PartialEq, Eq, PartialOrd, Ord, Hash)]
pub enum TraceFault {
    /// The line isn't of the form of a record: a word is missing, unknown or too many.
    Form,
    /// A number has no digit, too many, another character, or too great a value.
    Number,
    /// The bytes aren't an even number of hex digits.
    Hex,
    /// The address isn't one.
    Address,
    /// It is a record that this program doesn't answer yet.
    Unbuilt,
    /// There was no memory for what the line holds. That says nothing of the line, so a run that
    /// wants memory ends with that, and names no line.
    NoMemory,
}

impl TraceFault {
    /// The word that tells it, in ASCII, of at most 9 bytes.
    pub fn word(self) -> &'static str
        ensures word { result.now ≡ trace_fault_word self }
        ensures short { length result.now ≤ 9 }
    {
        match self {
            TraceFault::Form => "form",
            TraceFault::Number => "number",
            TraceFault::Hex => "hex",
            TraceFault::Address => "address",
            TraceFault::Unbuilt => "unbuilt",
            TraceFault::NoMemory => "no memory",
        }
    }
}
