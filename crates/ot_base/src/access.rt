//! Access lists: what one does with the torrents that it names, and what can be wrong with a line.

ghost use Rattle.std.specs.Prelude.{◌≡◌, ◌≤◌, length};
ghost use Rattle.ot_base.specs.Fault.{access_fault_word};

/// What an access list does with the torrents that it names.
#[derive(Clone, Copy, Debug, PartialEq, Eq, PartialOrd, Ord, Hash)]
pub enum Mode {
    /// The tracker refuses them, and admits all others.
    Deny,
    /// The tracker admits them, and refuses all others.
    Allow,
}

/// Why a line of an access list isn't read.
#[derive(Clone, Copy, Debug, PartialEq, Eq, PartialOrd, Ord, Hash)]
pub enum AccessFault {
    /// It is neither 40 hex digits nor empty, and doesn't begin with `#`. Where the input ends
    /// before the list does, it is the line after the last.
    Line,
    /// It is a hash, and the lines before it have as many as a list may have.
    Many,
    /// There was no memory for its hash. That says nothing of the line, so a run that wants memory
    /// ends with that, and names no line.
    NoMemory,
}

impl AccessFault {
    /// The word that tells it, in ASCII, of at most 9 bytes.
    pub fn word(self) -> &'static str
        ensures word { result.now ≡ access_fault_word self }
        ensures short { length result.now ≤ 9 }
    {
        match self {
            AccessFault::Line => "list",
            AccessFault::Many => "many",
            AccessFault::NoMemory => "no memory",
        }
    }
}
