//! When a caller that gets the bytes of a head in small pieces asks for it again.

ghost use Rattle.std.specs.Prelude.{◌≡◌, ◌++◌, [], List, ℕ, IsTrue};
ghost use Rattle.std.specs.Bool.{OnFalse, OnTrue};
ghost use Rattle.http_wire.specs.Head.{IsAnswer, has_line_end};
ghost use Rattle.http_wire.specs.Watch.{watch_after, watch_of, ends_line};
ghost use Rattle.http_wire.specs.declared.head.Head.TheVariants.{More};
ghost use Rattle.http_wire.specs.declared.watch.Watch.TheVariants.{Begun};

/// What has come of a head, as far as it says when `find_head` may answer otherwise than `More`.
///
/// A head ends with a line, the first line is whole only at its end, and the others are counted by
/// their ends; so only a line end that follows the first line's begin can change the answer. There
/// are at most 67 of these, since the answer is `Many` then. So a caller that asks `find_head` only
/// where `take` says so looks at each byte at most 68 times, in pieces of any length.
#[derive(Clone, Copy, Debug, PartialEq, Eq)]
pub enum Watch {
    /// Nothing but empty lines has come.
    Empty,
    /// Nothing but empty lines and then a byte 0x0D.
    Return,
    /// A line that isn't empty has begun.
    Begun,
}

impl Watch {
    /// Before the first byte.
    pub fn new() -> Self
        ensures { result ≡ watch_of [] }
    {
        Watch::Empty
    }

    /// Takes the bytes that have come, each once, and tells whether they may have changed the
    /// answer from `More`: where a line has ended in them, and one that isn't empty has begun.
    pub fn take(&mut self, piece: &[u8]) -> bool
        ensures after { (before : List ℕ) → self.old ≡ watch_of before
            → self.new ≡ watch_of (before ++ piece.now) }
        ensures otherwise { OnFalse result ((before : List ℕ) → self.old ≡ watch_of before
            → IsAnswer before More → IsAnswer (before ++ piece.now) More) }
        ensures told { OnTrue result
            ((self.new ≡ Begun) × IsTrue (has_line_end piece.now)) }
    {
        let mut watch = *self;
        let mut may_change = false;
        for byte in piece {
            watch = watch.after(*byte);
            may_change |= watch.ends_line(*byte);
        }
        *self = watch;
        may_change
    }

    /// After one more byte.
    fn after(self, byte: u8) -> Watch
        ensures { result ≡ watch_after self byte }
    {
        match self {
            Watch::Empty => {
                if byte == b'\n' {
                    Watch::Empty
                } else if byte == b'\r' {
                    Watch::Return
                } else {
                    Watch::Begun
                }
            }
            Watch::Return => {
                if byte == b'\n' {
                    Watch::Empty
                } else {
                    Watch::Begun
                }
            }
            Watch::Begun => Watch::Begun,
        }
    }

    /// Whether a byte ended a line that isn't empty or stands after one, where this is so after it.
    fn ends_line(self, byte: u8) -> bool
        ensures { result ≡ ends_line self byte }
    {
        match self {
            Watch::Empty | Watch::Return => false,
            Watch::Begun => byte == b'\n',
        }
    }
}
