//! Laws of the lines: each function's contract is the law, and its body is empty.

ghost use Rattle.std.specs.Prelude.{◌≡◌, Ok};
ghost use Rattle.trace_text.specs.Trace.{line_of};
ghost use Rattle.trace_text.specs.Written.{text_of, AllCount, IsOfFour};
ghost use Rattle.trace_text.specs.declared.line.TraceLine.{TraceLine};

/// A line that was written is read again as the same record: a datagram of IPv4 of at most 2,048
/// bytes, what came on a connection of IPv4, of at most 8,192, or a round of the cleaner.
pub fn written_is_read_again()
    ensures { (line : TraceLine) → IsOfFour line → AllCount line
        → line_of (text_of line) ≡ Ok line }
{}
