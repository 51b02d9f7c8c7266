//! The lines that are written.

ghost use Rattle.std.specs.Prelude.{◌≡◌, ◌<◌};
ghost use Rattle.load_model.specs.Text.{calls_line, phase_line};

use crate::totals::Totals;
use arrayvec::ArrayString;
use itoa::Buffer;

/// Room for the longest line, of 52 bytes of words, a phase of 1 digit, four numbers of at most 39
/// digits, and the line's end.
const LINE_LEN: usize = 256;

/// The line of a phase.
pub fn line_of_phase(phase: u32, totals: &Totals) -> ArrayString<LINE_LEN>
    ensures { result.bytes ≡ phase_line phase totals.now }
{
    let mut digits = Buffer::new();
    let mut line = ArrayString::new();
    line.push_str("phase ");
    line.push_str(digits.format(phase));
    line.push_str(" torrents ");
    line.push_str(digits.format(totals.torrents));
    line.push_str(" complete ");
    line.push_str(digits.format(totals.complete));
    line.push_str(" downloaded ");
    line.push_str(digits.format(totals.downloaded));
    line.push_str(" incomplete ");
    line.push_str(digits.format(totals.incomplete));
    line.push_str("\n");
    line
}

/// The line of all calls.
pub fn line_of_calls(calls: u128) -> ArrayString<LINE_LEN>
    ensures { result.bytes ≡ calls_line calls }
{
    let mut digits = Buffer::new();
    let mut line = ArrayString::new();
    line.push_str("calls ");
    line.push_str(digits.format(calls));
    line.push_str("\n");
    line
}
