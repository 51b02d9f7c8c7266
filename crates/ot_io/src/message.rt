//! The line that a user is told of how a run ended.

ghost use Rattle.std.specs.Prelude.{◌≡◌, ◌≤◌, ◌++◌, length, codes, decimal};
ghost use Rattle.ot_io.specs.Message.{TellsLine, line_message, message, status_text};

use crate::sink::{Sink, send_all};
use crate::status::Status;
use arrayvec::ArrayString;
use itoa::Buffer;

/// Tells how a run ended, in one line of ASCII; of a run that is done, nothing. It takes no memory,
/// and a failure of `err` changes nothing but that the rest of the line is lost.
pub fn report<E: Sink>(status: Status, err: &mut E)
    ensures told { TellsLine (E.written err.old) (E.written err.new)
        (E.faults err.old) (E.faults err.new) (status_text status) }
    ensures counted { E.faults err.old ≤ E.faults err.new }
    ensures aside { E.aside err.new ≡ E.aside err.old }
{
    send_all(err, line_of(status).as_str().as_bytes());
}

/// Room for the longest line, of 50 bytes: 18 up to a line's number, 20 digits, and 12 of
/// `: no memory` with the line's end. No run tells that of a line, so the longest that is told has
/// 49 bytes, of `: too long`.
const LINE_LEN: usize = 64;

fn line_of(status: Status) -> ArrayString<LINE_LEN>
    ensures { result.bytes ≡ status_text status }
{
    match status {
        Status::Done => ArrayString::new(),
        Status::Words { at } => word_refused(at),
        Status::NoMemory => plain("no memory"),
        Status::ReadFault => plain("read fault"),
        Status::WriteFault => plain("write fault"),
        Status::Line { line, fault } => line_refused(line, fault.word()),
        Status::TooLong { line } => line_refused(line, "too long"),
        Status::TooMuch => plain("too much input"),
        Status::List { line, fault } => line_refused(line, fault.word()),
        Status::Device => plain("device fault"),
    }
}

/// A line of a text.
fn plain(what: &str) -> ArrayString<LINE_LEN>
    requires { length what.now ≤ 14 }
    ensures { result.bytes ≡ message what.now }
{
    let mut line = ArrayString::new();
    line.push_str("opentracker: ");
    line.push_str(what);
    line.push_str("\n");
    line
}

/// A line of a word's place.
fn word_refused(at: u32) -> ArrayString<LINE_LEN>
    ensures { result.bytes ≡ status_text (Status.Words at) }
{
    let mut digits = Buffer::new();
    let mut line = ArrayString::new();
    line.push_str("opentracker: word ");
    line.push_str(digits.format(at));
    line.push_str(" refused\n");
    line
}

/// A line of a line's number and what is wrong with it.
fn line_refused(number: u64, what: &str) -> ArrayString<LINE_LEN>
    requires { length what.now ≤ 9 }
    ensures { result.bytes ≡ line_message number what.now }
{
    let mut digits = Buffer::new();
    let mut line = ArrayString::new();
    line.push_str("opentracker: line ");
    line.push_str(digits.format(number));
    line.push_str(": ");
    line.push_str(what);
    line.push_str("\n");
    line
}
