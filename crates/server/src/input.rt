//! The job that waits for a server's end.

ghost use Rattle.lines.specs.Streams.{IsLaterSource};
ghost use Rattle.server.specs.Input.{IsInputCaused};

use ot_io::{Piece, Source};
use std::sync::Wait;
use std::sync::atomic::{AtomicBool, Ordering};

/// How many bytes are read at once at most.
const PIECE: usize = 4096;

/// How a server's input ended.
#[derive(Clone, Copy, Debug, PartialEq, Eq)]
pub enum InputEnd {
    /// It came to its end.
    Ended,
    /// The outside failed while it was read.
    Failed,
}

/// Reads an input and ignores what it says, until it ends or fails; then it raises the flag by
/// which all other jobs see that they are to end.
pub(crate) fn await_end<R: Wait, S: Source>(rt: &R, input: &mut S, stop: &AtomicBool) -> InputEnd
    ensures caused { IsInputCaused (S.ends input.old) (S.ends input.new)
        (S.faults input.old) (S.faults input.new) result }
    ensures input { IsLaterSource S.faults S.ends S.aside input.old input.new }
{
    let end = read_off(rt, input);
    stop.store(true, Ordering::SeqCst);
    end
}

/// Reads an input until it ends or fails.
fn read_off<R: Wait, S: Source>(rt: &R, input: &mut S) -> InputEnd
    ensures caused { IsInputCaused (S.ends input.old) (S.ends input.new)
        (S.faults input.old) (S.faults input.new) result }
    ensures input { IsLaterSource S.faults S.ends S.aside input.old input.new }
{
    let mut room = [0; PIECE];
    'reads: for _ in rt.forever() {
        match input.read(&mut room) {
            Piece::Got(_) => {}
            Piece::End => return InputEnd::Ended,
            Piece::Failed => return InputEnd::Failed,
        }
    }
    unreachable!()
}
