//! A run over the lines of an input.

ghost use Rattle.std.specs.Prelude.{◌≡◌, ◌<◌, ◌+◌, [], IfNone};
ghost use Rattle.std.specs.Io.KnownBytes.{IsAtEnd};
ghost use Rattle.ot_io.specs.Counts.{Rose};
ghost use Rattle.lines.specs.Text.{IsUnfinished};
ghost use Rattle.lines.specs.Streams.{IsLaterSource, IsLaterSink};
ghost use Rattle.lines.specs.Reading.{nothing_read};
ghost use Rattle.lines.specs.Run.{RunsLines};
ghost use Rattle.lines.specs.Turns.{AnswersLast, AnswersOrEnds, EndsByCause, EndsRun};
ghost use Rattle.lines.specs.Turns.{Finishes, GoesOnOrEnds};

use crate::line_buffer::{Filled, Lines, Taken};
use crate::replies::{Replies, WriteFault};
use crate::responder::{Responder, Trouble};
use ot_io::{Sink, Source};
use std::alloc::Global;

/// How a run ended.
#[derive(Clone, Copy, Debug, PartialEq, Eq)]
pub enum Ending<F> {
    /// The input came to its end, and each line was answered.
    Done,
    /// A line is refused, or the input's end is, in place of the line after the last.
    Refused {
        /// The line's number, from 1.
        line: u64,
        /// The responder's fault.
        fault: F,
    },
    /// A line has more than 262,144 bytes.
    TooLong {
        /// The line's number, from 1.
        line: u64,
    },
    /// The input has more than 2^40 bytes.
    TooMuch,
    /// The outside failed while the input was read.
    ReadFault,
    /// The outside failed while answers were written.
    WriteFault,
    /// There was no memory.
    NoMemory,
}

/// Reads the input to its end, and answers its lines one by one. It ends at the first trouble that
/// it meets. It reads 2^40 bytes at most, and takes memory at its beginning alone.
///
/// Before any ending but `WriteFault` the answers so far are written, and before each read too.
pub fn run_lines<S: Source, O: Sink, R: Responder>(
    alloc: Global,
    responder: &mut R,
    input: &mut S,
    out: &mut O,
) -> Ending<R::Fault>
    ensures runs { RunsLines
        (Rose (S.ends input.old) (S.ends input.new) × IsAtEnd (S.left input.new))
        R.answers R.refuses R.may_end R.refuses_end (S.left input.old) (S.left input.new)
        (O.written out.old) (O.written out.new) responder.old responder.new result }
    ensures done { result ≡ Ending.Done → Rose (S.ends input.old) (S.ends input.new) }
    ensures read_fault { result ≡ Ending.ReadFault
        → Rose (S.faults input.old) (S.faults input.new) }
    ensures write_fault { result ≡ Ending.WriteFault → Rose (O.faults out.old) (O.faults out.new) }
    ensures input { IsLaterSource S.faults S.ends S.aside input.old input.new }
    ensures output { IsLaterSink O.faults O.aside out.old out.new }
{
    let Ok(mut lines) = Lines::new(alloc) else {
        return Ending::NoMemory;
    };
    let Ok(mut replies) = Replies::new(alloc) else {
        return Ending::NoMemory;
    };
    run_turns(responder, input, out, &mut lines, &mut replies)
}

/// The whole run, through a buffer for what is read and one for what is to be written.
fn run_turns<S: Source, O: Sink, R: Responder>(
    responder: &mut R,
    input: &mut S,
    out: &mut O,
    lines: &mut Lines,
    replies: &mut Replies,
) -> Ending<R::Fault>
    requires lines { lines.old ≡ nothing_read }
    requires replies { replies.old ≡ [] }
    ensures ends { EndsByCause
        (Rose (S.ends input.old) (S.ends input.new) × IsAtEnd (S.left input.new))
        (Rose (S.faults input.old) (S.faults input.new))
        (Rose (O.faults out.old) (O.faults out.new))
        R.answers R.refuses R.may_end R.refuses_end (S.left input.old) (S.left input.new)
        (O.written out.old) (O.written out.new) responder.old responder.new result }
    ensures input { IsLaterSource S.faults S.ends S.aside input.old input.new }
    ensures output { IsLaterSink O.faults O.aside out.old out.new }
{
    'turns: loop {
        if let Some(ending) = turn(responder, input, out, lines, replies) {
            return ending;
        }
    }
}

/// Answers the next line, or reads more where none is ahead. It says how the run ends, if it does.
fn turn<S: Source, O: Sink, R: Responder>(
    responder: &mut R,
    input: &mut S,
    out: &mut O,
    lines: &mut Lines,
    replies: &mut Replies,
) -> Option<Ending<R::Fault>>
    ensures turns { GoesOnOrEnds
        (Rose (S.ends input.old) (S.ends input.new) × IsAtEnd (S.left input.new))
        (Rose (S.faults input.old) (S.faults input.new))
        (Rose (O.faults out.old) (O.faults out.new))
        R.answers R.refuses R.may_end R.refuses_end responder.old responder.new
        (S.left input.old) (S.left input.new) (O.written out.old) (O.written out.new)
        replies.old replies.new lines.old lines.new result }
    ensures grows { IfNone result
        (lines.old.number + lines.old.count < lines.new.number + lines.new.count) }
    ensures input { IsLaterSource S.faults S.ends S.aside input.old input.new }
    ensures output { IsLaterSink O.faults O.aside out.old out.new }
{
    match lines.take() {
        Taken::Line => answer(responder, out, lines, replies),
        Taken::TooLong => {
            let line = lines.number() + 1;
            Some(finish(out, replies, Ending::TooLong { line }))
        }
        Taken::More => read_on(responder, input, out, lines, replies),
    }
}

/// Answers the line that was taken last.
fn answer<O: Sink, R: Responder>(
    responder: &mut R,
    out: &mut O,
    lines: &Lines,
    replies: &mut Replies,
) -> Option<Ending<R::Fault>>
    ensures answers { AnswersOrEnds (Rose (O.faults out.old) (O.faults out.new)) R.answers R.refuses
        responder.old responder.new lines.now.line lines.now.number
        (O.written out.old) (O.written out.new) replies.old replies.new result }
    ensures output { IsLaterSink O.faults O.aside out.old out.new }
{
    match responder.respond(lines.line(), replies, out) {
        Ok(()) => None,
        Err(Trouble::Refused(fault)) => {
            let line = lines.number();
            Some(finish(out, replies, Ending::Refused { line, fault }))
        }
        Err(Trouble::NoMemory) => Some(finish(out, replies, Ending::NoMemory)),
        Err(Trouble::WriteFault) => Some(Ending::WriteFault),
    }
}

/// Writes the answers that wait, and reads more. At the input's end the run ends.
fn read_on<S: Source, O: Sink, R: Responder>(
    responder: &mut R,
    input: &mut S,
    out: &mut O,
    lines: &mut Lines,
    replies: &mut Replies,
) -> Option<Ending<R::Fault>>
    requires { IsUnfinished lines.old.ahead }
    ensures turns { GoesOnOrEnds
        (Rose (S.ends input.old) (S.ends input.new) × IsAtEnd (S.left input.new))
        (Rose (S.faults input.old) (S.faults input.new))
        (Rose (O.faults out.old) (O.faults out.new))
        R.answers R.refuses R.may_end R.refuses_end responder.old responder.new
        (S.left input.old) (S.left input.new) (O.written out.old) (O.written out.new)
        replies.old replies.new lines.old lines.new result }
    ensures grows { IfNone result
        (lines.old.number + lines.old.count < lines.new.number + lines.new.count) }
    ensures input { IsLaterSource S.faults S.ends S.aside input.old input.new }
    ensures output { IsLaterSink O.faults O.aside out.old out.new }
{
    if let Err(WriteFault) = replies.flush(out) {
        return Some(Ending::WriteFault);
    }
    match lines.fill(input) {
        Filled::Got => None,
        Filled::End => Some(end_run(responder, out, lines, replies)),
        Filled::Failed => Some(Ending::ReadFault),
        Filled::TooMuch => Some(Ending::TooMuch),
    }
}

/// Answers the last line, which no end follows, where there is one, and ends the run.
fn end_run<O: Sink, R: Responder>(
    responder: &mut R,
    out: &mut O,
    lines: &mut Lines,
    replies: &mut Replies,
) -> Ending<R::Fault>
    requires { IsUnfinished lines.old.ahead }
    ensures ends { EndsRun (Rose (O.faults out.old) (O.faults out.new))
        R.answers R.refuses R.may_end R.refuses_end responder.old responder.new
        (O.written out.old) (O.written out.new) replies.old lines.old result }
    ensures output { IsLaterSink O.faults O.aside out.old out.new }
{
    if let Some(ending) = answer_last(responder, out, lines, replies) {
        return ending;
    }
    match responder.end() {
        Ok(()) => finish(out, replies, Ending::Done),
        Err(fault) => {
            let after = lines.number() + 1;
            finish(out, replies, Ending::Refused { line: after, fault })
        }
    }
}

/// Answers the bytes ahead as the last line, where there are any.
fn answer_last<O: Sink, R: Responder>(
    responder: &mut R,
    out: &mut O,
    lines: &mut Lines,
    replies: &mut Replies,
) -> Option<Ending<R::Fault>>
    requires { IsUnfinished lines.old.ahead }
    ensures answers { AnswersLast (Rose (O.faults out.old) (O.faults out.new)) R.answers R.refuses
        responder.old responder.new (O.written out.old) (O.written out.new)
        replies.old replies.new lines.old lines.new result }
    ensures output { IsLaterSink O.faults O.aside out.old out.new }
{
    if !lines.take_last() {
        return None;
    }
    answer(responder, out, lines, replies)
}

/// Writes the answers that wait. The run ends as planned, unless the outside fails.
fn finish<O: Sink, F: Copy>(out: &mut O, replies: &mut Replies, planned: Ending<F>) -> Ending<F>
    ensures finished { Finishes (Rose (O.faults out.old) (O.faults out.new))
        (O.written out.old) (O.written out.new) replies.old planned result }
    ensures output { IsLaterSink O.faults O.aside out.old out.new }
{
    match replies.flush(out) {
        Ok(()) => planned,
        Err(WriteFault) => Ending::WriteFault,
    }
}
