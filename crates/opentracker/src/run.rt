//! The top call: the run that words ask for.

ghost use Rattle.std.specs.Prelude.{◌≡◌, map};
ghost use Rattle.command_line.specs.Words.{command_of};
ghost use Rattle.lines.specs.Streams.{IsLaterSink, IsLaterSource};
ghost use Rattle.ot_io.specs.Message.{TellsLine, status_text};
ghost use Rattle.opentracker.specs.Run.{IsRun, words_status};

use command_line::{Command, WordsFault, read_words};
use drill::run_drill;
use offline::run_offline;
use ot_io::{Clock, Conn, Listener, Outside, Sink, Source, Status, Wire, report};
use server::run_serve;
use std::alloc::Global;
use std::sync::Wait;
use std::thread::Threads;

/// Reads the words, runs the command that they ask for, and tells on `err` how it ended. A failure
/// of `err` changes nothing else.
pub fn run<
    W: Wire + Send + Drop,
    K: Conn + Send + Drop,
    L: Listener<Link = K> + Send + Drop,
    C: Clock + Send + Drop,
    R: Threads + Wait + Sync,
    S: Source + Send,
    O: Sink,
    E: Sink,
    N: Outside<W = W, L = L, C = C>,
>(
    rt: &R,
    alloc: Global,
    words: &[&str],
    input: &mut S,
    out: &mut O,
    err: &mut E,
    outside: &mut N,
) -> Status
    ensures ran { IsRun S.left S.ends S.faults O.written O.faults
        N.wires_lent N.listeners_lent N.faults
        (command_of (map (λ word. word.now) words.now))
        input.old input.new out.old out.new outside.old outside.new result }
    ensures told { TellsLine (E.written err.old) (E.written err.new)
        (E.faults err.old) (E.faults err.new) (status_text result) }
    ensures input { IsLaterSource S.faults S.ends S.aside input.old input.new }
    ensures out { IsLaterSink O.faults O.aside out.old out.new }
    ensures err { IsLaterSink E.faults E.aside err.old err.new }
{
    match read_words(words) {
        Ok(Command::Offline(command)) => run_offline(alloc, &command, input, out, err),
        Ok(Command::Drill(settings)) => run_drill(rt, alloc, &settings, out, err),
        Ok(Command::Serve(settings)) => {
            run_serve(rt, alloc, &settings, input, out, err, outside)
        }
        Err(fault) => refuse(fault, err),
    }
}

/// Refuses words.
fn refuse<E: Sink>(fault: WordsFault, err: &mut E) -> Status
    ensures status { result ≡ words_status fault }
    ensures told { TellsLine (E.written err.old) (E.written err.new)
        (E.faults err.old) (E.faults err.new) (status_text result) }
    ensures err { IsLaterSink E.faults E.aside err.old err.new }
{
    let WordsFault::At(at) = fault;
    let status = Status::Words { at };
    report(status, err);
    status
}
