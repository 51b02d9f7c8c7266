//! The commands.

ghost use Rattle.std.specs.Prelude.{◌≡◌};
ghost use Rattle.lines.specs.Streams.{IsLaterSink, IsLaterSource};
ghost use Rattle.ot_io.specs.Message.{TellsLine, status_text};
ghost use Rattle.offline.specs.Command.{IsOffered, ReplayRun, settings_of, status_of};

use crate::replay::Replay;
use lines::{Ending, run_lines};
use ot_base::AccessFault;
use ot_io::{LineFault, ReplaySettings, Sink, Source, Status, report};
use std::alloc::Global;

/// A command with its settings.
#[derive(Clone, Copy, Debug, PartialEq, Eq)]
pub enum Offline {
    /// Reads a trace and writes one line for each of its records: what the tracker would have
    /// answered. Where the settings have a mode for it, an access list stands before the trace, and
    /// the line `end` between them.
    Replay(ReplaySettings),
}

/// Why a line of the input is refused.
#[derive(Clone, Copy, Debug, PartialEq, Eq)]
pub enum Fault {
    /// It is no line of the access list; or the input ended before the list did.
    List(AccessFault),
    /// It is no record of the trace.
    Line(LineFault),
}

/// Runs a command, and tells on `err` how it ended. It returns for every input, after at most 2^40
/// bytes.
pub fn run_offline<S: Source, O: Sink, E: Sink>(
    alloc: Global,
    command: &Offline,
    input: &mut S,
    out: &mut O,
    err: &mut E,
) -> Status
    requires { IsOffered (settings_of command.now) }
    ensures replayed { ReplayRun S.left S.ends S.faults O.written O.faults (settings_of command.now)
        input.old input.new out.old out.new result }
    ensures told { TellsLine (E.written err.old) (E.written err.new)
        (E.faults err.old) (E.faults err.new) (status_text result) }
    ensures input { IsLaterSource S.faults S.ends S.aside input.old input.new }
    ensures out { IsLaterSink O.faults O.aside out.old out.new }
    ensures err { IsLaterSink E.faults E.aside err.old err.new }
{
    let Offline::Replay(settings) = command;
    let status = replay(alloc, settings, input, out);
    report(status, err);
    status
}

/// Replays a trace with these settings.
fn replay<S: Source, O: Sink>(
    alloc: Global,
    settings: &ReplaySettings,
    input: &mut S,
    out: &mut O,
) -> Status
    requires { IsOffered settings.now }
    ensures replayed { ReplayRun S.left S.ends S.faults O.written O.faults settings.now
        input.old input.new out.old out.new result }
    ensures input { IsLaterSource S.faults S.ends S.aside input.old input.new }
    ensures out { IsLaterSink O.faults O.aside out.old out.new }
{
    match Replay::new(alloc, settings) {
        Ok(mut replay) => status(run_lines(alloc, &mut replay, input, out)),
        Err(_) => Status::NoMemory,
    }
}

/// The status of a run that ended so.
fn status(end: Ending<Fault>) -> Status
    ensures { result ≡ status_of end }
{
    match end {
        Ending::Done => Status::Done,
        Ending::Refused { line, fault } => match fault {
            Fault::List(fault) => Status::List { line, fault },
            Fault::Line(fault) => Status::Line { line, fault },
        },
        Ending::TooLong { line } => Status::TooLong { line },
        Ending::TooMuch => Status::TooMuch,
        Ending::ReadFault => Status::ReadFault,
        Ending::WriteFault => Status::WriteFault,
        Ending::NoMemory => Status::NoMemory,
    }
}
