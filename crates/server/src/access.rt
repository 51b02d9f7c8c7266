//! How the access list is read with which a server's input begins.

ghost use Rattle.std.specs.Prelude.{IfErr};
ghost use Rattle.std.specs.Io.KnownBytes.{IsAtEnd};
ghost use Rattle.lines.specs.Streams.{IsLaterSource};
ghost use Rattle.ot_io.specs.Counts.{Rose};
ghost use Rattle.server.specs.Access.{IsListCaused, IsListOf, ReadsLine, ReadsList};

use access_list::{AccessList, ListReader};
use lines::{Ending, Replies, Responder, Trouble, run_lines};
use ot_base::{AccessFault, Mode};
use ot_io::{Sink, Source, Status, Wrote};
use std::alloc::Global;
use std::marker::Model;

/// The line that ends an access list.
const LIST_END: &[u8] = b"end";

/// Why no further line of the list is read.
#[derive(Clone, Copy, Debug, PartialEq, Eq)]
pub(crate) enum ListEnd {
    /// The line that ends it came.
    Whole,
    /// The line is none of a list's.
    Refused(AccessFault),
}

/// An access list whose lines are read from an input. Contracts see the list so far.
#[derive(Drop)]
struct Reading {
    reader: ListReader,
}

impl Model for Reading {
    ghost use Rattle.access_list.specs.Access.{Listing};

    ghost Value = { Listing };

    ghost view = { λ r. r.reader };
}

impl Responder for Reading {
    ghost use Rattle.server.specs.Access.{ListsLine, MayListEnd, RefusesEnd, RefusesListLine};

    type Fault = ListEnd;

    ghost answers = { ListsLine };

    ghost refuses = { RefusesListLine };

    ghost may_end = { MayListEnd };

    ghost refuses_end = { RefusesEnd };

    fn respond<O: Sink>(
        &mut self,
        line: &[u8],
        _replies: &mut Replies,
        _out: &mut O,
    ) -> Result<(), Trouble<ListEnd>> {
        read_line(&mut self.reader, line)
    }

    fn end(&self) -> Result<(), ListEnd> {
        Err(ListEnd::Refused(AccessFault::Line))
    }
}

/// Reads one more line of a list, unless it is the list's end.
fn read_line(reader: &mut ListReader, line: &[u8]) -> Result<(), Trouble<ListEnd>>
    ensures { ReadsLine reader.old line.now reader.new result }
{
    if line == LIST_END {
        return Err(Trouble::Refused(ListEnd::Whole));
    }
    match reader.line(line) {
        Ok(()) => Ok(()),
        Err(AccessFault::NoMemory) => Err(Trouble::NoMemory),
        Err(fault) => Err(Trouble::Refused(ListEnd::Refused(fault))),
    }
}

/// A sink for what reads lines and writes nothing.
#[derive(Drop)]
struct Nowhere;

impl Sink for Nowhere {
    ghost use Rattle.std.specs.Prelude.{None};

    ghost written = { λ _. None };

    ghost faults = { λ _. 0 };

    fn write(&mut self, bytes: &[u8]) -> Wrote {
        Wrote::Took(bytes.len())
    }
}

/// Reads an access list of this mode, up to the line that ends it. What was read of the input
/// behind that line is left out.
///
/// # Errors
///
/// `List` with the first line that is none of a list's, or the line after the last where the input
/// ends before the list does; `TooLong`, `TooMuch`, `ReadFault`, `NoMemory`.
pub(crate) fn read_list<S: Source>(
    alloc: Global,
    mode: Mode,
    input: &mut S,
) -> Result<AccessList, Status>
    ensures read { ReadsList
        (Rose (S.ends input.old) (S.ends input.new) × IsAtEnd (S.left input.new))
        mode (S.left input.old) (S.left input.new) result }
    ensures caused { IfErr result (IsListCaused (S.faults input.old) (S.faults input.new)) }
    ensures input { IsLaterSource S.faults S.ends S.aside input.old input.new }
{
    let mut reading = Reading {
        reader: ListReader::new(alloc, mode),
    };
    let ending = run_lines(alloc, &mut reading, input, &mut Nowhere);
    finish_list(reading, ending)
}

/// The list of which these lines were read, where the reading ended so.
fn finish_list(reading: Reading, ending: Ending<ListEnd>) -> Result<AccessList, Status>
    ensures { IsListOf reading ending result }
{
    match ending {
        Ending::Refused { line, fault } => match fault {
            ListEnd::Whole => match reading.reader.finish() {
                Ok(list) => Ok(list),
                Err(_) => Err(Status::NoMemory),
            },
            ListEnd::Refused(fault) => Err(Status::List { line, fault }),
        },
        Ending::TooLong { line } => Err(Status::TooLong { line }),
        Ending::TooMuch => Err(Status::TooMuch),
        Ending::ReadFault => Err(Status::ReadFault),
        Ending::NoMemory | Ending::WriteFault | Ending::Done => Err(Status::NoMemory),
    }
}
