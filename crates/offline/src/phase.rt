//! What a line of the input is taken for.

ghost use Rattle.std.specs.Prelude.{◌≢◌};
ghost use Rattle.offline.specs.Follows.{TakesListLine};
ghost use Rattle.offline.specs.Replay.{list_end};

use crate::command::Fault;
use access_list::{AccessList, ListReader};
use lines::Trouble;
use ot_base::{AccessFault, Mode};
use std::alloc::{AllocError, Global};
use std::mem;

/// The line that ends an access list.
const LIST_END: &[u8] = b"end";

/// What the next line of an input is taken for.
#[derive(Debug, Drop)]
pub enum Phase {
    /// A line of the access list that the input begins with, or its end.
    Listing(ListReader),
    /// A record of the trace, by the whole access list if there is one.
    Answering(Option<AccessList>),
}

impl Phase {
    ghost use Rattle.std.specs.Prelude.{◌≡◌, MatchResult, OnOk};
    ghost use Rattle.access_list.specs.Access.{Listing};
    ghost use Rattle.offline.specs.Follows.{EndRefusedIn, EndsList, MayEndIn, TakesListLine};
    ghost use Rattle.offline.specs.Follows.{phase_before};

    /// What the first line is taken for, where the input begins with an access list of this mode,
    /// or with none. It takes no memory.
    pub fn new(alloc: Global, access: Option<Mode>) -> Phase
        ensures { result ≡ phase_before access }
    {
        match access {
            Some(mode) => Phase::Listing(ListReader::new(alloc, mode)),
            None => Phase::Answering(None),
        }
    }

    /// Takes a line for one of the access list, or for its end, behind which the trace begins. What
    /// the line may be refused for, `ListReader::line` says.
    pub fn take_list_line(&mut self, line: &[u8]) -> Result<(), Trouble<Fault>>
        requires listing { (list : Listing) × (self.old ≡ Phase.Listing list) }
        ensures { TakesListLine self.old line.now self.new result }
    {
        if line == LIST_END {
            self.end_list()?;
            return Ok(());
        }
        match self {
            Phase::Listing(reader) => read_list_line(reader, line),
            Phase::Answering(_) => unreachable!(),
        }
    }

    /// Ends the access list. Where there is no memory for the whole list, it is lost.
    fn end_list(&mut self) -> Result<(), AllocError>
        requires listing { (list : Listing) × (self.old ≡ Phase.Listing list) }
        ensures { OnOk result (EndsList self.old self.new) }
    {
        if let Phase::Listing(reader) = mem::replace(self, Phase::Answering(None)) {
            *self = Phase::Answering(Some(reader.finish()?));
        }
        Ok(())
    }

    /// Whether the input may end here. In the access list its end is no line of the list.
    pub fn may_end(&self) -> Result<(), Fault>
        ensures { MatchResult result (λ _. MayEndIn self.now) (λ why. EndRefusedIn self.now why) }
    {
        match self {
            Phase::Listing(_) => Err(Fault::List(AccessFault::Line)),
            Phase::Answering(_) => Ok(()),
        }
    }
}

/// Reads a line of an access list other than its end.
fn read_list_line(reader: &mut ListReader, line: &[u8]) -> Result<(), Trouble<Fault>>
    requires { line.now ≢ list_end }
    ensures { TakesListLine (Phase.Listing reader.old) line.now (Phase.Listing reader.new) result }
{
    match reader.line(line) {
        Ok(()) => Ok(()),
        Err(AccessFault::NoMemory) => Err(Trouble::NoMemory),
        Err(fault) => Err(Trouble::Refused(Fault::List(fault))),
    }
}
