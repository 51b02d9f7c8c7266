//! An access list while its lines are read.

use crate::lines::{hash_named, is_remark};
use crate::{AccessFault, AccessList, Mode};
use ot_base::InfoHash;
use std::alloc::{AllocError, Global};
use std::marker::Model;

/// How many hashes a list may name, one that stands twice counted twice.
const MOST_HASHES: usize = 1_000_000;

/// An access list of which some lines have been read. Contracts see its mode and the hashes of
/// these lines, in order.
///
/// Each line is 40 hex digits in either case, the info hash of a torrent; or it is empty or begins
/// with `#`, and names nothing. A hash may stand twice. What ends the list is the caller's choice.
#[derive(Debug, Drop)]
pub struct ListReader {
    mode: Mode,
    hashes: Vec<InfoHash>,
}

impl Model for ListReader {
    ghost use Rattle.access_list.specs.Access.{Listing};

    ghost Value = { Listing };

    ghost view = { λ reader. record { mode = reader.mode; hashes = reader.hashes.items } };
}

impl ListReader {
    ghost use Rattle.std.specs.Prelude.{◌≡◌, ◌++◌, ◌⊎◌, [], IfErr, IfOk, IsSome, None, OnErr};
    ghost use Rattle.std.specs.Prelude.{OnOk, Some};
    ghost use Rattle.std.specs.Option.{option_to_list};
    ghost use Rattle.ot_base.specs.declared.hash.InfoHash.{InfoHash};
    ghost use Rattle.access_list.specs.Access.{fault_of, hash_named, is_admitted};
    ghost use Rattle.ot_base.specs.declared.access.AccessFault.TheVariants.{NoMemory};

    /// A list of which no line has been read. It takes no memory.
    pub fn new(alloc: Global, mode: Mode) -> Self
        ensures { result ≡ record { mode = mode; hashes = [] } }
    {
        ListReader {
            mode,
            hashes: Vec::new(alloc),
        }
    }

    /// Reads one more line, without its end.
    ///
    /// It is refused as `Line` where it isn't a line of a list, and as `Many` where it is a hash
    /// and 1,000,000 hashes were read before it. Memory may be wanting where it is a hash and isn't
    /// refused. A line that isn't read changes nothing.
    pub fn line(&mut self, line: &[u8]) -> Result<(), AccessFault>
        ensures accepted { OnOk result (fault_of self.old.hashes line.now ≡ None) }
        ensures refused { IfErr result (λ fault. (fault_of self.old.hashes line.now ≡ Some fault)
            ⊎ ((fault ≡ NoMemory) × (fault_of self.old.hashes line.now ≡ None)
            × IsSome (hash_named line.now))) }
        ensures read { OnOk result (self.new ≡ record self.old {
          hashes = self.old.hashes ++ option_to_list (hash_named line.now);
        }) }
        ensures unchanged { OnErr result (self.new ≡ self.old) }
    {
        if is_remark(line) {
            return Ok(());
        }
        let Some(hash) = hash_named(line) else {
            return Err(AccessFault::Line);
        };
        if self.hashes.len() >= MOST_HASHES {
            return Err(AccessFault::Many);
        }
        match self.hashes.push(hash) {
            Ok(()) => Ok(()),
            Err(_) => Err(AccessFault::NoMemory),
        }
    }

    /// The list of the lines that were read.
    pub fn finish(self) -> Result<AccessList, AllocError>
        ensures mode { IfOk result (λ list. list.mode ≡ self.mode) }
        ensures admits { IfOk result (λ list. (hash : InfoHash) →
            is_admitted list hash ≡ is_admitted self hash) }
    {
        let ListReader { mode, hashes } = self;
        Ok(AccessList::of_hashes(mode, hashes))
    }
}

#[cfg(test)]
impl ListReader {
    /// A list of which lines that name these hashes have been read.
    pub(crate) fn of_hashes(mode: Mode, hashes: Vec<InfoHash>) -> Self {
        ListReader { mode, hashes }
    }
}
