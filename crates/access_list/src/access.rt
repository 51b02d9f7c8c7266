//! A whole access list.

ghost use Rattle.std.specs.Prelude.{◌≡◌, option_copied};
ghost use Rattle.access_list.specs.Access.{admits_hash};

use crate::Mode;
use ot_base::InfoHash;
use std::marker::Model;

/// Whether a tracker takes part in a torrent, by its list if it has one: without a list it takes
/// part in all. It takes no memory.
pub fn admits_hash(access: Option<&AccessList>, hash: &InfoHash) -> bool
    ensures { result ≡ admits_hash (option_copied access.entry) hash.now }
{
    match access {
        Some(list) => list.admits(hash),
        None => true,
    }
}

/// Which torrents a tracker admits. Contracts see its mode and the hashes that it names, each once
/// in ascending order.
///
/// It takes 20 bytes a hash.
#[derive(Debug, Drop)]
pub struct AccessList {
    mode: Mode,
    hashes: Vec<InfoHash>,
}

impl Model for AccessList {
    ghost use Rattle.std.specs.List.Sorted.{IsStrictlySortedBy};
    ghost use Rattle.ot_base.specs.Order.{hash_cmp};
    ghost use Rattle.access_list.specs.Access.{Listing};

    ghost Value = { Listing };

    ghost view = { λ list. record { mode = list.mode; hashes = list.hashes.items } };

    ghost invariant = { λ list. IsStrictlySortedBy hash_cmp list.hashes.items };
}

impl AccessList {
    ghost use Rattle.std.specs.Prelude.{◌≡◌};
    ghost use Rattle.ot_base.specs.declared.hash.InfoHash.{InfoHash};
    ghost use Rattle.access_list.specs.Access.{is_admitted, is_named};

    /// The list that names these hashes, in any order, where one may stand twice.
    pub(crate) fn of_hashes(mode: Mode, mut hashes: Vec<InfoHash>) -> Self
        ensures mode { result.mode ≡ mode }
        ensures named { (hash : InfoHash) →
            is_named result.hashes hash ≡ is_named hashes.items hash }
    {
        hashes.sort_unstable();
        hashes.dedup();
        hashes.shrink_to_fit();
        AccessList { mode, hashes }
    }

    /// Whether the tracker takes part in a torrent. It takes no memory.
    pub fn admits(&self, hash: &InfoHash) -> bool
        ensures { result ≡ is_admitted self.now hash.now }
    {
        let named = self.names(hash);
        match self.mode {
            Mode::Deny => !named,
            Mode::Allow => named,
        }
    }

    /// Whether the list names a torrent.
    fn names(&self, hash: &InfoHash) -> bool
        ensures { result ≡ is_named self.now.hashes hash.now }
    {
        self.hashes.binary_search(hash).is_ok()
    }
}
