//! The index of the torrents: where the one of each hash stands.

use ot_base::InfoHash;
use ot_base::laws::hashes_in_order;
use std::alloc::{AllocError, Global};
use std::collections::BTreeMap;

/// The places by hash. Contracts see the place of each hash.
#[derive(Drop)]
pub struct Index {
    pub places: BTreeMap<InfoHash, u32>,
}

impl Index {
    ghost use Rattle.std.specs.Prelude.{◌≡◌, OnOk, OnErr, Some, None};
    ghost use Rattle.std.specs.Option.{option_map};
    ghost use Rattle.ot_base.specs.declared.hash.InfoHash.{InfoHash};
    ghost use Rattle.bucket.specs.Index.{Puts, place_in};

    /// An index of no hash, which takes no memory.
    pub fn new(alloc: Global) -> Self
        ensures { (h : InfoHash) → place_in result h ≡ None }
    {
        Index {
            places: BTreeMap::new(alloc),
        }
    }

    /// The place of a hash.
    pub fn get(&self, hash: &InfoHash) -> Option<u32>
        ensures { result ≡ place_in self.now hash.now }
    {
        hashes_in_order();
        self.places.get(hash).copied()
    }

    /// Adds the place of a new hash. Want of memory changes nothing.
    pub fn add(&mut self, hash: InfoHash, place: u32) -> Result<(), AllocError>
        ensures ok { OnOk result (Puts (place_in self.old) (place_in self.new) hash (Some place)) }
        ensures err { OnErr result ((h : InfoHash) → place_in self.new h ≡ place_in self.old h) }
    {
        hashes_in_order();
        self.places.insert(hash, place)?;
        Ok(())
    }

    /// Takes out a hash, with no memory.
    pub fn take(&mut self, hash: &InfoHash)
        ensures { Puts (place_in self.old) (place_in self.new) hash.now None }
    {
        hashes_in_order();
        self.places.remove(hash);
    }

    /// Gives a hash that has a place another one.
    pub fn move_to(&mut self, hash: &InfoHash, place: u32)
        ensures { Puts (place_in self.old) (place_in self.new) hash.now
            (option_map (λ _. place) (place_in self.old hash.now)) }
    {
        hashes_in_order();
        if let Some(at) = self.places.get_mut(hash) {
            *at = place;
        }
    }
}
