//! The index of one family's peers: where each endpoint stands, and whether it is a seed.

use crate::short::{Short, shorts_in_order};
use ot_base::Endpoint;
use ot_base::laws::endpoints_in_order;
use std::alloc::{AllocError, Global};
use std::collections::BTreeMap;

/// Where an endpoint stands in the order, and whether it is a seed.
#[derive(Clone, Copy)]
pub struct Place {
    pub at: u32,
    pub seed: bool,
}

/// The places by endpoint. Contracts see the place of each endpoint. An endpoint of IPv4 stands
/// under its six bytes alone: a look-up waits for the memory of the keys that it compares with.
#[derive(Drop)]
pub struct Index {
    fours: BTreeMap<Short, Place>,
    sixes: BTreeMap<Endpoint, Place>,
}

impl Index {
    ghost use Rattle.std.specs.Prelude.{◌≡◌, ◌<◌, OnOk, OnErr, Some, None};
    ghost use Rattle.std.specs.Borrow.{sem};
    ghost use Rattle.std.specs.Option.{option_copied_mut};
    ghost use Rattle.ot_base.specs.declared.address.Endpoint.{Endpoint};
    ghost use Rattle.swarm.specs.Index.{LendsPlace, Puts, place_in, at_place, seed_of, with_seed};
    ghost use Rattle.swarm.specs.declared.index.Place.{Place};

    /// An index of no endpoint, which takes no memory.
    pub fn new(alloc: Global) -> Self
        ensures { (e : Endpoint) → place_in result e ≡ None }
    {
        Index {
            fours: BTreeMap::new(alloc),
            sixes: BTreeMap::new(alloc),
        }
    }

    /// The place of an endpoint.
    pub fn get(&self, who: &Endpoint) -> Option<Place>
        ensures { result ≡ place_in self.now who.now }
    {
        shorts_in_order();
        endpoints_in_order();
        match Short::of(who) {
            Some(short) => self.fours.get(&short).copied(),
            None => self.sixes.get(who).copied(),
        }
    }

    /// Adds the place of a new endpoint. Want of memory changes nothing.
    pub fn add(&mut self, who: Endpoint, place: Place) -> Result<(), AllocError>
        ensures ok { OnOk result (Puts (place_in self.old) (place_in self.new) who (Some place)) }
        ensures err { OnErr result ((e : Endpoint) → place_in self.new e ≡ place_in self.old e) }
    {
        shorts_in_order();
        endpoints_in_order();
        match Short::of(&who) {
            Some(short) => {
                self.fours.insert(short, place)?;
            }
            None => {
                self.sixes.insert(who, place)?;
            }
        }
        Ok(())
    }

    /// Takes out an endpoint, with no memory, and tells whether it was a seed.
    pub fn take(&mut self, who: &Endpoint) -> bool
        ensures seed { result ≡ seed_of (place_in self.old who.now) }
        ensures gone { Puts (place_in self.old) (place_in self.new) who.now None }
    {
        match self.remove(who) {
            Some(place) => place.seed,
            None => false,
        }
    }

    /// Takes out an endpoint, with no memory, and gives the place that it had.
    fn remove(&mut self, who: &Endpoint) -> Option<Place>
        ensures place { result ≡ place_in self.old who.now }
        ensures gone { Puts (place_in self.old) (place_in self.new) who.now None }
    {
        shorts_in_order();
        endpoints_in_order();
        match Short::of(who) {
            Some(short) => self.fours.remove(&short),
            None => self.sixes.remove(who),
        }
    }

    /// Takes out all endpoints, and gives their memory back.
    pub fn clear(&mut self)
        ensures { (e : Endpoint) → place_in self.new e ≡ None }
    {
        self.fours.clear();
        self.sixes.clear();
    }

    /// Gives an endpoint another place in the order.
    pub fn move_to(&mut self, who: &Endpoint, at: u32)
        ensures { Puts (place_in self.old) (place_in self.new) who.now
            (at_place at (place_in self.old who.now)) }
    {
        if let Some(place) = self.place_mut(who) {
            place.at = at;
        }
    }

    /// Sets whether an endpoint is a seed.
    pub fn set_seed(&mut self, who: &Endpoint, seed: bool)
        ensures { Puts (place_in self.old) (place_in self.new) who.now
            (with_seed seed (place_in self.old who.now)) }
    {
        if let Some(place) = self.place_mut(who) {
            place.seed = seed;
        }
    }

    /// The place of an endpoint, to be written to.
    fn place_mut(&mut self, who: &Endpoint) -> Option<&mut Place>
        ensures* puts { sem 𝓛 (LendsPlace self.entry who.now result) }
        ensures value { option_copied_mut result ≡ place_in self.old who.now }
    {
        shorts_in_order();
        endpoints_in_order();
        match Short::of(who) {
            Some(short) => self.fours.get_mut(&short),
            None => self.sixes.get_mut(who),
        }
    }
}
