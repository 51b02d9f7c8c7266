//! The order of one family's endpoints: their ring, and each of IPv4 in six bytes beside it.

ghost use Rattle.std.specs.Prelude.{ℕ};
ghost use Rattle.age_ring.specs.declared.ring.TheConstants.{MOST_AGES};
ghost use Rattle.node_table.specs.declared.table.TheConstants.{MOST_NODES};

use crate::short::{NO_SHORT, Short};
use age_ring::AgeRing;
use node_table::Steps;
use ot_base::Endpoint;
use std::alloc::{AllocError, Global};
use std::marker::Model;
use std::sync::ledger::Ledger;

/// A ring of endpoints, as contracts see it. A node of the ring has 32 bytes, and whoever is told
/// 50 peers of many reads 50 of them anywhere, so the endpoints of IPv4 stand once more close to
/// each other, in six bytes each.
#[derive(Drop)]
pub struct Order {
    ring: AgeRing<Endpoint>,
    shorts: Vec<Short>,
}

impl Model for Order {
    ghost use Rattle.std.specs.Prelude.{◌≡◌, ◌+◌, ◌≤◌, length, map};
    ghost use Rattle.std.specs.Vec.{vec_capacity};
    ghost use Rattle.age_ring.specs.Ring.{Ring, items_of};
    ghost use Rattle.ot_base.specs.declared.address.Endpoint.{Endpoint};
    ghost use Rattle.swarm.specs.Short.{beside};

    ghost Value = { Ring Endpoint };

    ghost view = { λ o. o.ring };

    ghost invariant = { λ o. (o.shorts.items ≡ map beside (items_of o.ring.pairs))
        × (length o.ring.pairs + o.ring.spare ≤ vec_capacity o.shorts) };
}

impl Order {
    ghost use Rattle.std.specs.Prelude.{◌≡◌, ◌+◌, ◌<◌, ◌≤◌, ◌↔◌, [], ◌∷◌, ◌++◌, All, IsTrue, length, slice_get, slice_index, slice_index_or, slice_set, swap_remove, Some, IfOk, IfSome, IfNone, OnErr, OnOk};
    ghost use Rattle.age_ring.specs.Ring.{IsYoung, items_of, stamps_of};

    /// No endpoint, at a time. Of memory it takes four bytes for each age.
    pub fn new(alloc: Global, ages: u32, time: u32) -> Result<Self, AllocError>
        requires some { 1 ≤ ages }
        requires few { ages ≤ MOST_AGES }
        ensures pairs { IfOk result (λ order. order.pairs ≡ []) }
        ensures time { IfOk result (λ order. order.time ≡ time) }
        ensures ages { IfOk result (λ order. order.ages ≡ ages) }
    {
        Ok(Order {
            ring: AgeRing::new(alloc, ages, time)?,
            shorts: Vec::new(alloc),
        })
    }

    /// How many endpoints there are.
    pub fn len(&self) -> u32
        ensures len { result ≡ length self.now.pairs }
        ensures most { result ≤ MOST_NODES }
    {
        self.ring.len()
    }

    /// Whether there is none.
    pub fn is_empty(&self) -> bool
        ensures { IsTrue result ↔ (self.now.pairs ≡ []) }
    {
        self.ring.is_empty()
    }

    /// The ring's time.
    pub fn time(&self) -> u32
        ensures time { result ≡ self.now.time }
        ensures past { All (λ pair. pair.1 ≤ self.now.time) self.now.pairs }
        ensures young { All (IsYoung self.now.ages self.now.time) self.now.pairs }
    {
        self.ring.time()
    }

    /// The endpoint at a place.
    pub fn item(&self, i: u32) -> Endpoint
        requires { i < length self.now.pairs }
        ensures { slice_get (items_of self.now.pairs) i ≡ Some result }
    {
        let short = self.shorts[i as usize];
        if short.port == NO_SHORT.port {
            self.ring.item(i)
        } else {
            short.endpoint()
        }
    }

    /// The stamp of the endpoint at a place.
    pub fn stamp(&self, i: u32) -> u32
        requires { i < length self.now.pairs }
        ensures { slice_get (stamps_of self.now.pairs) i ≡ Some result }
    {
        self.ring.stamp(i)
    }

    /// Makes room for an endpoint at least. Where there is none, the room grows to a quarter of the
    /// endpoints and four. Only then it may want memory, and want of memory changes no endpoint.
    pub fn reserve(&mut self) -> Result<(), AllocError>
        requires { length self.old.pairs < MOST_NODES }
        ensures same { self.new ≡ record self.old { spare = self.new.spare } }
        ensures room { OnOk result (1 ≤ self.new.spare) }
    {
        if self.ring.spare() > 0 {
            return Ok(());
        }
        self.shorts.reserve_exact(self.shorts.len() / 4 + 4)?;
        self.ring.reserve()
    }

    /// Gives back memory that isn't used.
    pub fn shrink(&mut self)
        ensures { self.new ≡ record self.old { spare = self.new.spare } }
    {
        self.ring.shrink();
        if self.ring.spare() == 0 {
            self.shorts.shrink_to_fit();
        }
    }

    /// Whether so much memory isn't used that it is worth giving back: a third of the room or more.
    /// At least a sixth of the peers that the room was made for have left it, so it doesn't come
    /// and go with a few peers.
    pub fn is_wide(&self) -> bool {
        self.ring.spare() > self.ring.len() / 2 + 8
    }

    /// Puts an endpoint last, with the time as its stamp, and with no memory.
    pub fn insert<L: Ledger>(&mut self, who: Endpoint, steps: &mut Steps<L>)
        requires { 1 ≤ self.old.spare }
        ensures pairs { self.new.pairs ≡ self.old.pairs ++ (who, self.old.time) ∷ [] }
        ensures time { self.new.time ≡ self.old.time }
        ensures ages { self.new.ages ≡ self.old.ages }
        ensures steps { steps.new ≤ steps.old + 16 }
    {
        self.shorts.push_reserved(Short::beside(&who));
        self.ring.insert(who, steps);
    }

    /// Gives the time as a stamp to the endpoint at a place.
    pub fn renew<L: Ledger>(&mut self, i: u32, steps: &mut Steps<L>)
        requires { i < length self.old.pairs }
        ensures pairs { (pair : Endpoint × ℕ) → self.new.pairs ≡
            slice_set self.old.pairs i ((slice_index_or self.old.pairs i pair).0, self.old.time) }
        ensures items { items_of self.new.pairs ≡ items_of self.old.pairs }
        ensures time { self.new.time ≡ self.old.time }
        ensures ages { self.new.ages ≡ self.old.ages }
        ensures steps { steps.new ≤ steps.old + 16 }
    {
        self.ring.renew(i, steps);
    }

    /// Takes out the endpoint at a place: the last one moves there.
    pub fn remove<L: Ledger>(&mut self, i: u32, steps: &mut Steps<L>) -> Endpoint
        requires { i < length self.old.pairs }
        ensures item { slice_get (items_of self.old.pairs) i ≡ Some result }
        ensures pairs { (pair : Endpoint × ℕ) →
            self.new.pairs ≡ swap_remove self.old.pairs i pair }
        ensures items { items_of self.new.pairs ≡ swap_remove (items_of self.old.pairs) i result }
        ensures len { length self.new.pairs + 1 ≡ length self.old.pairs }
        ensures time { self.new.time ≡ self.old.time }
        ensures ages { self.new.ages ≡ self.old.ages }
        ensures steps { steps.new ≤ steps.old + 16 }
    {
        self.shorts.swap_remove(i as usize);
        self.ring.remove(i, steps)
    }

    /// A place of an endpoint that isn't young at a time, if there is one.
    pub fn next_due(&self, time: u32) -> Option<u32>
        requires { self.now.time ≤ time }
        ensures within { IfSome result (λ i. i < length self.now.pairs) }
        ensures due { IfSome result (λ i.
            slice_index (stamps_of self.now.pairs) i + self.now.ages ≤ time) }
        ensures none { IfNone result (All (IsYoung self.now.ages time) self.now.pairs) }
    {
        self.ring.next_due(time)
    }

    /// Moves the time on where all are young then.
    pub fn pass(&mut self, time: u32)
        requires later { self.old.time ≤ time }
        requires young { All (IsYoung self.old.ages time) self.old.pairs }
        ensures { self.new ≡ record self.old { time = time } }
    {
        self.ring.pass(time);
    }
}
