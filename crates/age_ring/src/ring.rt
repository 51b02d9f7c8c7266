//! The ring.

ghost use Rattle.std.specs.Prelude.{◌≡◌, ◌≢◌, ℕ, ◌+◌, ◌-◌, ◌*◌, ◌/◌, ◌<◌, ◌≤◌, ◌↔◌, [], ◌∷◌, ◌++◌, All, IsTrue, length, max, min, slice_get, slice_index, slice_index_or, slice_set, swap_remove, Some, IfOk, IfSome, IfNone, OnErr, OnOk};
ghost use Rattle.age_ring.specs.Ring.{Drops, IsYoung, items_of, stamps_of};

use crate::lists::Lists;
use node_table::{MOST_NODES, Steps};
use std::alloc::{AllocError, Global};
use std::marker::{Brand, Model};
use std::sync::ledger::{Blank, Ledger};

/// How many ages a ring has at most: the minutes of a day.
pub const MOST_AGES: u32 = 1440;

/// Items in a dense order, each with a stamp, and one list for each age. A stamp is at most the
/// ring's time, and less than the number of ages below it. What a call costs doesn't grow with the
/// number of items.
#[derive(Drop)]
pub struct AgeRing<T: Copy> {
    lists: Lists<T>,
    time: u32,
}

impl<T: Copy> Model for AgeRing<T> {
    ghost use Rattle.std.specs.Prelude.{length};
    ghost use Rattle.age_ring.specs.Ring.{Ring};
    ghost use Rattle.age_ring.specs.Links.{IsRing, pairs_of};

    ghost Value = { Ring T };

    ghost view = { λ r. record {
      pairs = pairs_of r.lists.nodes.nodes;
      time = r.time;
      ages = length r.lists.heads.items;
      spare = r.lists.nodes.spare;
    } };

    ghost invariant = { λ r.
        IsRing r.lists.nodes.nodes r.lists.heads.items r.time r.lists.nodes.spare };
}

impl<T: Copy> AgeRing<T> {
    /// A ring with no item, at a time. Of memory it takes four bytes for each age.
    pub fn new(alloc: Global, ages: u32, time: u32) -> Result<Self, AllocError>
        requires some { 1 ≤ ages }
        requires few { ages ≤ MOST_AGES }
        ensures pairs { IfOk result (λ ring. ring.pairs ≡ []) }
        ensures time { IfOk result (λ ring. ring.time ≡ time) }
        ensures ages { IfOk result (λ ring. ring.ages ≡ ages) }
        ensures spare { IfOk result (λ ring. ring.spare ≡ 0) }
    {
        let lists = Lists::new(alloc, ages)?;
        Ok(AgeRing { lists, time })
    }

    /// How many items it has.
    pub fn len(&self) -> u32
        ensures len { result ≡ length self.now.pairs }
        ensures most { result + self.now.spare ≤ MOST_NODES }
    {
        self.lists.nodes.len()
    }

    /// Whether it has no item.
    pub fn is_empty(&self) -> bool
        ensures { IsTrue result ↔ (self.now.pairs ≡ []) }
    {
        self.lists.nodes.is_empty()
    }

    /// The time of the last `advance`, or that at which the ring began.
    pub fn time(&self) -> u32
        ensures time { result ≡ self.now.time }
        ensures past { All (λ pair. pair.1 ≤ self.now.time) self.now.pairs }
        ensures young { All (IsYoung self.now.ages self.now.time) self.now.pairs }
    {
        self.time
    }

    /// How many more items fit into the memory that it holds.
    pub fn spare(&self) -> u32
        ensures { result ≡ self.now.spare }
    {
        self.lists.nodes.spare()
    }

    /// Makes room for an item at least. Where there is none, the room grows to a quarter of the
    /// items and four. Only then it may want memory, and want of memory changes nothing.
    pub fn reserve(&mut self) -> Result<(), AllocError>
        requires { length self.old.pairs < MOST_NODES }
        ensures same { self.new ≡ record self.old { spare = self.new.spare } }
        ensures room { OnOk result (1 ≤ self.new.spare) }
        ensures quarter { self.new.spare ≤ max self.old.spare (length self.old.pairs / 4 + 4) }
        ensures err { OnErr result (self.new ≡ self.old) }
        ensures full { OnErr result (self.old.spare ≡ 0) }
    {
        self.lists.nodes.reserve()
    }

    /// Gives back memory that no item uses. Of a ring with no item, four bytes for each age stay.
    pub fn shrink(&mut self)
        ensures same { self.new ≡ record self.old { spare = self.new.spare } }
        ensures spare { self.new.spare ≤ self.old.spare }
        ensures frees { self.old.pairs ≡ [] → self.new.spare ≡ 0 }
    {
        self.lists.nodes.shrink();
    }

    /// The item at a place.
    pub fn item(&self, i: u32) -> T
        requires { i < length self.now.pairs }
        ensures { slice_get (items_of self.now.pairs) i ≡ Some result }
    {
        self.lists.pair::<Brand>(i, Blank::new(1)).0
    }

    /// The stamp of the item at a place.
    pub fn stamp(&self, i: u32) -> u32
        requires { i < length self.now.pairs }
        ensures { slice_get (stamps_of self.now.pairs) i ≡ Some result }
    {
        self.lists.pair::<Brand>(i, Blank::new(1)).1
    }

    /// Puts an item last, with the time as its stamp, and with no memory. Gives its place.
    pub fn insert<L: Ledger>(&mut self, item: T, steps: &mut Steps<L>) -> u32
        requires { 1 ≤ self.old.spare }
        ensures place { result ≡ length self.old.pairs }
        ensures pairs { self.new.pairs ≡ self.old.pairs ++ (item, self.old.time) ∷ [] }
        ensures spare { self.new.spare + 1 ≡ self.old.spare }
        ensures time { self.new.time ≡ self.old.time }
        ensures ages { self.new.ages ≡ self.old.ages }
        ensures steps { steps.new ≤ steps.old + 16 }
    {
        self.lists.push(item, self.time, steps)
    }

    /// Gives the time as a stamp to the item at a place. The order stays. An item that has that stamp
    /// is only looked at: its neighbours in the list of its age stay where they are.
    pub fn renew<L: Ledger>(&mut self, i: u32, steps: &mut Steps<L>)
        requires { i < length self.old.pairs }
        ensures pairs { (pair : T × ℕ) → self.new.pairs ≡
            slice_set self.old.pairs i ((slice_index_or self.old.pairs i pair).0, self.old.time) }
        ensures items { items_of self.new.pairs ≡ items_of self.old.pairs }
        ensures spare { self.new.spare ≡ self.old.spare }
        ensures time { self.new.time ≡ self.old.time }
        ensures ages { self.new.ages ≡ self.old.ages }
        ensures steps { steps.new ≤ steps.old + 16 }
    {
        if self.stamp(i) != self.time {
            self.relink(i, steps);
        }
    }

    /// The same, by the lists of both ages.
    fn relink<L: Ledger>(&mut self, i: u32, steps: &mut Steps<L>)
        requires { i < length self.old.pairs }
        ensures pairs { (pair : T × ℕ) → self.new.pairs ≡
            slice_set self.old.pairs i ((slice_index_or self.old.pairs i pair).0, self.old.time) }
        ensures items { items_of self.new.pairs ≡ items_of self.old.pairs }
        ensures spare { self.new.spare ≡ self.old.spare }
        ensures time { self.new.time ≡ self.old.time }
        ensures ages { self.new.ages ≡ self.old.ages }
        ensures steps { steps.new ≤ steps.old + 16 }
    {
        let item = self.lists.unlink(i, steps);
        self.lists.link_first(i, item, self.time, steps);
    }

    /// Takes out the item at a place: the last one moves there.
    pub fn remove<L: Ledger>(&mut self, i: u32, steps: &mut Steps<L>) -> T
        requires { i < length self.old.pairs }
        ensures item { slice_get (items_of self.old.pairs) i ≡ Some result }
        ensures pairs { (pair : T × ℕ) → self.new.pairs ≡ swap_remove self.old.pairs i pair }
        ensures items { items_of self.new.pairs ≡ swap_remove (items_of self.old.pairs) i result }
        ensures len { length self.new.pairs + 1 ≡ length self.old.pairs }
        ensures spare { self.new.spare ≡ self.old.spare + 1 }
        ensures time { self.new.time ≡ self.old.time }
        ensures ages { self.new.ages ≡ self.old.ages }
        ensures steps { steps.new ≤ steps.old + 16 }
    {
        let item = self.lists.unlink(i, steps);
        self.lists.close_gap(i, steps);
        item
    }

    /// A place of an item that `advance` to a time would drop, if there is one. It looks at one
    /// list for each step of time since the ring's, and at no more lists than there are ages, and
    /// at none where there is no item. An owner that takes out such items itself goes from one
    /// time to the next, each by a `pass` where none is due any more.
    pub fn next_due(&self, time: u32) -> Option<u32>
        requires { self.now.time ≤ time }
        ensures within { IfSome result (λ i. i < length self.now.pairs) }
        ensures due { IfSome result (λ i.
            slice_index (stamps_of self.now.pairs) i + self.now.ages ≤ time) }
        ensures none { IfNone result (All (IsYoung self.now.ages time) self.now.pairs) }
    {
        if self.is_empty() {
            return None;
        }
        let start = self.time;
        for k in 0..self.due_lists(time) {
            let first = self.first_due(start + k + 1);
            if first.is_some() {
                return first;
            }
        }
        None
    }

    /// Moves the time on, and drops exactly the items whose stamps are then as many ages below it
    /// or more. Gives their number. The order stays where there is none. It looks at one list for
    /// each step of time, and at no more lists than there are ages.
    pub fn advance<L: Ledger>(&mut self, time: u32, steps: &mut Steps<L>) -> u32
        requires { self.old.time ≤ time }
        ensures drops { Drops self.old.ages time self.old.pairs self.new.pairs result }
        ensures young { All (IsYoung self.old.ages time) self.new.pairs }
        ensures still { All (IsYoung self.old.ages time) self.old.pairs →
            self.new.pairs ≡ self.old.pairs }
        ensures spare { self.new.spare ≡ self.old.spare + result }
        ensures time { self.new.time ≡ time }
        ensures ages { self.new.ages ≡ self.old.ages }
        ensures steps { steps.new ≤ steps.old + 16 * result }
    {
        let start = self.time;
        let mut dropped = 0;
        for k in 0..self.due_lists(time) {
            dropped += self.drop_due(start + k + 1, steps);
        }
        self.time = time;
        dropped
    }

    /// Moves the time on where no item is due then. It looks at no list.
    pub fn pass(&mut self, time: u32)
        requires later { self.old.time ≤ time }
        requires young { All (IsYoung self.old.ages time) self.old.pairs }
        ensures { self.new ≡ record self.old { time = time } }
    {
        self.time = time;
    }

    /// How many lists may have items that are due at a time: one for each step of time, or all.
    fn due_lists(&self, time: u32) -> u32
        requires { self.now.time ≤ time }
        ensures { result ≡ min (time - self.now.time) self.now.ages }
    {
        (time - self.time).min(self.lists.heads.len() as u32)
    }

    /// A place of an item that becomes due at a time, if there is one.
    fn first_due(&self, due: u32) -> Option<u32>
        requires later { self.now.time < due }
        requires soon { due ≤ self.now.time + self.now.ages }
        ensures within { IfSome result (λ i. i < length self.now.pairs) }
        ensures due { IfSome result (λ i.
            slice_index (stamps_of self.now.pairs) i + self.now.ages ≡ due) }
        ensures none { IfNone result (All (λ pair. pair.1 + self.now.ages ≢ due) self.now.pairs) }
    {
        self.lists.first(due)
    }

    /// Drops the items that become due at a time, and gives their number.
    fn drop_due<L: Ledger>(&mut self, due: u32, steps: &mut Steps<L>) -> u32
        requires later { self.old.time < due }
        requires soon { due ≤ self.old.time + self.old.ages }
        requires few { length self.old.pairs ≤ MOST_NODES }
        ensures drops { Drops self.old.ages due self.old.pairs self.new.pairs result }
        ensures left { All (λ pair. pair.1 + self.old.ages ≢ due) self.new.pairs }
        ensures spare { self.new.spare ≡ self.old.spare + result }
        ensures time { self.new.time ≡ self.old.time }
        ensures ages { self.new.ages ≡ self.old.ages }
        ensures steps { steps.new ≤ steps.old + 16 * result }
    {
        let mut dropped = 0;
        while let Some(i) = self.first_due(due) {
            self.remove(i, steps);
            dropped += 1;
        }
        dropped
    }
}
