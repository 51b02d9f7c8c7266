//! One doubly linked list for each slot of a stamp, over a dense table.

ghost use Rattle.std.specs.Prelude.{◌≡◌, ◌≢◌, ℕ, ◌+◌, ◌%◌, ◌<◌, ◌≤◌, [], ◌∷◌, ◌++◌, All, length, slice_get, slice_index, slice_set, swap_remove, Some, IfOk, IfNone, IfSome};
ghost use Rattle.age_ring.specs.Ring.{items_of, stamps_of};
ghost use Rattle.age_ring.specs.Links.{AreAllLinked, AreLinkedBut, SetsNext, SetsPrev};
ghost use Rattle.age_ring.specs.Links.{heads_after, pairs_of};

use node_table::{NO_PLACE, Node, NodeTable, Steps};
use std::alloc::{AllocError, Global};
use std::sync::ledger::{Blank, Ledger};

/// The nodes, and the first place of each slot's list, or `NO_PLACE`.
#[derive(Drop)]
pub struct Lists<T: Copy> {
    pub nodes: NodeTable<T>,
    pub heads: Vec<u32>,
}

impl<T: Copy> Lists<T> {
    /// Lists with no node, one for each age.
    pub fn new(alloc: Global, ages: u32) -> Result<Self, AllocError>
        requires { 1 ≤ ages }
        ensures nodes { IfOk result (λ lists. lists.nodes.nodes ≡ []) }
        ensures spare { IfOk result (λ lists. lists.nodes.spare ≡ 0) }
        ensures ages { IfOk result (λ lists. length lists.heads.items ≡ ages) }
        ensures linked { IfOk result (λ lists. AreAllLinked lists.nodes.nodes lists.heads.items) }
    {
        let heads = vec![in alloc; NO_PLACE; ages as usize]?;
        Ok(Lists {
            nodes: NodeTable::new(alloc),
            heads,
        })
    }

    /// The item and the stamp at a place.
    pub fn pair<L: Ledger>(&self, i: u32, blank: Blank) -> (T, u32)
        requires within { i < length self.now.nodes.nodes }
        requires name { blank.name ≡ L.name }
        requires parts { blank.parts ≡ L.parts }
        requires counts { 0 < blank.parts }
        ensures item { slice_get (items_of (pairs_of self.now.nodes.nodes)) i ≡ Some result.0 }
        ensures stamp { slice_get (stamps_of (pairs_of self.now.nodes.nodes)) i ≡ Some result.1 }
    {
        let node = self.nodes.read(i, &mut Steps::<L>::new(blank));
        (node.item, node.stamp)
    }

    /// The first place of the list of a stamp, if the list has one.
    pub fn first(&self, stamp: u32) -> Option<u32>
        requires { AreAllLinked self.now.nodes.nodes self.now.heads.items }
        ensures within { IfSome result (λ i. i < length self.now.nodes.nodes) }
        ensures slot { IfSome result (λ i.
            slice_index (stamps_of (pairs_of self.now.nodes.nodes)) i % length self.now.heads.items
            ≡ stamp % length self.now.heads.items) }
        ensures none { IfNone result (All
            (λ pair. pair.1 % length self.now.heads.items ≢ stamp % length self.now.heads.items)
            (pairs_of self.now.nodes.nodes)) }
    {
        let slot = stamp as usize % self.heads.len();
        let head = self.heads[slot];
        if head == NO_PLACE { None } else { Some(head) }
    }

    /// Puts an item last in the order, and first in its list. Gives its place.
    pub fn push<L: Ledger>(&mut self, item: T, stamp: u32, steps: &mut Steps<L>) -> u32
        requires spare { 1 ≤ self.old.nodes.spare }
        requires few { length self.old.nodes.nodes < NO_PLACE }
        requires linked { AreAllLinked self.old.nodes.nodes self.old.heads.items }
        ensures place { result ≡ length self.old.nodes.nodes }
        ensures pairs { pairs_of self.new.nodes.nodes ≡
            pairs_of self.old.nodes.nodes ++ (item, stamp) ∷ [] }
        ensures spare { self.new.nodes.spare + 1 ≡ self.old.nodes.spare }
        ensures ages { length self.new.heads.items ≡ length self.old.heads.items }
        ensures linked { AreAllLinked self.new.nodes.nodes self.new.heads.items }
        ensures steps { steps.new ≤ steps.old + 4 }
    {
        let node = Node {
            item,
            stamp,
            prev: NO_PLACE,
            next: NO_PLACE,
        };
        let place = self.nodes.push(node, steps);
        self.link_first(place, item, stamp, steps);
        place
    }

    /// Takes a place out of its list, and leaves the node.
    pub fn unlink<L: Ledger>(&mut self, i: u32, steps: &mut Steps<L>) -> T
        requires within { i < length self.old.nodes.nodes }
        requires linked { AreAllLinked self.old.nodes.nodes self.old.heads.items }
        ensures item { slice_get (items_of (pairs_of self.old.nodes.nodes)) i ≡ Some result }
        ensures pairs { pairs_of self.new.nodes.nodes ≡ pairs_of self.old.nodes.nodes }
        ensures spare { self.new.nodes.spare ≡ self.old.nodes.spare }
        ensures ages { length self.new.heads.items ≡ length self.old.heads.items }
        ensures linked { AreLinkedBut i self.new.nodes.nodes self.new.heads.items }
        ensures steps { steps.new ≤ steps.old + 5 }
    {
        let node = self.nodes.read(i, steps);
        self.set_next(node.prev, node.stamp, node.next, steps);
        self.set_prev(node.next, node.prev, steps);
        node.item
    }

    /// Puts an item at a place that isn't linked, and the place first in the list of the stamp.
    pub fn link_first<L: Ledger>(&mut self, i: u32, item: T, stamp: u32, steps: &mut Steps<L>)
        requires within { i < length self.old.nodes.nodes }
        requires linked { AreLinkedBut i self.old.nodes.nodes self.old.heads.items }
        ensures pairs { pairs_of self.new.nodes.nodes ≡
            slice_set (pairs_of self.old.nodes.nodes) i (item, stamp) }
        ensures spare { self.new.nodes.spare ≡ self.old.nodes.spare }
        ensures ages { length self.new.heads.items ≡ length self.old.heads.items }
        ensures linked { AreAllLinked self.new.nodes.nodes self.new.heads.items }
        ensures steps { steps.new ≤ steps.old + 3 }
    {
        let slot = stamp as usize % self.heads.len();
        let next = self.heads[slot];
        self.set_prev(next, i, steps);
        let node = Node {
            item,
            stamp,
            prev: NO_PLACE,
            next,
        };
        self.nodes.write(i, node, steps);
        self.heads[slot] = i;
    }

    /// Drops the node at a place that isn't linked: the last one moves there.
    pub fn close_gap<L: Ledger>(&mut self, i: u32, steps: &mut Steps<L>)
        requires within { i < length self.old.nodes.nodes }
        requires linked { AreLinkedBut i self.old.nodes.nodes self.old.heads.items }
        ensures pairs { (pair : T × ℕ) → pairs_of self.new.nodes.nodes ≡
            swap_remove (pairs_of self.old.nodes.nodes) i pair }
        ensures spare { self.new.nodes.spare ≡ self.old.nodes.spare + 1 }
        ensures ages { length self.new.heads.items ≡ length self.old.heads.items }
        ensures linked { AreAllLinked self.new.nodes.nodes self.new.heads.items }
        ensures steps { steps.new ≤ steps.old + 7 }
    {
        self.nodes.swap_remove(i, steps);
        if i < self.nodes.len() {
            let moved = self.nodes.read(i, steps);
            self.set_next(moved.prev, moved.stamp, i, steps);
            self.set_prev(moved.next, i, steps);
        }
    }

    /// Lets a place follow another, or come first in the list of the stamp.
    fn set_next<L: Ledger>(&mut self, prev: u32, stamp: u32, next: u32, steps: &mut Steps<L>)
        requires within { prev ≢ NO_PLACE → prev < length self.old.nodes.nodes }
        requires few { length self.old.nodes.nodes ≤ NO_PLACE }
        requires ages { 1 ≤ length self.old.heads.items }
        ensures nodes { SetsNext self.old.nodes.nodes self.new.nodes.nodes prev next }
        ensures spare { self.new.nodes.spare ≡ self.old.nodes.spare }
        ensures heads { self.new.heads.items ≡
            heads_after prev (stamp % length self.old.heads.items) next self.old.heads.items }
        ensures steps { steps.new ≤ steps.old + 2 }
    {
        if prev == NO_PLACE {
            let slot = stamp as usize % self.heads.len();
            self.heads[slot] = next;
        } else {
            let node = self.nodes.read(prev, steps);
            self.nodes.write(prev, Node { next, ..node }, steps);
        }
    }

    /// Lets a place come before another, if there is that other.
    fn set_prev<L: Ledger>(&mut self, next: u32, prev: u32, steps: &mut Steps<L>)
        requires within { next ≢ NO_PLACE → next < length self.old.nodes.nodes }
        requires few { length self.old.nodes.nodes ≤ NO_PLACE }
        ensures nodes { SetsPrev self.old.nodes.nodes self.new.nodes.nodes next prev }
        ensures spare { self.new.nodes.spare ≡ self.old.nodes.spare }
        ensures heads { self.new.heads.items ≡ self.old.heads.items }
        ensures steps { steps.new ≤ steps.old + 2 }
    {
        if next != NO_PLACE {
            let node = self.nodes.read(next, steps);
            self.nodes.write(next, Node { prev, ..node }, steps);
        }
    }
}
