//! The table and its nodes.

ghost use Rattle.std.specs.Prelude.{◌≡◌, ◌+◌, ◌/◌, ◌<◌, ◌≤◌, ◌↔◌, [], ◌∷◌, ◌++◌, IsTrue, length, max, slice_get, slice_set, swap_remove, Some, OnOk, OnErr};

use crate::steps::Steps;
use std::alloc::{AllocError, Global};
use std::marker::Model;
use std::sync::ledger::Ledger;

/// The place that stands for none, as the neighbour of a node at an end of its list.
pub const NO_PLACE: u32 = 4_294_967_295;

/// How many nodes a table holds at most.
pub const MOST_NODES: u32 = 1_000_000;

/// An item with a stamp, and the places of its neighbours in a list, or `NO_PLACE`.
#[derive(Clone, Copy)]
pub struct Node<T> {
    pub item: T,
    pub stamp: u32,
    pub prev: u32,
    pub next: u32,
}

/// Nodes at the places from 0 on, with no gap. Contracts see the list of the nodes, and the spare
/// room: how many more fit into the memory that the table holds.
#[derive(Drop)]
pub struct NodeTable<T: Copy> {
    nodes: Vec<Node<T>>,
}

impl<T: Copy> Model for NodeTable<T> {
    ghost use Rattle.std.specs.Prelude.{◌-◌, ◌≤◌, length, vec_len};
    ghost use Rattle.std.specs.Vec.{vec_capacity};
    ghost use Rattle.node_table.specs.Table.{Table};
    ghost use Rattle.node_table.specs.declared.table.TheConstants.{MOST_NODES};

    ghost Value = { Table T };

    ghost view = { λ t. record {
      nodes = t.nodes.items;
      spare = vec_capacity t.nodes - length t.nodes.items;
    } };

    ghost invariant = { λ t. vec_capacity t.nodes ≤ MOST_NODES };
}

impl<T: Copy> NodeTable<T> {
    /// A table with no node and no memory.
    pub fn new(alloc: Global) -> Self
        ensures nodes { result.nodes ≡ [] }
        ensures spare { result.spare ≡ 0 }
    {
        NodeTable {
            nodes: Vec::new(alloc),
        }
    }

    /// How many nodes it has.
    pub fn len(&self) -> u32
        ensures len { result ≡ length self.now.nodes }
        ensures most { result + self.now.spare ≤ MOST_NODES }
    {
        self.nodes.len() as u32
    }

    /// Whether it has no node.
    pub fn is_empty(&self) -> bool
        ensures { IsTrue result ↔ (self.now.nodes ≡ []) }
    {
        self.nodes.is_empty()
    }

    /// How many more nodes fit into the memory that it holds.
    pub fn spare(&self) -> u32
        ensures { result ≡ self.now.spare }
    {
        (self.nodes.capacity() - self.nodes.len()) as u32
    }

    /// Makes room for a node at least. Where there is none, the room grows to a quarter of the
    /// nodes and four. Only then it may want memory, and want of memory changes nothing.
    pub fn reserve(&mut self) -> Result<(), AllocError>
        requires { length self.old.nodes < MOST_NODES }
        ensures nodes { self.new.nodes ≡ self.old.nodes }
        ensures room { OnOk result (1 ≤ self.new.spare) }
        ensures quarter { self.new.spare ≤ max self.old.spare (length self.old.nodes / 4 + 4) }
        ensures most { length self.new.nodes + self.new.spare ≤ MOST_NODES }
        ensures err { OnErr result (self.new ≡ self.old) }
        ensures full { OnErr result (self.old.spare ≡ 0) }
    {
        let len = self.nodes.len();
        if len < self.nodes.capacity() {
            return Ok(());
        }
        self.nodes
            .reserve_exact((len / 4 + 4).min(MOST_NODES as usize - len))
    }

    /// Gives back memory that no node uses, all of it where there is no node.
    pub fn shrink(&mut self)
        ensures nodes { self.new.nodes ≡ self.old.nodes }
        ensures spare { self.new.spare ≤ self.old.spare }
        ensures frees { self.old.nodes ≡ [] → self.new.spare ≡ 0 }
    {
        self.nodes.shrink_to_fit();
    }

    /// The node at a place, in one step.
    pub fn read<L: Ledger>(&self, i: u32, steps: &mut Steps<L>) -> Node<T>
        requires { i < length self.now.nodes }
        ensures value { slice_get self.now.nodes i ≡ Some result }
        ensures steps { steps.new ≡ steps.old + 1 }
    {
        steps.tick();
        self.nodes[i as usize]
    }

    /// Puts a node in place of that at a place, in one step.
    pub fn write<L: Ledger>(&mut self, i: u32, node: Node<T>, steps: &mut Steps<L>)
        requires { i < length self.old.nodes }
        ensures nodes { self.new.nodes ≡ slice_set self.old.nodes i node }
        ensures spare { self.new.spare ≡ self.old.spare }
        ensures steps { steps.new ≡ steps.old + 1 }
    {
        steps.tick();
        self.nodes[i as usize] = node;
    }

    /// Puts a node at the end, in one step and with no memory. Gives its place.
    pub fn push<L: Ledger>(&mut self, node: Node<T>, steps: &mut Steps<L>) -> u32
        requires { 1 ≤ self.old.spare }
        ensures place { result ≡ length self.old.nodes }
        ensures nodes { self.new.nodes ≡ self.old.nodes ++ node ∷ [] }
        ensures spare { self.new.spare + 1 ≡ self.old.spare }
        ensures steps { steps.new ≡ steps.old + 1 }
    {
        steps.tick();
        let place = self.nodes.len() as u32;
        self.nodes.push_reserved(node);
        place
    }

    /// Takes out the node at a place, in two steps: the last one moves there.
    pub fn swap_remove<L: Ledger>(&mut self, i: u32, steps: &mut Steps<L>) -> Node<T>
        requires { i < length self.old.nodes }
        ensures value { slice_get self.old.nodes i ≡ Some result }
        ensures nodes { self.new.nodes ≡ swap_remove self.old.nodes i result }
        ensures spare { self.new.spare ≡ self.old.spare + 1 }
        ensures steps { steps.new ≡ steps.old + 2 }
    {
        steps.tick();
        steps.tick();
        self.nodes.swap_remove(i as usize)
    }
}
