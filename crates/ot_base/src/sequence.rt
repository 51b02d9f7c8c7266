//! Lists that grow.

ghost use Rattle.std.specs.Prelude.{◌≡◌, ◌==◌, ◌<◌, [], ◌∷◌, ◌++◌, length, slice_get};
ghost use Rattle.std.specs.Prelude.{Some, OnOk, OnErr};

use crate::{Endpoint, Held, InfoHash, Note, Row};
use std::alloc::{AllocError, Global};
use std::marker::Model;

/// A list that grows as memory allows. Contracts see its elements in order.
#[derive(Debug, Drop)]
pub struct Sequence<T> {
    elements: Vec<T>,
}

pub type Bytes = Sequence<u8>;

pub type Rows = Sequence<Row>;

pub type Notes = Sequence<Note>;

pub type HeldList = Sequence<Held>;

pub type HashList = Sequence<InfoHash>;

pub type EndpointList = Sequence<Endpoint>;

impl<T> Model for Sequence<T> {
    ghost use Rattle.std.specs.Prelude.{List};

    ghost Value = { List T };

    ghost view = { λ s. s.elements.items };
}

/// The list of a `Vec`'s elements, which takes no memory.
impl<T> From<Vec<T>> for Sequence<T> {
    ghost from_gives = { λ v s. s ≡ v.items };

    fn from(elements: Vec<T>) -> Self {
        Sequence { elements }
    }
}

impl<T> Sequence<T> {
    /// An empty list, which takes no memory.
    pub fn new(alloc: Global) -> Self
        ensures { result ≡ [] }
    {
        Sequence {
            elements: Vec::new(alloc),
        }
    }

    pub fn len(&self) -> usize
        ensures { result ≡ length self.now }
    {
        self.elements.len()
    }

    pub fn is_empty(&self) -> bool
        ensures { result ≡ (length self.now == 0) }
    {
        self.elements.is_empty()
    }

    /// The whole list as a slice.
    pub fn as_slice(&self) -> &[T]
        ensures { result.now ≡ self.now }
    {
        self.elements.as_slice()
    }
}

impl<T: Copy> Sequence<T> {
    /// The element at a place, from 0.
    pub fn get(&self, i: usize) -> T
        requires { i < length self.now }
        ensures { slice_get self.now i ≡ Some result }
    {
        self.elements[i]
    }

    /// Adds an element at the end. Want of memory changes nothing.
    pub fn push(&mut self, element: T) -> Result<(), AllocError>
        ensures ok { OnOk result (self.new ≡ self.old ++ element ∷ []) }
        ensures err { OnErr result (self.new ≡ self.old) }
    {
        self.elements.push(element)?;
        Ok(())
    }
}
