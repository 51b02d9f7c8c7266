//! Lists that lie in the value itself and never allocate.

ghost use Rattle.std.specs.Prelude.{◌≡◌, ◌==◌, ◌<◌, ◌≤◌, [], ◌∷◌, ◌++◌, length, slice_get, Some};

use crate::{Counts, InfoHash};
use arrayvec::ArrayVec;
use std::marker::Model;

/// How many hashes a UDP scrape asks for at most.
pub const HASHES: usize = 74;

/// How many bytes a short text has at most.
pub const TEXT: usize = 200;

/// At most `N` elements, kept in place. Contracts see them in order.
///
/// The unused places hold the elements' default. An element with padding bytes is filled in one by
/// one, so a long list of such elements is dear to make.
#[derive(Debug, Drop)]
pub struct InPlace<T, const N: usize> {
    elements: ArrayVec<T, N>,
}

/// The hashes that a UDP scrape asks for.
pub type Hashes = InPlace<InfoHash, HASHES>;

/// The counts of as many torrents as a UDP scrape asks for.
pub type CountList = InPlace<Counts, HASHES>;

/// A short text.
pub type Text = InPlace<u8, TEXT>;

impl<T, const N: usize> Model for InPlace<T, N> {
    ghost use Rattle.std.specs.Prelude.{List};

    ghost Value = { List T };

    ghost view = { λ list. list.elements.items };
}

impl<T: Default, const N: usize> InPlace<T, N> {
    /// An empty list.
    pub fn new() -> Self
        ensures { result ≡ [] }
    {
        InPlace {
            elements: ArrayVec::new(),
        }
    }
}

impl<T, const N: usize> InPlace<T, N> {
    pub fn len(&self) -> usize
        ensures value { result ≡ length self.now }
        ensures fits { result ≤ N }
    {
        self.elements.len()
    }

    pub fn is_empty(&self) -> bool
        ensures { result ≡ (length self.now == 0) }
    {
        self.elements.is_empty()
    }

    /// The whole list as a slice.
    pub fn as_slice(&self) -> &[T]
        ensures value { result.now ≡ self.now }
        ensures fits { length result.now ≤ N }
    {
        self.elements.as_slice()
    }
}

impl<T: Copy, const N: usize> InPlace<T, N> {
    /// The element at a place, from 0.
    pub fn get(&self, i: usize) -> T
        requires { i < length self.now }
        ensures { slice_get self.now i ≡ Some result }
    {
        self.elements.as_slice()[i]
    }

    /// Adds an element at the end, where there is room.
    pub fn push(&mut self, element: T)
        requires { length self.old < N }
        ensures { self.new ≡ self.old ++ element ∷ [] }
    {
        self.elements.push(element);
    }
}

/// An empty list.
impl<T: Default, const N: usize> Default for InPlace<T, N> {
    ghost is_default = { λ list. list ≡ [] };

    fn default() -> Self {
        InPlace::new()
    }
}
