//! What an outside in memory hands out and takes back.

ghost use Rattle.std.specs.Prelude.{◌≤◌, vec_len, vec_capacity};

use crate::outside::Made;
use std::alloc::{AllocError, Global};
use std::mem;

/// Objects that are handed out in order, and those that came back.
#[derive(Debug, Drop)]
pub struct Lender<T> {
    pub(crate) unused: Vec<T>,
    pub(crate) back: Vec<T>,
    /// How many were handed out.
    pub(crate) made: usize,
    pub ghost within: { vec_len back ≤ made },
    ghost reserved: { made ≤ vec_capacity back },
}

impl<T: Drop> Lender<T> {
    ghost use Rattle.std.specs.Prelude.{◌≡◌, ◌<◌, ◌≤◌, ◌+◌, ◌↔◌, ◌∷◌, ◌++◌, [], OnErr, OnOk};
    ghost use Rattle.std.specs.Prelude.{length, vec_len};
    ghost use Rattle.ot_io.specs.Lender.{HandsOut};

    /// Nothing to hand out.
    pub(crate) fn new(alloc: Global) -> Self
        ensures unused { result.unused.items ≡ [] }
        ensures back { result.back.items ≡ [] }
        ensures made { result.made ≡ 0 }
    {
        Lender {
            unused: Vec::new(alloc),
            back: Vec::new(alloc),
            made: 0,
        }
    }

    /// One more to hand out, after the others. After an error nothing has changed.
    pub(crate) fn add(&mut self, one: T) -> Result<(), AllocError>
        ensures added { OnOk result (self.new.unused.items ≡ self.old.unused.items ++ one ∷ []) }
        ensures unchanged { OnErr result (self.new.unused.items ≡ self.old.unused.items) }
        ensures back { self.new.back ≡ self.old.back }
        ensures made { self.new.made ≡ self.old.made }
    {
        self.unused.push(one)?;
        Ok(())
    }

    /// Hands out the first so many, and takes room for their coming back.
    pub(crate) fn hand_out(&mut self, count: usize) -> Made<Vec<T>>
        ensures handed { HandsOut self.old self.new count result }
        ensures back { self.new.back.items ≡ self.old.back.items }
        ensures too_many { (result ≡ Made.Failed) ↔ (vec_len self.old.unused < count) }
    {
        if self.unused.len() < count {
            return Made::Failed;
        }
        let out = self.made - self.back.len();
        let Some(room) = out.checked_add(count) else {
            return Made::NoMemory;
        };
        if self.back.reserve(room).is_err() {
            return Made::NoMemory;
        }
        match self.unused.split_off(count) {
            Ok(others) => {
                self.made += count;
                Made::Got(mem::replace(&mut self.unused, others))
            }
            Err(_) => Made::NoMemory,
        }
    }

    /// Takes one back, unless all came back: then it is let go.
    pub(crate) fn take_back(&mut self, one: T)
        ensures back { length self.old.back.items < self.old.made
            → self.new.back.items ≡ self.old.back.items ++ one ∷ [] }
        ensures full { self.old.made ≤ length self.old.back.items
            → self.new.back.items ≡ self.old.back.items }
        ensures made { self.new.made ≡ self.old.made }
        ensures unused { self.new.unused ≡ self.old.unused }
    {
        if self.back.len() < self.made {
            match self.back.push(one) {
                Ok(()) => {}
                Err(_) => unreachable!(),
            }
        }
    }
}
