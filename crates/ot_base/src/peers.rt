//! The peers that an announce is told.

ghost use Rattle.std.specs.Prelude.{◌≡◌, ◌==◌, ◌<◌, ◌≤◌, [], ◌∷◌, ◌++◌, length, slice_get, Some};

use crate::Endpoint;
use crate::address::NO_ENDPOINT;
use std::marker::Model;

/// How many peers an announce is told at most.
pub const PEERS: usize = 200;

/// At most 200 endpoints, kept in place. Contracts see them in order.
///
/// It is no `InPlace`, since an endpoint has a padding byte: that list would be filled endpoint by
/// endpoint and then copied, in six times the time of one fill of these 4,000 bytes.
#[derive(Debug, Drop)]
pub struct Peers {
    endpoints: [Endpoint; PEERS],
    len: usize,
}

impl Model for Peers {
    ghost use Rattle.std.specs.Prelude.{List, ◌≤◌, take};
    ghost use Rattle.ot_base.specs.declared.address.Endpoint.{Endpoint};

    ghost Value = { List Endpoint };

    ghost view = { λ peers. take peers.len peers.endpoints };

    ghost invariant = { λ peers. peers.len ≤ 200 };
}

impl Peers {
    /// An empty list.
    pub fn new() -> Self
        ensures { result ≡ [] }
    {
        Peers {
            endpoints: [NO_ENDPOINT; PEERS],
            len: 0,
        }
    }

    pub fn len(&self) -> usize
        ensures value { result ≡ length self.now }
        ensures fits { result ≤ PEERS }
    {
        self.as_slice().len()
    }

    pub fn is_empty(&self) -> bool
        ensures { result ≡ (length self.now == 0) }
    {
        self.as_slice().is_empty()
    }

    /// The whole list as a slice.
    pub fn as_slice(&self) -> &[Endpoint]
        ensures value { result.now ≡ self.now }
        ensures fits { length result.now ≤ PEERS }
    {
        &self.endpoints[..self.len]
    }

    /// The endpoint at a place, from 0.
    pub fn get(&self, i: usize) -> Endpoint
        requires { i < length self.now }
        ensures { slice_get self.now i ≡ Some result }
    {
        self.as_slice()[i]
    }

    /// Adds an endpoint at the end, where there is room.
    pub fn push(&mut self, endpoint: Endpoint)
        requires { length self.old < PEERS }
        ensures { self.new ≡ self.old ++ endpoint ∷ [] }
    {
        self.endpoints[self.len] = endpoint;
        self.len += 1;
    }
}

/// An empty list.
impl Default for Peers {
    ghost is_default = { λ peers. peers ≡ [] };

    fn default() -> Self {
        Peers::new()
    }
}
