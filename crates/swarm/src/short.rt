//! Endpoints of IPv4 in six bytes each.

ghost use Rattle.std.specs.Prelude.{◌≡◌};
ghost use Rattle.swarm.specs.Short.{beside, endpoint_of, short_cmp, short_of};
ghost use Rattle.swarm.specs.declared.short.Short.{Short};

use ot_base::{Addr, Endpoint};

/// An endpoint of IPv4 in the six bytes that it has on the wire (BEP 23), where an `Endpoint` has
/// room for one of IPv6. They are ordered by address, and then by port.
#[derive(Clone, Copy, PartialEq, Eq, PartialOrd, Ord)]
pub struct Short {
    pub addr: [u8; 4],
    pub port: u16,
}

/// What stands in the place of a short form where there is none: no peer has port 0.
pub const NO_SHORT: Short = Short {
    addr: [0; 4],
    port: 0,
};

impl Short {
    /// The short form of an endpoint, if it is one of IPv4.
    pub fn of(who: &Endpoint) -> Option<Short>
        ensures { result ≡ short_of who.now }
    {
        match who.addr {
            Addr::V4(addr) => Some(Short {
                addr,
                port: who.port,
            }),
            Addr::V6(_) => None,
        }
    }

    /// The short form of an endpoint, or else `NO_SHORT`.
    pub fn beside(who: &Endpoint) -> Short
        ensures { result ≡ beside who.now }
    {
        match Short::of(who) {
            Some(short) => short,
            None => NO_SHORT,
        }
    }

    /// The endpoint.
    pub fn endpoint(self) -> Endpoint
        ensures { result ≡ endpoint_of self }
    {
        Endpoint {
            addr: Addr::V4(self.addr),
            port: self.port,
        }
    }
}

/// Short forms are ordered by address, and then by port: a law, whose body is empty.
pub fn shorts_in_order()
    ensures { (a b : Short) → ⟦<Short as Ord>⟧.cmp a b ≡ short_cmp a b }
{}
