//! Laws of the types: each function's contract is the law, and its body is empty.

ghost use Rattle.std.specs.Prelude.{◌≡◌, ◌↔◌, IsTrue};
ghost use Rattle.ot_base.specs.Address.{address_of_six, wide_bytes, IsRead};
ghost use Rattle.ot_base.specs.Order.{hash_cmp, endpoint_cmp};
ghost use Rattle.ot_base.specs.Same.{same_hash, same_address, same_endpoint};
ghost use Rattle.ot_base.specs.declared.address.Addr.{Addr};
ghost use Rattle.ot_base.specs.declared.address.Endpoint.{Endpoint};
ghost use Rattle.ot_base.specs.declared.hash.InfoHash.{InfoHash};

use crate::{Endpoint, InfoHash};

/// The 16 bytes of an address name it again, unless it is an IPv4-mapped IPv6 address.
pub fn address_again()
    ensures { (a : Addr) → IsRead a → address_of_six (wide_bytes a) ≡ a }
{}

/// Hashes compare equal exactly where they are.
pub fn equal_hashes()
    ensures compared { (a b : InfoHash) → ⟦<InfoHash as PartialEq>⟧.eq a b ≡ same_hash a b }
    ensures same { (a b : InfoHash) → IsTrue (same_hash a b) ↔ (a ≡ b) }
{}

/// Endpoints compare equal exactly where they are.
pub fn equal_endpoints()
    ensures compared { (a b : Endpoint) → ⟦<Endpoint as PartialEq>⟧.eq a b ≡ same_endpoint a b }
    ensures same { (a b : Endpoint) → IsTrue (same_endpoint a b) ↔ (a ≡ b) }
{}

/// Hashes are ordered by bytes.
pub fn hashes_in_order()
    ensures { (a b : InfoHash) → ⟦<InfoHash as Ord>⟧.cmp a b ≡ hash_cmp a b }
{}

/// Endpoints are ordered by address, all of IPv4 first, and then by port.
pub fn endpoints_in_order()
    ensures { (a b : Endpoint) → ⟦<Endpoint as Ord>⟧.cmp a b ≡ endpoint_cmp a b }
{}
