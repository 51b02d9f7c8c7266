//! Hints where peers stand.

use crate::order::Order;
use ot_base::{Addr, Endpoint};
use place_hints::Hints;

/// Where the room for hints doesn't fit the endpoints of an order, makes one that does, and hints
/// at each of them.
pub fn fit(hints: &mut Hints, order: &Order) {
    if hints.is_fit(order.len()) {
        return;
    }
    hints.reset(order.len());
    if !hints.is_fit(order.len()) {
        return;
    }
    for place in 0..order.len() {
        hints.set(name_of(&order.item(place)), place);
    }
}

/// The bits by which an endpoint is told: all of one of IPv4, and of IPv6 the port and the sum of
/// both halves of the address.
pub fn name_of(who: &Endpoint) -> u64 {
    let addr = match who.addr {
        Addr::V4(addr) => u64::from(u32::from_be_bytes(addr)),
        Addr::V6(addr) => {
            let bits = u128::from_be_bytes(addr);
            ((bits >> 64) as u64).wrapping_add((bits % (1 << 64)) as u64)
        }
    };
    (addr << 16) ^ u64::from(who.port)
}
