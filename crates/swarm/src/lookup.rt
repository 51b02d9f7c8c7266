//! Where an endpoint stands.

ghost use Rattle.std.specs.Prelude.{◌≡◌, ◌≢◌, ℕ, ◌<◌, IfNone, IfSome, IsTrue, Some, length, slice_get, sum_by};
ghost use Rattle.age_ring.specs.Ring.{items_of};
ghost use Rattle.swarm.specs.Index.{place_in};
ghost use Rattle.swarm.specs.Members.{AreKept};
ghost use Rattle.swarm.specs.Peers.{one_if};

use crate::hints::name_of;
use crate::index::{Index, Place};
use crate::order::Order;
use ot_base::Endpoint;
use ot_base::laws::equal_endpoints;
use place_hints::{FEW, Hints};

/// Where an endpoint stands, and whether it is a seed. The index is only asked about one that the
/// hints don't lead to, and of a few peers the order tells: the memory of the index mostly wasn't
/// used for long.
pub fn find(
    order: &Order,
    index: &Index,
    flags: &[bool],
    hints: &Hints,
    seeds: u32,
    who: &Endpoint,
) -> Option<Place>
    requires { AreKept order.now (place_in index.now) flags.now seeds }
    ensures { result ≡ place_in index.now who.now }
{
    if order.len() <= FEW {
        let at = look_through(order, who)?;
        let seed = is_seed(flags, seeds, at);
        return Some(Place { at, seed });
    }
    match hinted(order, hints, who) {
        Some(at) => {
            let seed = is_seed(flags, seeds, at);
            Some(Place { at, seed })
        }
        None => index.get(who),
    }
}

/// The flag at a place. Where all are seeds or none is, their number tells.
fn is_seed(flags: &[bool], seeds: u32, at: u32) -> bool
    requires within { at < length flags.now }
    requires counted { seeds ≡ sum_by one_if flags.now }
    ensures { slice_get flags.now at ≡ Some result }
{
    if seeds == 0 {
        false
    } else if seeds as usize == flags.len() {
        true
    } else {
        flags[at as usize]
    }
}

/// The place that is hinted at, where the endpoint stands there.
fn hinted(order: &Order, hints: &Hints, who: &Endpoint) -> Option<u32>
    ensures { IfSome result (λ i. slice_get (items_of order.now.pairs) i ≡ Some who.now) }
{
    let at = hints.get(name_of(who))?;
    if !stands_at(order, who, at) {
        return None;
    }
    Some(at)
}

/// Whether there is a place of that number, and an endpoint stands there.
pub fn stands_at(order: &Order, who: &Endpoint, i: u32) -> bool
    ensures { IsTrue result → slice_get (items_of order.now.pairs) i ≡ Some who.now }
{
    equal_endpoints();
    i < order.len() && order.item(i) == *who
}

/// The place of an endpoint, by a look at each from the first to the last.
fn look_through(order: &Order, who: &Endpoint) -> Option<u32>
    ensures found { IfSome result (λ i. slice_get (items_of order.now.pairs) i ≡ Some who.now) }
    ensures nowhere { IfNone result
        ((i : ℕ) → slice_get (items_of order.now.pairs) i ≢ Some who.now) }
{
    equal_endpoints();
    for i in 0..order.len() {
        if order.item(i) == *who {
            return Some(i);
        }
    }
    None
}
