//! Which peers an asker is told.

ghost use Rattle.std.specs.Prelude.{◌≡◌, ◌<◌, ◌≤◌, [], IfSome, length, map, min, slice_index_or};
ghost use Rattle.age_ring.specs.Ring.{items_of};
ghost use Rattle.node_table.specs.declared.table.TheConstants.{MOST_NODES};
ghost use Rattle.ot_base.specs.Address.{no_endpoint};
ghost use Rattle.pick.specs.Picks.{picks};
ghost use Rattle.swarm.specs.Peers.{place_past, without};

use crate::order::Order;
use ot_base::Peers;
use pick::{passing, pick};

/// Adds to an empty list the items that the words choose among those that don't stand at a place.
pub fn choose_others(
    order: &Order,
    place: Option<u32>,
    want: u32,
    words: &[u32; 200],
    peers: &mut Peers,
)
    requires within { IfSome place (λ i. i < length order.now.pairs) }
    requires few { want ≤ 200 }
    requires empty { peers.old ≡ [] }
    ensures { let rest = without place (items_of order.now.pairs) in
        peers.new ≡ map (λ p. slice_index_or rest p no_endpoint)
        (picks words.now (length rest) (min want (length rest))) }
{
    let others = others_count(order, place);
    let picks = pick(words, others, want.min(others));
    for position in picks.as_slice() {
        let i = passing_over(place, *position);
        peers.push(order.item(i));
    }
}

/// How many items don't stand at a place.
fn others_count(order: &Order, place: Option<u32>) -> u32
    requires { IfSome place (λ i. i < length order.now.pairs) }
    ensures count { result ≡ length (without place (items_of order.now.pairs)) }
    ensures most { result ≤ MOST_NODES }
{
    match place {
        Some(_) => order.len() - 1,
        None => order.len(),
    }
}

/// Where an item stands that stands at a position among those that don't stand at a place.
fn passing_over(place: Option<u32>, position: u32) -> u32
    requires { position < MOST_NODES }
    ensures { result ≡ place_past place position }
{
    match place {
        Some(gap) => passing(gap, position),
        None => position,
    }
}
