//! Changes of an order, its index and its flags together, so that the index goes on telling where
//! each endpoint stands, and the flags which are seeds.

ghost use Rattle.std.specs.Prelude.{◌≡◌, ◌+◌, ◌*◌, ◌<◌, ◌≤◌, [], ◌∷◌, ◌++◌, All, length, sum_by, slice_get, slice_set, swap_remove, Some, None, OnOk, OnErr};
ghost use Rattle.age_ring.specs.Ring.{IsYoung, items_of};
ghost use Rattle.node_table.specs.declared.table.TheConstants.{MOST_NODES};
ghost use Rattle.ot_base.specs.declared.peer.Held.{Held};
ghost use Rattle.swarm.specs.Index.{IsIndexed, Puts, place_in, with_seed};
ghost use Rattle.swarm.specs.Members.{Expires, KeepsClock, flags_of, peers_by};
ghost use Rattle.swarm.specs.Peers.{one_if as one_if_lem, seed_one};

use crate::index::{Index, Place};
use crate::members::{MOST_PEERS, PEER_AGES};
use crate::order::Order;
use node_table::Steps;
use ot_base::{Endpoint, Held, Minute};
use std::alloc::AllocError;
use std::sync::ledger::Ledger;

/// Puts a new endpoint last. Want of memory changes no peer.
pub fn add_last<L: Ledger>(
    order: &mut Order,
    index: &mut Index,
    flags: &mut Vec<bool>,
    who: Endpoint,
    seed: bool,
    steps: &mut Steps<L>,
) -> Result<(), AllocError>
    requires indexed { IsIndexed (items_of order.old.pairs) (place_in index.old) }
    requires unknown { place_in index.old who ≡ None }
    requires few { length order.old.pairs < MOST_NODES }
    ensures ok { OnOk result (peers_by (place_in index.new) order.new.pairs ≡
        peers_by (place_in index.old) order.old.pairs ++
        (record { who = who; seed = seed; stamp = record { 0 = order.old.time } }) ∷ []) }
    ensures flags { OnOk result (flags.new.items ≡ flags.old.items ++ seed ∷ []) }
    ensures err_flags { OnErr result (flags.new.items ≡ flags.old.items) }
    ensures one_more { OnOk result (length order.new.pairs ≡ length order.old.pairs + 1) }
    ensures err { OnErr result (peers_by (place_in index.new) order.new.pairs ≡
        peers_by (place_in index.old) order.old.pairs) }
    ensures err_pairs { OnErr result (order.new.pairs ≡ order.old.pairs) }
    ensures indexed { IsIndexed (items_of order.new.pairs) (place_in index.new) }
    ensures clock { KeepsClock order.old order.new }
    ensures steps { steps.new ≤ steps.old + 16 }
{
    order.reserve()?;
    flags.reserve(1)?;
    let place = Place {
        at: order.len(),
        seed,
    };
    index.add(who, place)?;
    order.insert(who, steps);
    flags.push_reserved(seed);
    Ok(())
}

/// Renews the endpoint that stands at a place, and sets whether it is a seed.
pub fn renew_at<L: Ledger>(
    order: &mut Order,
    index: &mut Index,
    flags: &mut Vec<bool>,
    who: &Endpoint,
    place: Place,
    seed: bool,
    steps: &mut Steps<L>,
)
    requires indexed { IsIndexed (items_of order.old.pairs) (place_in index.old) }
    requires known { place_in index.old who.now ≡ Some place }
    requires flags { flags.old.items ≡
        flags_of (peers_by (place_in index.old) order.old.pairs) }
    ensures peers { peers_by (place_in index.new) order.new.pairs ≡
        slice_set (peers_by (place_in index.old) order.old.pairs) place.at
        (record { who = who.now; seed = seed; stamp = record { 0 = order.old.time } }) }
    ensures flags { flags.new.items ≡
        flags_of (peers_by (place_in index.new) order.new.pairs) }
    ensures len { length order.new.pairs ≡ length order.old.pairs }
    ensures indexed { IsIndexed (items_of order.new.pairs) (place_in index.new) }
    ensures clock { KeepsClock order.old order.new }
    ensures steps { steps.new ≤ steps.old + 16 }
{
    order.renew(place.at, steps);
    set_seed(index, flags, who, place, seed);
}

/// Sets whether the endpoint that has a place is a seed. Where it stays as it was, the index isn't
/// searched again.
fn set_seed(index: &mut Index, flags: &mut Vec<bool>, who: &Endpoint, place: Place, seed: bool)
    requires known { place_in index.old who.now ≡ Some place }
    requires flag { slice_get flags.old.items place.at ≡ Some place.seed }
    ensures puts { Puts (place_in index.old) (place_in index.new) who.now
        (with_seed seed (place_in index.old who.now)) }
    ensures flags { flags.new.items ≡ slice_set flags.old.items place.at seed }
{
    if seed != place.seed {
        index.set_seed(who, seed);
        flags[place.at as usize] = seed;
    }
}

/// Takes out the peer at a place: the last one moves there.
pub fn remove_at<L: Ledger>(
    order: &mut Order,
    index: &mut Index,
    flags: &mut Vec<bool>,
    at: u32,
    steps: &mut Steps<L>,
) -> Held
    requires indexed { IsIndexed (items_of order.old.pairs) (place_in index.old) }
    requires flags { flags.old.items ≡
        flags_of (peers_by (place_in index.old) order.old.pairs) }
    requires within { at < length order.old.pairs }
    ensures value { slice_get (peers_by (place_in index.old) order.old.pairs) at ≡ Some result }
    ensures peers { (d : Held) → peers_by (place_in index.new) order.new.pairs ≡
        swap_remove (peers_by (place_in index.old) order.old.pairs) at d }
    ensures flags { flags.new.items ≡
        flags_of (peers_by (place_in index.new) order.new.pairs) }
    ensures len { length order.new.pairs + 1 ≡ length order.old.pairs }
    ensures indexed { IsIndexed (items_of order.new.pairs) (place_in index.new) }
    ensures clock { KeepsClock order.old order.new }
    ensures steps { steps.new ≤ steps.old + 16 }
{
    let stamp = Minute(order.stamp(at));
    let who = order.remove(at, steps);
    let seed = index.take(&who);
    flags.swap_remove(at as usize);
    if at < order.len() {
        let moved = order.item(at);
        index.move_to(&moved, at);
    }
    Held { who, seed, stamp }
}

/// Takes out each peer that isn't young at a time, and tells how many of them were seeds.
pub fn drop_due<L: Ledger>(
    order: &mut Order,
    index: &mut Index,
    flags: &mut Vec<bool>,
    time: u32,
    steps: &mut Steps<L>,
) -> u32
    requires indexed { IsIndexed (items_of order.old.pairs) (place_in index.old) }
    requires flags { flags.old.items ≡
        flags_of (peers_by (place_in index.old) order.old.pairs) }
    requires few { length order.old.pairs ≤ MOST_PEERS }
    requires ages { order.old.ages ≡ PEER_AGES }
    requires later { order.old.time ≤ time }
    ensures expires { Expires time (peers_by (place_in index.old) order.old.pairs)
        (peers_by (place_in index.new) order.new.pairs) }
    ensures young { All (IsYoung PEER_AGES time) order.new.pairs }
    ensures seeds { result + sum_by seed_one (peers_by (place_in index.new) order.new.pairs) ≡
        sum_by seed_one (peers_by (place_in index.old) order.old.pairs) }
    ensures flags { flags.new.items ≡
        flags_of (peers_by (place_in index.new) order.new.pairs) }
    ensures len { length order.new.pairs ≤ length order.old.pairs }
    ensures indexed { IsIndexed (items_of order.new.pairs) (place_in index.new) }
    ensures clock { KeepsClock order.old order.new }
    ensures steps { steps.new + 16 * length order.new.pairs ≤
        steps.old + 16 * length order.old.pairs }
{
    let mut seeds = 0;
    while let Some(i) = order.next_due(time) {
        let peer = remove_at(order, index, flags, i, steps);
        seeds += one_if(peer.seed);
    }
    seeds
}

/// 1 for a seed.
pub fn one_if(seed: bool) -> u32
    ensures { result ≡ one_if_lem seed }
{
    u32::from(seed)
}
