//! Changes of the ring, the index and the list of the torrents together, so that they go on telling
//! of the same torrents.

ghost use Rattle.std.specs.Prelude.{◌≡◌, ℕ, ◌+◌, ◌<◌, ◌≤◌, [], ◌∷◌, ◌++◌, All, length, slice_get, swap_remove, Some, None, OnOk, OnErr, vec_len};
ghost use Rattle.std.specs.Vec.{vec_capacity};
ghost use Rattle.age_ring.specs.Ring.{IsYoung, items_of};
ghost use Rattle.ot_base.specs.declared.hash.InfoHash.{InfoHash};
ghost use Rattle.tracker_model.specs.Shape.{Torrent};
ghost use Rattle.tracker_model.specs.declared.limits.TheConstants.{TORRENT_MINUTES};
ghost use Rattle.bucket.specs.Index.{IsIndexed, place_in};
ghost use Rattle.bucket.specs.Changes.{Drops, DropsUnknown, KeepsClock};
ghost use Rattle.bucket.specs.Stored.{torrent_by};
ghost use Rattle.bucket.specs.Table.{torrents_by};
ghost use Rattle.bucket.specs.declared.stored.Stored.{Stored};
ghost use Rattle.node_table.specs.declared.table.TheConstants.{MOST_NODES};

use crate::index::Index;
use crate::stored::Stored;
use age_ring::AgeRing;
use node_table::Steps;
use ot_base::InfoHash;
use std::alloc::AllocError;
use std::sync::ledger::Ledger;

/// Makes room for a torrent. Where the list has none, its room grows by a quarter of the torrents
/// and four. Only then it may want memory, and want of memory changes nothing that is stored.
fn make_room(ring: &mut AgeRing<InfoHash>, list: &mut Vec<Stored>) -> Result<(), AllocError>
    requires few { length ring.old.pairs < MOST_NODES }
    requires as_many { length list.old.items ≡ length ring.old.pairs }
    ensures ring { ring.new ≡ record ring.old { spare = ring.new.spare } }
    ensures list { list.new.items ≡ list.old.items }
    ensures room { OnOk result (1 ≤ ring.new.spare) }
    ensures place { OnOk result (vec_len list.new < vec_capacity list.new) }
{
    ring.reserve()?;
    let len = list.len();
    if len < list.capacity() {
        return Ok(());
    }
    list.reserve_exact(len / 4 + 4)
}

/// Puts a torrent last, touched at the ring's time. Want of memory changes no torrent.
pub fn add_last<L: Ledger>(
    ring: &mut AgeRing<InfoHash>,
    index: &mut Index,
    list: &mut Vec<Stored>,
    hash: InfoHash,
    stored: Stored,
    steps: &mut Steps<L>,
) -> Result<(), AllocError>
    requires indexed { IsIndexed (items_of ring.old.pairs) (place_in index.old) }
    requires as_many { length list.old.items ≡ length ring.old.pairs }
    requires unknown { place_in index.old hash ≡ None }
    requires few { length ring.old.pairs < MOST_NODES }
    ensures torrents { OnOk result (torrents_by ring.new.pairs list.new.items ≡
        torrents_by ring.old.pairs list.old.items ++
        torrent_by (hash, ring.old.time) stored ∷ []) }
    ensures list { OnOk result (list.new.items ≡ list.old.items ++ stored ∷ []) }
    ensures pairs { OnOk result (ring.new.pairs ≡
        ring.old.pairs ++ (hash, ring.old.time) ∷ []) }
    ensures err_pairs { OnErr result (ring.new.pairs ≡ ring.old.pairs) }
    ensures err_list { OnErr result (list.new.items ≡ list.old.items) }
    ensures indexed { IsIndexed (items_of ring.new.pairs) (place_in index.new) }
    ensures clock { KeepsClock ring.old ring.new }
{
    make_room(ring, list)?;
    index.add(hash, ring.len())?;
    ring.insert(hash, steps);
    list.push_reserved(stored);
    Ok(())
}

/// Takes out the torrent at a place: the last one moves there.
pub fn remove_at<L: Ledger>(
    ring: &mut AgeRing<InfoHash>,
    index: &mut Index,
    list: &mut Vec<Stored>,
    at: u32,
    steps: &mut Steps<L>,
)
    requires indexed { IsIndexed (items_of ring.old.pairs) (place_in index.old) }
    requires as_many { length list.old.items ≡ length ring.old.pairs }
    requires within { at < length ring.old.pairs }
    ensures torrents { (t : Torrent) → torrents_by ring.new.pairs list.new.items ≡
        swap_remove (torrents_by ring.old.pairs list.old.items) at t }
    ensures list { (s : Stored) → list.new.items ≡ swap_remove list.old.items at s }
    ensures pairs { (pair : InfoHash × ℕ) → ring.new.pairs ≡ swap_remove ring.old.pairs at pair }
    ensures len { length ring.new.pairs + 1 ≡ length ring.old.pairs }
    ensures as_many { length list.new.items ≡ length ring.new.pairs }
    ensures indexed { IsIndexed (items_of ring.new.pairs) (place_in index.new) }
    ensures clock { KeepsClock ring.old ring.new }
{
    let hash = ring.remove(at, steps);
    index.take(&hash);
    if at < ring.len() {
        let moved = ring.item(at);
        index.move_to(&moved, at);
    }
    list.swap_remove(at as usize);
}

/// Takes out each torrent that isn't known at a minute.
pub fn drop_due<L: Ledger>(
    ring: &mut AgeRing<InfoHash>,
    index: &mut Index,
    list: &mut Vec<Stored>,
    minute: u32,
    steps: &mut Steps<L>,
)
    requires indexed { IsIndexed (items_of ring.old.pairs) (place_in index.old) }
    requires as_many { length list.old.items ≡ length ring.old.pairs }
    requires ages { ring.old.ages ≡ TORRENT_MINUTES }
    requires later { ring.old.time ≤ minute }
    ensures drops { DropsUnknown minute (torrents_by ring.old.pairs list.old.items)
        (torrents_by ring.new.pairs list.new.items) }
    ensures list { Drops (λ _. Unit {0}) list.old.items list.new.items }
    ensures young { All (IsYoung TORRENT_MINUTES minute) ring.new.pairs }
    ensures as_many { length list.new.items ≡ length ring.new.pairs }
    ensures indexed { IsIndexed (items_of ring.new.pairs) (place_in index.new) }
    ensures clock { KeepsClock ring.old ring.new }
{
    while let Some(at) = ring.next_due(minute) {
        remove_at(ring, index, list, at, steps);
    }
}
