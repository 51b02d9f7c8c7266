//! The hints.

use std::alloc::Global;

/// In a list of so few items one is looked for from the first to the last. A hint, or an index,
/// would be one more place in memory to wait for.
pub const FEW: u32 = 4;

/// How many hints share a group. A group has 16 bytes, so it mostly lies in one line of a cache.
const GROUP: usize = 4;

/// How many bits of a hint are a place. The others are a tag of the item's name.
const PLACE_BITS: u32 = 20;

/// The greatest place that fits, 1,048,575, which no list of a million items has. It stands where no
/// hint was given yet.
const NOWHERE: u32 = (1 << PLACE_BITS) - 1;

/// For some items the place at which each last stood. An item is told by the bits of its name, or
/// by as many of them as there is room for: two items with the same bits share a hint. The name
/// tells a group, and a tag of twelve bits in it, so the places of others are mostly not given.
#[derive(Drop)]
pub struct Hints {
    /// Their number is a power of two, or 0. In each the hint that was given last stands first.
    groups: Vec<[u32; GROUP]>,
}

impl Hints {
    /// No hints, which take no memory.
    pub fn new(alloc: Global) -> Self {
        Hints {
            groups: Vec::new(alloc),
        }
    }

    /// Where the item of a name may stand.
    pub fn get(&self, name: u64) -> Option<u32> {
        let bits = mixed(name);
        let group = self.groups.get(self.group_of(bits))?;
        for hint in group {
            if tag_of(*hint) == tag_of(bits) {
                return Some(*hint & NOWHERE);
            }
        }
        None
    }

    /// Hints at the place of the item of a name, if there is room for hints. Where its group is
    /// full, the hint that was given first goes.
    pub fn set(&mut self, name: u64, place: u32) {
        let bits = mixed(name);
        let index = self.group_of(bits);
        if let Some(group) = self.groups.get_mut(index) {
            put_first(group, (bits & !NOWHERE) | (place & NOWHERE));
        }
    }

    /// Whether the room is one for so many items: a group for every two of them, and up to four for
    /// each; none for a few.
    pub fn is_fit(&self, items: u32) -> bool {
        let groups = self.groups.len();
        if items <= FEW {
            return groups == 0;
        }
        let items = items as usize;
        items <= groups.saturating_mul(2) && groups <= 4 * items
    }

    /// Drops all hints, and makes room for so many items: a group for every two of them, or up to
    /// twice as many. Want of memory leaves none.
    pub fn reset(&mut self, items: u32) {
        self.groups.clear();
        self.groups.shrink_to_fit();
        if items > FEW {
            let count = (items as usize).next_power_of_two() / 2;
            // Where there is no memory there are no hints until the next time.
            let _ = self.groups.resize(count, [NOWHERE; GROUP]);
        }
    }

    /// Which group the mixed bits of a name tell, if there is any.
    fn group_of(&self, bits: u32) -> usize {
        bits as usize & self.groups.len().wrapping_sub(1)
    }
}

/// The bits of a name, mixed so that names which follow each other have groups and tags of their
/// own: the middle of the product by 2^64 divided by the golden ratio (Knuth), folded once.
fn mixed(name: u64) -> u32 {
    let product = name.wrapping_mul(0x9e37_79b9_7f4a_7c15);
    let folded = product ^ (product >> 29);
    ((folded >> 20) % (1 << 32)) as u32
}

/// The bits of a hint, or of a name, that tell whether they belong together.
fn tag_of(hint: u32) -> u32 {
    hint >> PLACE_BITS
}

/// Puts a hint first in its group, unless it stands there.
fn put_first(group: &mut [u32; GROUP], hint: u32) {
    if group.contains(&hint) {
        return;
    }
    let mut moved = hint;
    for held in group {
        let next = *held;
        *held = moved;
        if tag_of(next) == tag_of(hint) {
            return;
        }
        moved = next;
    }
}
