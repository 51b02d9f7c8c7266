//! Hints where torrents stand.

use age_ring::AgeRing;
use ot_base::InfoHash;
use place_hints::Hints;

/// Where the room for hints doesn't fit the torrents of a ring, makes one that does, and hints at
/// each of them.
pub fn fit(hints: &mut Hints, ring: &AgeRing<InfoHash>) {
    if hints.is_fit(ring.len()) {
        return;
    }
    hints.reset(ring.len());
    if !hints.is_fit(ring.len()) {
        return;
    }
    for place in 0..ring.len() {
        hints.set(name_of(&ring.item(place)), place);
    }
}

/// The bits by which a torrent is told. The first bytes of its hash tell its bucket, so others are
/// taken.
pub fn name_of(hash: &InfoHash) -> u64 {
    let bytes = &hash.0;
    u64::from_le_bytes([
        bytes[4], bytes[5], bytes[6], bytes[7], bytes[8], bytes[9], bytes[10], bytes[11],
    ])
}
