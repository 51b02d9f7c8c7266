//! The hashes that a datagram names, read where they stand in it.

ghost use Rattle.std.specs.Prelude.{◌≡◌, ◌+◌, ◌*◌, ◌≤◌, IfSome, length, max};
ghost use Rattle.udp_wire.specs.Hashes.{hash_at};

use crate::action::SCRAPE;
use crate::field::{info_hash_at, u32_at};
use crate::request::{ACTION, HASH, HEAD};
use ot_base::InfoHash;
use ot_base::in_place::HASHES;
use std::marker::Model;

/// The hashes of a scrape, where they stand in its datagram: they are copied one by one, as they
/// are needed. Contracts see their list.
#[derive(Debug, Drop)]
pub struct ScrapeHashes<'a> {
    datagram: &'a [u8],
    count: usize,
}

impl<'a> Model for ScrapeHashes<'a> {
    ghost use Rattle.std.specs.Prelude.{◌+◌, ◌*◌, ◌≤◌, List, length};
    ghost use Rattle.ot_base.specs.declared.hash.InfoHash.{InfoHash};
    ghost use Rattle.udp_wire.specs.Hashes.{hashes_of};

    ghost Value = { List InfoHash };

    ghost view = { λ h. hashes_of h.count h.datagram.now };

    ghost invariant = { λ h. (h.count ≤ 74) × (16 + 20 * h.count ≤ length h.datagram.now) };
}

impl<'a> ScrapeHashes<'a> {
    ghost use Rattle.std.specs.Prelude.{◌≡◌, ◌-◌, ◌*◌, ◌/◌, ◌<◌, ◌≤◌, length, min, slice_get, Some};
    ghost use Rattle.udp_wire.specs.Hashes.{hashes_of};

    /// The first 74 whole hashes from byte 16 on, as many as there are.
    pub fn within(datagram: &'a [u8]) -> ScrapeHashes<'a>
        requires { HEAD ≤ length datagram.now }
        ensures { result ≡ hashes_of (min ((length datagram.now - 16) / 20) 74) datagram.now }
    {
        let whole = (datagram.len() - HEAD) / HASH;
        ScrapeHashes {
            datagram,
            count: whole.min(HASHES),
        }
    }

    /// How many there are.
    pub fn len(&self) -> usize
        ensures value { result ≡ length self.now }
        ensures most { result ≤ HASHES }
    {
        self.count
    }

    /// The hash at a place, from 0 on.
    pub fn get(&self, i: usize) -> InfoHash
        requires { i < length self.now }
        ensures { slice_get self.now i ≡ Some result }
    {
        info_hash_at(self.datagram, HEAD + HASH * i)
    }
}

/// The i-th hash, from 0 on, that a datagram of any bytes names, if it is a scrape: for those who
/// look ahead to what its calls will need, before it is read and judged.
pub fn hash_ahead(bytes: &[u8], i: usize) -> Option<InfoHash>
    ensures { IfSome result (λ hash. hash ≡ hash_at (HEAD + HASH * i) bytes.now) }
{
    if i >= hashes_ahead(bytes) {
        return None;
    }
    Some(info_hash_at(bytes, HEAD + HASH * i))
}

/// How many hashes a datagram names, if it is a scrape.
fn hashes_ahead(bytes: &[u8]) -> usize
    ensures { HEAD + HASH * result ≤ max HEAD (length bytes.now) }
{
    if bytes.len() < HEAD || u32_at(bytes, ACTION) != SCRAPE {
        return 0;
    }
    ((bytes.len() - HEAD) / HASH).min(HASHES)
}
