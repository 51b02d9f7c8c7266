//! Connection ids (BEP 15), by which a client shows that it gets what is sent to its address. The
//! tracker keeps none of them: each is computed again from the tracker's secret, the address and
//! the minute.
#![tactic(auto)]

ghost use Rattle.std.specs.Prelude.{◌≡◌, ◌≤◌, length, take};
ghost use Rattle.std.specs.Int.{w64, from_be_bytes};
ghost use Rattle.conn_id.specs.ConnectionId.{mint_of, is_minted, accepted_id};

use ot_base::{Addr, Minute, Secret};
use sha1::Sha1;

#[cfg(test)]
mod tests;

/// The id for an address in a minute: the first 8 bytes, as a number in network order, of the SHA-1
/// (FIPS 180-4) of the secret, the address as 16 bytes and the minute as 8 bytes in network order.
#[tactic(auto, unfolding(crate::specs::ConnectionId::mint_of))]
pub fn mint(secret: &Secret, addr: Addr, minute: Minute) -> u64
    ensures { result ≡ mint_of secret.now addr minute }
{
    let mut hasher = Sha1::new();
    hasher.update(&secret.0);
    hasher.update(&addr.wide());
    hasher.update(&u64::from(minute.0).to_be_bytes());
    first_number(&hasher.finalize())
}

/// Whether an id is that of the address for this minute, or for one of the two before: so an id
/// serves for two minutes at least, as BEP 15 asks, and for less than three. Before minute 0 there
/// is none.
///
/// An id of this minute costs one SHA-1, any other up to three.
#[tactic(auto, unfolding(crate::specs::ConnectionId::accepted_id))]
pub fn check(secret: &Secret, addr: Addr, minute: Minute, id: u64) -> bool
    ensures { result ≡ accepted_id secret.now addr minute id }
{
    minted_ago(secret, addr, minute, 0, id)
        || minted_ago(secret, addr, minute, 1, id)
        || minted_ago(secret, addr, minute, 2, id)
}

/// Whether an id is that of the address for the minute so many minutes ago.
fn minted_ago(secret: &Secret, addr: Addr, minute: Minute, age: u32, id: u64) -> bool
    ensures { result ≡ is_minted secret.now addr minute age id }
{
    age <= minute.0 && mint(secret, addr, Minute(minute.0 - age)) == id
}

/// The number that the first 8 bytes of a digest make.
fn first_number(digest: &[u8; 20]) -> u64
    ensures { result ≡ from_be_bytes w64 (take 8 digest.now) }
{
    let field = &digest[..8];
    u64::from_be_bytes([
        field[0], field[1], field[2], field[3], field[4], field[5], field[6], field[7],
    ])
}
