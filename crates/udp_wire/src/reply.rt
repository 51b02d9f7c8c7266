//! What a client is answered. Each writer gives the length of its packet in bytes, and leaves the
//! packet at the front of the buffer.

ghost use Rattle.std.specs.Prelude.{◌≡◌, ◌+◌, ◌*◌, ◌≤◌, ◌++◌, take, length};
ghost use Rattle.std.specs.Int.{w32, to_be_bytes};
ghost use Rattle.udp_wire.specs.Packets.{peer_bytes, peer_len, counts_bytes, AreTellable};
ghost use Rattle.udp_wire.specs.Packets.{connect_reply, announce_head, announce_reply, scrape_reply, error_reply};

use crate::action::{ANNOUNCE, CONNECT, ERROR, SCRAPE};
use crate::field::{put, put_u32};
use ot_base::in_place::HASHES;
use ot_base::{Addr, Counts, Endpoint, Peers, Refusal};

/// How many bytes a reply may have.
pub const REPLY_ROOM: usize = 2048;

/// After how many seconds a client is to announce again.
const INTERVAL: u32 = 1800;

/// Writes the reply to a connect.
#[tactic(auto, unfolding(crate::specs::Packets::connect_reply))]
pub fn write_connect(transaction: u32, connection: u64, out: &mut [u8; REPLY_ROOM]) -> usize
    ensures packet { take result out.new ≡ connect_reply transaction connection }
    ensures fits { result ≤ REPLY_ROOM }
{
    let place = put_head(out, CONNECT, transaction);
    put(out, place, &connection.to_be_bytes())
}

/// Writes the reply to an announce: the counts of its torrent, and some of its peers in order.
/// These are all of one family, and at most 64 where that is IPv6.
#[tactic(auto, unfolding(crate::specs::Packets::announce_reply))]
pub fn write_announce(
    transaction: u32,
    counts: Counts,
    peers: &Peers,
    out: &mut [u8; REPLY_ROOM],
) -> usize
    requires { AreTellable peers.now }
    ensures packet { take result out.new ≡ announce_reply transaction counts peers.now }
    ensures fits { result ≤ REPLY_ROOM }
{
    let mut place = put_counts(out, transaction, counts);
    for peer in peers.as_slice() {
        place = put_peer(out, place, *peer);
    }
    place
}

/// Writes the reply to a scrape: the counts of each of its torrents, 1 to 74 of them, in order.
#[tactic(auto, unfolding(crate::specs::Packets::scrape_reply))]
pub fn write_scrape(transaction: u32, counts: &[Counts], out: &mut [u8; REPLY_ROOM]) -> usize
    requires some { 1 ≤ length counts.now }
    requires room { length counts.now ≤ HASHES }
    ensures packet { take result out.new ≡ scrape_reply transaction counts.now }
    ensures fits { result ≤ REPLY_ROOM }
{
    let mut place = put_head(out, SCRAPE, transaction);
    for group in counts {
        place = put_group(out, place, *group);
    }
    place
}

/// Writes why a request is refused.
#[tactic(auto, unfolding(crate::specs::Packets::error_reply))]
pub fn write_error(transaction: u32, why: Refusal, out: &mut [u8; REPLY_ROOM]) -> usize
    ensures packet { take result out.new ≡ error_reply transaction why }
    ensures fits { result ≤ REPLY_ROOM }
{
    let place = put_head(out, ERROR, transaction);
    put(out, place, why.text().as_bytes())
}

/// Writes what each reply begins with.
fn put_head(out: &mut [u8; REPLY_ROOM], action: u32, transaction: u32) -> usize
    ensures end { result ≡ 8 }
    ensures text { take result out.new ≡ to_be_bytes w32 action ++ to_be_bytes w32 transaction }
{
    let place = put_u32(out, 0, action);
    put_u32(out, place, transaction)
}

/// Writes what stands before the peers in the reply to an announce.
#[tactic(auto, unfolding(crate::specs::Packets::announce_head))]
fn put_counts(out: &mut [u8; REPLY_ROOM], transaction: u32, counts: Counts) -> usize
    ensures end { result ≡ 20 }
    ensures text { take result out.new ≡ announce_head transaction counts }
{
    let place = put_head(out, ANNOUNCE, transaction);
    let place = put_u32(out, place, INTERVAL);
    let place = put_u32(out, place, counts.incomplete);
    put_u32(out, place, counts.complete)
}

/// Writes where a peer listens.
fn put_peer(out: &mut [u8; REPLY_ROOM], place: usize, peer: Endpoint) -> usize
    requires { place + 18 ≤ REPLY_ROOM }
    ensures end { result ≡ place + peer_len peer.addr }
    ensures text { take result out.new ≡ take place out.old ++ peer_bytes peer }
{
    let place = match peer.addr {
        Addr::V4(bytes) => put(out, place, &bytes),
        Addr::V6(bytes) => put(out, place, &bytes),
    };
    put(out, place, &peer.port.to_be_bytes())
}

/// Writes the counts of one torrent of a scrape.
fn put_group(out: &mut [u8; REPLY_ROOM], place: usize, counts: Counts) -> usize
    requires { place + 12 ≤ REPLY_ROOM }
    ensures end { result ≡ place + 12 }
    ensures text { take result out.new ≡ take place out.old ++ counts_bytes counts }
{
    let place = put_u32(out, place, counts.complete);
    let place = put_u32(out, place, counts.downloaded);
    put_u32(out, place, counts.incomplete)
}
