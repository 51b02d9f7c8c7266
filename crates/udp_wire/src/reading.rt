//! Reading what a tracker replies, as its clients do. Places and lengths count bytes.

ghost use Rattle.std.specs.Prelude.{◌≡◌, ◌+◌, ◌*◌, ◌<◌, ◌≤◌, length, drop};
ghost use Rattle.udp_wire.specs.Places.{row_at, count_after};
ghost use Rattle.udp_wire.specs.Replies.{four_at, six_at, peers_of, told_counts, counts_at, count_list_of};
ghost use Rattle.udp_wire.specs.Replies.{connect_reply_of, announce_reply_of, scrape_reply_of, error_reply_of, reply_of};

use crate::action::{ANNOUNCE, CONNECT, ERROR, SCRAPE};
use crate::field::{u16_at, u32_at, u64_at};
use ot_base::in_place::{HASHES, TEXT};
use ot_base::peers::PEERS;
use ot_base::{Addr, CountList, Counts, Endpoint, Family, Peers, Text};

/// The place of the action.
const ACTION: usize = 0;
/// The place of the transaction id.
const TRANSACTION: usize = 4;
/// The length of these two, with which every reply begins.
const HEAD: usize = 8;

/// The place of the connection id in the reply to a connect.
const CONNECTION: usize = 8;
/// The length of the reply to a connect.
const WHOLE_CONNECT: usize = 16;

/// The place of the interval in the reply to an announce.
const INTERVAL: usize = 8;
/// The place of the leechers.
const LEECHERS: usize = 12;
/// The place of the seeders.
const SEEDERS: usize = 16;
/// The place of the first peer.
const FIRST_PEER: usize = 20;

/// The length of an IPv4 address, after which the port stands.
const ADDRESS_OF_FOUR: usize = 4;
/// The length of a peer of IPv4.
const PEER_OF_FOUR: usize = 6;
/// The length of an IPv6 address, after which the port stands.
const ADDRESS_OF_SIX: usize = 16;
/// The length of a peer of IPv6.
const PEER_OF_SIX: usize = 18;
/// How many peers of IPv6 a reply has at most.
const PEERS_OF_SIX: usize = 64;

/// The length of the counts of one hash in the reply to a scrape.
const GROUP: usize = 12;
/// The place of the seeders among these.
const GROUP_SEEDERS: usize = 0;
/// The place of the completed downloads among these.
const GROUP_COMPLETED: usize = 4;
/// The place of the leechers among these.
const GROUP_LEECHERS: usize = 8;

/// What a tracker replies.
#[derive(Debug, Drop)]
pub enum Reply {
    /// The connection id to ask with.
    Connect {
        transaction: u32,
        connection: u64,
    },
    /// The counts of the announced torrent, and some of its peers in order. Its downloads aren't
    /// told: they are 0 here.
    Announce {
        transaction: u32,
        /// After how many seconds to announce again.
        interval: u32,
        counts: Counts,
        peers: Peers,
    },
    /// The counts of each hash of the scrape, in order.
    Scrape {
        transaction: u32,
        counts: CountList,
    },
    /// Why the request is refused, as bytes of any encoding.
    Error {
        transaction: u32,
        text: Text,
    },
}

/// Reads a datagram of any bytes as a reply to a client of a family. It is none where its action is
/// no reply's, and where its length isn't one that its action has: 16 bytes for a connect; for an
/// announce 20 and a whole number of peers, at most 200 of 6 bytes or 64 of 18 by the family; for a
/// scrape 8 and 12 for each of 1 to 74 hashes; for an error 8 and at most 200 of text.
#[tactic(auto, unfolding(crate::specs::Replies::reply_of))]
pub fn read_reply(bytes: &[u8], family: Family) -> Option<Reply>
    ensures { result ≡ reply_of family bytes.now }
{
    if bytes.len() < HEAD {
        return None;
    }
    match u32_at(bytes, ACTION) {
        CONNECT => read_connect(bytes),
        ANNOUNCE => read_announce(bytes, family),
        SCRAPE => read_scrape(bytes),
        ERROR => read_error(bytes),
        _ => None,
    }
}

#[tactic(auto, unfolding(crate::specs::Replies::connect_reply_of))]
fn read_connect(bytes: &[u8]) -> Option<Reply>
    ensures { result ≡ connect_reply_of bytes.now }
{
    if bytes.len() != WHOLE_CONNECT {
        return None;
    }
    Some(Reply::Connect {
        transaction: u32_at(bytes, TRANSACTION),
        connection: u64_at(bytes, CONNECTION),
    })
}

#[tactic(auto, unfolding(crate::specs::Replies::announce_reply_of))]
fn read_announce(bytes: &[u8], family: Family) -> Option<Reply>
    ensures { result ≡ announce_reply_of family bytes.now }
{
    let peers = read_peers(bytes, family)?;
    Some(Reply::Announce {
        transaction: u32_at(bytes, TRANSACTION),
        interval: u32_at(bytes, INTERVAL),
        counts: read_told_counts(bytes),
        peers,
    })
}

/// The counts of the announced torrent.
fn read_told_counts(bytes: &[u8]) -> Counts
    requires { FIRST_PEER ≤ length bytes.now }
    ensures { result ≡ told_counts bytes.now }
{
    Counts {
        complete: u32_at(bytes, SEEDERS),
        downloaded: 0,
        incomplete: u32_at(bytes, LEECHERS),
    }
}

/// The peers to the end of the reply.
fn read_peers(bytes: &[u8], family: Family) -> Option<Peers>
    ensures { result ≡ peers_of family bytes.now }
{
    let len = bytes.len();
    match family {
        Family::Four => {
            let count = how_many(len, FIRST_PEER, PEER_OF_FOUR, PEERS)?;
            Some(read_peers_of_four(bytes, count))
        }
        Family::Six => {
            let count = how_many(len, FIRST_PEER, PEER_OF_SIX, PEERS_OF_SIX)?;
            Some(read_peers_of_six(bytes, count))
        }
    }
}

/// How many items of one size follow the first `head` bytes of so many, where these are a whole
/// number of them and at most `most`.
fn how_many(len: usize, head: usize, size: usize, most: usize) -> Option<usize>
    requires { 0 < size }
    ensures { result ≡ count_after head size most len }
{
    if len < head || (len - head) % size != 0 || (len - head) / size > most {
        return None;
    }
    Some((len - head) / size)
}

/// The first `count` peers of IPv4.
fn read_peers_of_four(bytes: &[u8], count: usize) -> Peers
    requires room { count ≤ PEERS }
    requires whole { FIRST_PEER + PEER_OF_FOUR * count ≤ length bytes.now }
    ensures { result ≡ row_at four_at FIRST_PEER PEER_OF_FOUR count bytes.now }
{
    let mut peers = Peers::new();
    for i in 0..count {
        peers.push(peer_of_four(bytes, FIRST_PEER + PEER_OF_FOUR * i));
    }
    peers
}

fn peer_of_four(bytes: &[u8], place: usize) -> Endpoint
    requires { place + PEER_OF_FOUR ≤ length bytes.now }
    ensures { result ≡ four_at place bytes.now }
{
    let mut addr = [0; ADDRESS_OF_FOUR];
    addr.copy_from_slice(&bytes[place..place + ADDRESS_OF_FOUR]);
    Endpoint {
        addr: Addr::V4(addr),
        port: u16_at(bytes, place + ADDRESS_OF_FOUR),
    }
}

/// The first `count` peers of IPv6.
fn read_peers_of_six(bytes: &[u8], count: usize) -> Peers
    requires room { count ≤ PEERS_OF_SIX }
    requires whole { FIRST_PEER + PEER_OF_SIX * count ≤ length bytes.now }
    ensures { result ≡ row_at six_at FIRST_PEER PEER_OF_SIX count bytes.now }
{
    let mut peers = Peers::new();
    for i in 0..count {
        peers.push(peer_of_six(bytes, FIRST_PEER + PEER_OF_SIX * i));
    }
    peers
}

/// A peer of IPv6. An IPv4-mapped address stays one of IPv6, as it was written.
fn peer_of_six(bytes: &[u8], place: usize) -> Endpoint
    requires { place + PEER_OF_SIX ≤ length bytes.now }
    ensures { result ≡ six_at place bytes.now }
{
    let mut addr = [0; ADDRESS_OF_SIX];
    addr.copy_from_slice(&bytes[place..place + ADDRESS_OF_SIX]);
    Endpoint {
        addr: Addr::V6(addr),
        port: u16_at(bytes, place + ADDRESS_OF_SIX),
    }
}

#[tactic(auto, unfolding(crate::specs::Replies::scrape_reply_of))]
fn read_scrape(bytes: &[u8]) -> Option<Reply>
    requires { HEAD ≤ length bytes.now }
    ensures { result ≡ scrape_reply_of bytes.now }
{
    if bytes.len() == HEAD {
        return None;
    }
    let counts = read_count_list(bytes)?;
    Some(Reply::Scrape {
        transaction: u32_at(bytes, TRANSACTION),
        counts,
    })
}

/// The counts to the end of the reply.
fn read_count_list(bytes: &[u8]) -> Option<CountList>
    ensures { result ≡ count_list_of bytes.now }
{
    let count = how_many(bytes.len(), HEAD, GROUP, HASHES)?;
    Some(read_groups(bytes, count))
}

/// The counts of the first `count` hashes.
fn read_groups(bytes: &[u8], count: usize) -> CountList
    requires room { count ≤ HASHES }
    requires whole { HEAD + GROUP * count ≤ length bytes.now }
    ensures { result ≡ row_at counts_at HEAD GROUP count bytes.now }
{
    let mut list = CountList::new();
    for i in 0..count {
        list.push(read_counts(bytes, HEAD + GROUP * i));
    }
    list
}

/// The counts of one hash.
fn read_counts(bytes: &[u8], place: usize) -> Counts
    requires { place + GROUP ≤ length bytes.now }
    ensures { result ≡ counts_at place bytes.now }
{
    Counts {
        complete: u32_at(bytes, place + GROUP_SEEDERS),
        downloaded: u32_at(bytes, place + GROUP_COMPLETED),
        incomplete: u32_at(bytes, place + GROUP_LEECHERS),
    }
}

#[tactic(auto, unfolding(crate::specs::Replies::error_reply_of))]
fn read_error(bytes: &[u8]) -> Option<Reply>
    requires { HEAD ≤ length bytes.now }
    ensures { result ≡ error_reply_of bytes.now }
{
    if bytes.len() > HEAD + TEXT {
        return None;
    }
    Some(Reply::Error {
        transaction: u32_at(bytes, TRANSACTION),
        text: read_text(&bytes[HEAD..]),
    })
}

/// A text as it lies in its bytes.
fn read_text(bytes: &[u8]) -> Text
    requires { length bytes.now ≤ TEXT }
    ensures { result ≡ bytes.now }
{
    let mut text = Text::new();
    for byte in bytes {
        text.push(*byte);
    }
    text
}
