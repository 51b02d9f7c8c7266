//! What a client asks. Places and lengths count bytes.

ghost use Rattle.std.specs.Prelude.{◌≡◌, ◌+◌, ◌*◌, ◌≤◌, length};
ghost use Rattle.udp_wire.specs.Packets.{event_of, connect_of, fields_of, announce_of, scrape_of, request_of};

use crate::action::{ANNOUNCE, CONNECT, SCRAPE};
use crate::field::{i32_at, info_hash_at, u16_at, u32_at, u64_at};
use crate::hashes::ScrapeHashes;
use ot_base::{Event, InfoHash};

/// The place of the connection id, and in a connect of the protocol id.
const CONNECTION: usize = 0;
/// The place of the action.
pub const ACTION: usize = 8;
/// The place of the transaction id.
const TRANSACTION: usize = 12;
/// The length of these three, with which every request begins.
pub const HEAD: usize = 16;

/// The place of the info hash in an announce.
const ANNOUNCED_HASH: usize = 16;
/// The place of how many bytes are left.
const LEFT: usize = 64;
/// The place of the event.
const EVENT: usize = 80;
/// The place of num_want.
const WANT: usize = 92;
/// The place of the port.
const PORT: usize = 96;

/// The protocol id, by which a connect is told from other datagrams.
const PROTOCOL: u64 = 0x0000_0417_2710_1980;

/// The length of an announce, up to the last of the named fields.
const WHOLE_ANNOUNCE: usize = 98;
/// The length of an info hash.
pub const HASH: usize = 20;
/// The length of a scrape of one hash.
const ONE_HASH: usize = HEAD + HASH;

/// Why a datagram is left without a reply.
#[derive(Clone, Copy, Debug, PartialEq, Eq)]
pub enum Quiet {
    /// It is too short for any request.
    Short,
    /// A connect begins with another protocol id.
    Protocol,
    /// An announce is cut off.
    Announce,
    /// A scrape has no whole hash.
    Scrape,
}

/// What an announce says, as far as a tracker reads it.
#[derive(Clone, Copy, Debug, PartialEq, Eq)]
pub struct UdpAnnounce {
    /// The connection id that the tracker gave.
    pub connection: u64,
    /// The client's own number, by which it knows the reply.
    pub transaction: u32,
    pub hash: InfoHash,
    /// How many bytes are still to be downloaded.
    pub left: u64,
    pub event: Event,
    /// How many peers the client asks for (num_want). A negative number leaves it to the tracker.
    pub want: i32,
    /// Where the client listens, in host order.
    pub port: u16,
}

/// What a datagram asks.
#[derive(Debug, Drop)]
pub enum Request<'a> {
    Connect {
        transaction: u32,
    },
    Announce(UdpAnnounce),
    /// The counts of the first 74 hashes at most, in order.
    Scrape {
        connection: u64,
        transaction: u32,
        hashes: ScrapeHashes<'a>,
    },
    /// An action that BEP 15 doesn't know.
    Unknown {
        transaction: u32,
        action: u32,
    },
    /// No request, to which nobody replies.
    Silent(Quiet),
}

/// Reads a datagram of any bytes. Bytes after the named fields are ignored.
#[tactic(auto, unfolding(crate::specs::Packets::request_of))]
pub fn read_request(bytes: &[u8]) -> Request<'_>
    ensures { result ≡ request_of bytes.now }
{
    if bytes.len() < HEAD {
        return Request::Silent(Quiet::Short);
    }
    match u32_at(bytes, ACTION) {
        CONNECT => read_connect(bytes),
        ANNOUNCE => read_announce(bytes),
        SCRAPE => read_scrape(bytes),
        action => Request::Unknown {
            transaction: u32_at(bytes, TRANSACTION),
            action,
        },
    }
}

#[tactic(auto, unfolding(crate::specs::Packets::connect_of))]
fn read_connect(bytes: &[u8]) -> Request<'_>
    requires { HEAD ≤ length bytes.now }
    ensures { result ≡ connect_of bytes.now }
{
    if u64_at(bytes, CONNECTION) != PROTOCOL {
        return Request::Silent(Quiet::Protocol);
    }
    Request::Connect {
        transaction: u32_at(bytes, TRANSACTION),
    }
}

#[tactic(auto, unfolding(crate::specs::Packets::announce_of))]
fn read_announce(bytes: &[u8]) -> Request<'_>
    ensures { result ≡ announce_of bytes.now }
{
    if bytes.len() < WHOLE_ANNOUNCE {
        return Request::Silent(Quiet::Announce);
    }
    Request::Announce(read_fields(bytes))
}

/// The fields of a whole announce.
#[tactic(auto, unfolding(crate::specs::Packets::fields_of))]
fn read_fields(bytes: &[u8]) -> UdpAnnounce
    requires { WHOLE_ANNOUNCE ≤ length bytes.now }
    ensures { result ≡ fields_of bytes.now }
{
    UdpAnnounce {
        connection: u64_at(bytes, CONNECTION),
        transaction: u32_at(bytes, TRANSACTION),
        hash: info_hash_at(bytes, ANNOUNCED_HASH),
        left: u64_at(bytes, LEFT),
        event: event_of_number(u32_at(bytes, EVENT)),
        want: i32_at(bytes, WANT),
        port: u16_at(bytes, PORT),
    }
}

fn event_of_number(number: u32) -> Event
    ensures { result ≡ event_of number }
{
    match number {
        1 => Event::Completed,
        2 => Event::Started,
        3 => Event::Stopped,
        _ => Event::Nothing,
    }
}

#[tactic(auto, unfolding(crate::specs::Packets::scrape_of))]
fn read_scrape(bytes: &[u8]) -> Request<'_>
    ensures { result ≡ scrape_of bytes.now }
{
    if bytes.len() < ONE_HASH {
        return Request::Silent(Quiet::Scrape);
    }
    Request::Scrape {
        connection: u64_at(bytes, CONNECTION),
        transaction: u32_at(bytes, TRANSACTION),
        hashes: ScrapeHashes::within(bytes),
    }
}
