//! The requests of a load.

ghost use Rattle.std.specs.Prelude.{◌≡◌, ◌<◌, ◌/◌, ◌%◌};
ghost use Rattle.load_model.specs.Load.{call_by, call_of, peer_at, peer_number, torrent_hash};

use ot_base::{Addr, Endpoint, InfoHash};
use tracker_model::Call;

/// How many peers there are.
pub const PEERS: u32 = 1024;

/// How many torrents there are.
const TORRENTS: u32 = 64;

/// The port of each peer, one that is usual for BitTorrent.
const PORT: u16 = 6881;

/// How many peers an announce wants.
const WANT: u32 = 50;

/// A request of a load, as the two random words that were drawn for it.
#[derive(Clone, Copy, Debug, PartialEq, Eq)]
pub struct Request {
    /// Tells the torrent and what is asked.
    pub first: u32,
    /// Tells the peer.
    pub second: u32,
}

impl Request {
    /// The number of the peer that asks, below 1,024.
    pub fn peer(self) -> u32
        ensures peer { result ≡ peer_number self }
        ensures few { result < 1024 }
    {
        self.second % PEERS
    }

    /// What it asks of the tracker.
    pub fn call(self) -> Call
        ensures { result ≡ call_of self }
    {
        let hash = torrent(self.first % TORRENTS);
        let who = endpoint(self.peer());
        call_of_kind(self.first / TORRENTS % 8, hash, who)
    }

    /// The words by which an announce is told its peers.
    pub fn words(self) -> [u32; 200] {
        [self.second; 200]
    }
}

/// The torrent of a number.
fn torrent(number: u32) -> InfoHash
    requires { number < 64 }
    ensures { result ≡ torrent_hash number }
{
    let front = (number * 0x0400_0000).to_be_bytes();
    let mut bytes = [0; 20];
    bytes[..4].copy_from_slice(&front);
    InfoHash(bytes)
}

/// Where the peer of a number listens.
fn endpoint(number: u32) -> Endpoint
    requires { number < 1024 }
    ensures { result ≡ peer_at number }
{
    Endpoint {
        addr: Addr::V4([10, 0, (number / 256) as u8, (number % 256) as u8]),
        port: PORT,
    }
}

/// The call of a kind from 0 to 7.
fn call_of_kind(kind: u32, hash: InfoHash, who: Endpoint) -> Call
    ensures { result ≡ call_by kind hash who }
{
    if kind == 0 {
        return Call::Stop { hash, who };
    }
    Call::Announce {
        hash,
        who,
        seed: kind <= 3,
        completed: kind == 1,
        want: WANT,
    }
}
