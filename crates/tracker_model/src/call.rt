//! What a bucket is asked.

use ot_base::{Endpoint, InfoHash, Mark};

/// A call on one bucket, which keeps the torrents of a part of all hashes.
#[derive(Clone, Copy, Debug, PartialEq, Eq, PartialOrd, Ord, Hash)]
pub enum Call {
    /// A peer says that it takes part (BEP 3).
    Announce {
        hash: InfoHash,
        who: Endpoint,
        /// Whether it has all of the torrent.
        seed: bool,
        /// Whether it has just finished its download. Only a seed has.
        completed: bool,
        /// How many peers it wants to be told at most, up to 200.
        want: u32,
    },
    /// A peer says that it leaves (BEP 3).
    Stop {
        hash: InfoHash,
        who: Endpoint,
    },
    /// A torrent's counts are asked for (BEP 48).
    Scrape {
        hash: InfoHash,
    },
    /// The counts of all known torrents are asked for.
    Scan,
    /// What is no longer live or known is to be dropped.
    Clean,
    /// Another node says what stands of a peer.
    Sync {
        hash: InfoHash,
        who: Endpoint,
        mark: Mark,
    },
    /// The notes for the other nodes are taken out.
    Drain,
}
