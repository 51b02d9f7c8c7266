//! What a bucket answers.

use ot_base::{Counts, Notes, Peers, Rows};

/// An answer of a bucket.
#[derive(Debug, Drop)]
pub enum Answer {
    /// To an announce or a stop: the torrent's counts after it, and other peers. A stop is told
    /// none.
    Told { counts: Counts, peers: Peers },
    /// To a scrape: the torrent's counts, and whether it is known.
    Stats { counts: Counts, known: bool },
    /// To a scan: the known torrents, ascending by hash.
    Rows { rows: Rows },
    /// To a cleaning: how many live peers are left, over all torrents.
    Cleaned { held: u64 },
    /// To a sync.
    Applied,
    /// To a drain: the notes since the last one, oldest first, and how many more there was no place
    /// for.
    Drained { notes: Notes, dropped: u32 },
    /// The torrent has `count` live peers, as many as it may have.
    SwarmFull { count: u32 },
    /// The bucket knows `count` torrents, as many as it may know.
    BucketFull { count: u32 },
    /// There was no memory.
    NoMemory,
}

/// An answer to a report, which is an announce or a stop, without its peers: those come into room
/// of the caller's, so that they needn't be moved.
#[derive(Clone, Copy, Debug, PartialEq, Eq)]
pub enum ReportAnswer {
    /// The torrent's counts after it.
    Told { counts: Counts },
    /// The torrent has `count` live peers, as many as it may have.
    SwarmFull { count: u32 },
    /// The bucket knows `count` torrents, as many as it may know.
    BucketFull { count: u32 },
    /// There was no memory.
    NoMemory,
}
