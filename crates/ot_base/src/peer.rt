//! Peers of a torrent, and what is told of them.

use crate::{Endpoint, InfoHash, Minute};

/// What a client announces (BEP 3).
#[derive(Clone, Copy, Debug, PartialEq, Eq, PartialOrd, Ord, Hash)]
pub enum Event {
    /// None: this is one of its regular announces.
    Nothing,
    /// It begins with the torrent.
    Started,
    /// It has just come to have all of the torrent.
    Completed,
    /// It leaves the torrent.
    Stopped,
}

/// How many peers a torrent has, and how often it was downloaded (BEP 48).
#[derive(Clone, Copy, Debug, Default, PartialEq, Eq, PartialOrd, Ord, Hash)]
pub struct Counts {
    /// Live seeds.
    pub complete: u32,
    /// Announces of a finished download.
    pub downloaded: u32,
    /// Live peers that aren't seeds.
    pub incomplete: u32,
}

/// A torrent with its counts.
#[derive(Clone, Copy, Debug, Default, PartialEq, Eq, PartialOrd, Ord, Hash)]
pub struct Row {
    pub hash: InfoHash,
    pub counts: Counts,
}

/// What a note says of an endpoint.
#[derive(Clone, Copy, Debug, Default, PartialEq, Eq, PartialOrd, Ord, Hash)]
pub enum Mark {
    /// It lacks some of the torrent.
    #[default]
    Leecher,
    /// It has all of the torrent.
    Seed,
    /// It has left the torrent.
    Stopped,
}

/// What one node tells the others: an endpoint of a torrent is a leecher, is a seed, or has
/// stopped.
#[derive(Clone, Copy, Debug, Default, PartialEq, Eq, PartialOrd, Ord, Hash)]
pub struct Note {
    pub hash: InfoHash,
    pub who: Endpoint,
    pub mark: Mark,
}

/// A stored peer of a torrent.
#[derive(Clone, Copy, Debug, PartialEq, Eq, PartialOrd, Ord, Hash)]
pub struct Held {
    pub who: Endpoint,
    /// Whether it has all of the torrent.
    pub seed: bool,
    /// When it was last heard of.
    pub stamp: Minute,
}

/// How much a bucket holds.
#[derive(Clone, Copy, Debug, PartialEq, Eq, PartialOrd, Ord, Hash)]
pub struct Limits {
    /// Live peers a torrent, of both families together.
    pub peers: u32,
    /// Known torrents.
    pub torrents: u32,
}
