//! What a run is told by its command line.

use ot_base::{Endpoint, Limits, Mode, Secret};

/// The settings of a replay.
#[derive(Clone, Copy, Debug, PartialEq, Eq)]
pub struct ReplaySettings {
    /// How many bits of a hash tell its bucket, at most 10.
    pub bits: u32,
    /// How much the tracker holds, each number from 1 to 1,000,000.
    pub limits: Limits,
    /// Whether a client may ask for all torrents at once.
    pub full: bool,
    /// What goes into the connection ids.
    pub secret: Secret,
    /// Where the random numbers begin that choose the peers a client is told.
    pub seed: u64,
    /// What the access list that the input begins with does with its torrents. Without a list there
    /// are none of its lines, and every torrent is admitted.
    pub access: Option<Mode>,
}

/// The settings of a server.
#[derive(Clone, Copy, Debug, PartialEq, Eq)]
pub struct ServeSettings {
    /// What a server and a replay are both told.
    pub replay: ReplaySettings,
    /// Where datagrams are received, if anywhere.
    pub udp: Option<Endpoint>,
    /// Where connections are accepted, if anywhere.
    pub http: Option<Endpoint>,
    /// With which other nodes it shares what it knows of peers, if with any.
    pub sync: Option<SyncSettings>,
    /// How many workers each of the first two has, from 1 to 64.
    pub workers: u32,
}

/// How many other nodes a node shares with at most.
pub const NODES: usize = 16;

/// With whom a node shares what it knows of peers, and where.
#[derive(Clone, Copy, Debug, PartialEq, Eq)]
pub struct SyncSettings {
    /// Where it receives what the others tell, and from where it tells them.
    pub at: Endpoint,
    /// Its own number, by which it knows what it has told itself.
    pub own: u32,
    /// Where the others are, in the order in which they are told. A place may be empty.
    pub nodes: [Option<Endpoint>; NODES],
}
