//! The numbers that the definitions name.

/// How many minutes a peer is live after it was last heard of.
pub const PEER_MINUTES: u32 = 45;

/// How many minutes a torrent is known after it was last touched: a day.
pub const TORRENT_MINUTES: u32 = 1440;

/// How many peers an announce may want.
pub const WANTED_PEERS: u32 = 200;

/// How many notes an outbox keeps until it is drained.
pub const OUTBOX_NOTES: usize = 4096;
