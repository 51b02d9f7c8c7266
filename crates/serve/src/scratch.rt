//! The room that a worker needs again and again.

use ot_io::DATAGRAM_LEN;
use request_handler::{Draws, Words};
use udp_wire::REPLY_ROOM;

/// The words that choose peers, and room for a datagram and for its reply. A worker has one for all
/// that it serves, so that no request pays for making it.
#[derive(Drop)]
pub struct Scratch {
    pub(crate) words: Words,
    pub(crate) datagram: [u8; DATAGRAM_LEN],
    pub(crate) reply: [u8; REPLY_ROOM],
}

impl Scratch {
    /// Room, and the words that follow from a seed. Only as many are drawn for an announce as it
    /// wants peers.
    pub fn new(seed: u64) -> Scratch {
        Scratch {
            words: Words::new(seed, Draws::Wanted),
            datagram: [0; DATAGRAM_LEN],
            reply: [0; REPLY_ROOM],
        }
    }
}
