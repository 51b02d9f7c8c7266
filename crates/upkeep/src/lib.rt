//! What a server does without being asked: it cleans its buckets, tells other nodes what it learnt
//! of peers, and learns what they tell. Each is done in turns, and by a job that takes turns until
//! a flag is up.
#![tactic(auto)]

pub mod clean;
pub mod cleaner;
pub mod nodes;
pub mod receiver;
pub mod sender;
pub mod sync_in;
pub mod sync_out;
#[cfg(test)]
mod tests;

pub use clean::clean_turn;
pub use cleaner::keep_clean;
pub use nodes::{NodeList, nodes_in};
pub use receiver::keep_receiving;
pub use sender::keep_sending;
pub use sync_in::{SyncIn, sync_in_turn};
pub use sync_out::{SyncOut, sync_out_turn};

/// A call that is told no peers reads none.
const NO_WORDS: &[u32; 200] = &[0; 200];
