//! What a right answer of a tracker is: the calls of one bucket, their answers, and the definitions
//! of its histories, in `specs/`, that every promise of the tracker stands on.
#![tactic(auto)]

pub mod answer;
pub mod call;
pub mod entry;
pub mod examples;
pub mod laws;
pub mod limits;
pub mod stands;
pub mod tracker;

pub use answer::{Answer, ReportAnswer};
pub use call::Call;
pub use entry::Entry;
pub use limits::{OUTBOX_NOTES, PEER_MINUTES, TORRENT_MINUTES, WANTED_PEERS};
pub use stands::Stands;
pub use tracker::Tracker;
