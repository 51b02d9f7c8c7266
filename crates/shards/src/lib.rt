//! The buckets of a tracker for callers in many threads. Each bucket has a lock of its own, so
//! calls on different buckets don't wait for one another. A caller has a pass, with a turn at each
//! lock, and knows of each bucket a beginning of its one history, with all its own calls.
#![tactic(auto)]

mod call;
mod close;
mod join;
pub mod laws;
mod pass;
mod scrape;
mod seat;
mod shards;
mod split;
#[cfg(test)]
mod tests;

pub use call::Done;
pub use close::{Closed, Live};
pub use pass::Pass;
pub use seat::Seat;
pub use shards::Shards;
