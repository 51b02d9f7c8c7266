//! A ticket lock over one value that stands for a history. Callers take turns, and each turn adds
//! one entry, at the step that ends it. So all calls have one order, whatever the threads do, and
//! each caller knows a beginning of the one history, with all its own entries.
#![tactic(auto)]

mod answers;
mod board;
mod know;
pub mod laws;
mod lock;
mod plays;
mod steps;
#[cfg(test)]
mod tests;
mod turn;

pub use answers::AsAnswer;
pub use lock::TurnLock;
pub use turn::Turn;
