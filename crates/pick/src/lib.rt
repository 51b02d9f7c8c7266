//! Which of many are told: different places, each chosen by a random word.
#![tactic(auto)]

pub mod laws;
mod picked;
#[cfg(test)]
mod tests;

pub use picked::{PICKS, Picks, passing, pick};
