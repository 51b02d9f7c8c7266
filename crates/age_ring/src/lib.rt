//! Items by age: one list for each age, in a dense order that their owner sees.
#![tactic(auto)]

mod lists;
mod ring;
#[cfg(test)]
mod tests;

pub use ring::{AgeRing, MOST_AGES};
