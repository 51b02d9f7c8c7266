//! Hints where the items of a long list stand. Nothing rests on a hint: who takes one looks whether
//! the item stands there, and else asks an index. So nobody who chooses the items' names can make a
//! look-up wrong, or slower than the index.
#![tactic(auto)]

mod hints;
#[cfg(test)]
mod tests;

pub use hints::{FEW, Hints};
