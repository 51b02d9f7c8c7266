//! Bencode (BEP 3): writing it piece by piece, and telling whether a text is canonical.
#![tactic(auto)]

mod append;
mod number;
mod reader;
#[cfg(test)]
mod tests;
mod writer;

pub use reader::{DEEPEST, is_canonical};
pub use writer::Writer;
