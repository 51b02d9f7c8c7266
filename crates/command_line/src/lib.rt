//! The words of the command line: which command they ask for, and with which settings.
#![tactic(auto)]

pub mod settings;
#[cfg(test)]
mod tests;
mod values;
pub mod words;

pub use words::{Command, WordsFault, read_words};
