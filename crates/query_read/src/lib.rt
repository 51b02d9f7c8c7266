//! Reading the target of a tracker's HTTP request (BEP 3, BEP 23, BEP 48).
#![tactic(auto)]

mod cut;
mod number;
mod query;
mod target;
#[cfg(test)]
mod tests;

pub use number::read_number;
pub use query::Query;
pub use target::{Target, read_target};
