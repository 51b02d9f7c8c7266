//! A dense table of linked nodes, whose reads and writes are counted in contracts alone.
#![tactic(auto)]

mod steps;
mod table;
#[cfg(test)]
mod tests;

pub use steps::Steps;
pub use table::{MOST_NODES, NO_PLACE, Node, NodeTable};
