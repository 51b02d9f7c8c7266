//! A drill: workers in several threads make the requests of a generated load on shared buckets,
//! phase by phase, and what is written of it is the same for any number of workers.
#![tactic(auto)]

mod ask;
mod deal;
mod phase;
mod run;
mod scan;
#[cfg(test)]
mod tests;
mod worker;

pub use run::run_drill;
