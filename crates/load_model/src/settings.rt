//! What a drill is told by its command line.

/// The settings of a drill.
#[derive(Clone, Copy, Debug, PartialEq, Eq)]
pub struct DrillSettings {
    /// Where the random numbers begin that the requests are drawn from.
    pub seed: u64,
    /// How many requests there are, at most 1,000,000.
    pub count: u32,
    /// How many workers make them, from 1 to 64.
    pub workers: u32,
    /// How many bits of a hash tell its bucket, at most 10.
    pub bits: u32,
}
