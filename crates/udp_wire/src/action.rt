//! The numbers of the actions.

pub const CONNECT: u32 = 0;

pub const ANNOUNCE: u32 = 1;

pub const SCRAPE: u32 = 2;
/// Only replies have it.
pub const ERROR: u32 = 3;
