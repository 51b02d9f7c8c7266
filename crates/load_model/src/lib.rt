//! A generated load: its requests, what a tracker knows after them, and the lines that tell it.
#![tactic(auto)]

pub mod laws;
pub mod load;
pub mod output;
pub mod request;
pub mod settings;
pub mod totals;

pub use load::{Load, PHASES};
pub use output::{line_of_calls, line_of_phase};
pub use request::Request;
pub use settings::DrillSettings;
pub use totals::Totals;
