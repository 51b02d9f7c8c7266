//! What a tracker does for a request: the plan of a datagram and of an HTTP request, with the calls
//! that it makes on the tracker's buckets, and the text of the reply once these are answered.
#![tactic(auto)]

pub mod connection_plan;
pub mod http_plan;
pub mod http_text;
pub mod laws;
mod report;
#[cfg(test)]
mod tests;
pub mod udp_plan;
pub mod udp_text;

pub use connection_plan::{ConnectionPlan, plan_connection};
pub use http_plan::{HttpPlan, plan_http};
pub use http_text::{finish_announce, finish_scrape, refused_body, rows_between};
pub use udp_plan::{UdpPlan, plan_udp};
pub use udp_text::finish_udp;
