//! That the rows which the client within a forwarder makes are a plain trace, and right: mathematics alone.
//!
//! Mathematics alone: whatever comes of DNS clients and of servers, the rows that the client within a forwarder makes are a
//! plain trace, and so right and timely, give what is kept, and serve what has expired. By
//! `every_forwarded_trace_is_right`.
#![tactic(auto)]

mod laws;

pub use laws::every_forwarded_trace_is_right;
