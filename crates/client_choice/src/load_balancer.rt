//! A balancer: requests are spread over servers that are about equally fast.
//!
//! ```text
//! send_request ──► servers whose burst has room ──► in order ──► started one after another ──► result
//!                      │
//!                      └──there is none──► SERVFAIL, at once
//! ```
//!
//! Fast servers come before slow ones, then those at which fewer requests wait, then those that are
//! expected to take less time, then those that were added earlier. A burst is a number of requests
//! within an interval.

mod bursts;
mod config;
mod connection;
mod parts;
mod steps;

pub use bursts::Limit;
pub use client_request::Pending as Request;
pub use config::{Config, ConnConfig};
pub use connection::{Connection, Transport};
pub use parts::Parts;
