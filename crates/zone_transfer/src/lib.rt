//! A zone, or its changes, fetched from a server by stream (RFC 5936, RFC 1995).
//!
//! `fetch` opens one stream, asks once, and takes messages until the transfer ends. The zone changes once all of it is there, or
//! not at all. What happens on the stream is told by an edge, so a transfer can be tried in memory.
//!
//! ```text
//! edge.learn_server(&ServerConf::new(address, Transport::Tcp))?;
//! let mut zone = Zone::empty(alloc, apex);
//! fetch(alloc, &mut zone, XfrKind::Axfr, &mut edge, &mut clock, &mut words)?;
//! fetch(alloc, &mut zone, XfrKind::Ixfr, &mut later_edge, &mut clock, &mut words)?;
//! ```
//!
//! - `fetch`, `fetch_within`, `fetch_told`: `fetched`: the zone is what the transfer that the edge gave makes of the old
//!   one, a zone if each record before is one that it may hold, and the transfer takes no more memory than was allowed
//!   (`IsFetched`); `cause`: each fault has its cause in what the edge gave (`IsCause`); `kept`: after a fault the zone is
//!   as it was.
//!
//! # Why it is so
//!
//! - **`fetch_within`** refuses a transfer once its updates are reckoned to take more than is allowed: 256 octets for each,
//!   and the octets of its owner and data. `fetch` is it with the greatest number, at which the sum stands still.
//! - **The SOA in the authority section** is the zone's first whose data a message has room for: a record of a zone that no
//!   message brought may have more than 65,535 octets.
#![tactic(auto)]

mod asked;
mod asking;
mod fault;
mod fetching;
mod opening;
mod progress;
mod reading;

pub use asked::MOST_TURNS;
pub use fault::FetchFault;
pub use fetching::{fetch, fetch_told, fetch_within};
pub use progress::{Progress, Silent};
