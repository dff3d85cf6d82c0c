//! One server by datagrams: each request has up to so many tries, each at a place of its own.
//!
//! Each call is the step of the plain machine: tries, slots, read timer, faults, giving up. By `Connection` by
//! `SendRequest`, `Config`.
//!
//! ```text
//! send_request ──► Queued ──slot──► Opening ──Opened──► Sent ──answer, fault──► result
//!                                      ▲                  │
//!                                      └──next try──read timer──last try──► result
//! ```
//!
//! There is no socket here: a place is opened, sent at and closed by outs, and events tell what became
//! of it.
//!
//! `Connection` is seen as `Dgram`: server, settings, tables and whether it failed. Its plain machine is
//! `crates/client_dgram/specs/Plain.antt`: a request waits for a slot, a try opens a place, is sent when it is open and
//! waits for its read timer; the slot of a request that has its result is given on at once, to the one that waits longest.
//! The code keeps the same tables by number, and who waits for a slot as an ordered set, and does no scan.
//!
//! # Why it is so
//!
//! - **The queue of a datagram transport** is the set of the tickets that wait. Tickets rise, so the least came first; and
//!   a request that is given up leaves it in logarithmic time. **Tries** are counted down: a job keeps how many may still
//!   follow.
#![tactic(auto)]

mod connection;
mod job;
mod list_sockets;
mod sockets;
mod steps;
mod tables;

pub use client_request::{Pending as Request, QueryError, QueryErrorKind};
pub use client_settings::dgram::Config;
pub use connection::Connection;
pub use job::{Job, Stage};
pub use list_sockets::{ListConnect, ListDgram};
pub use sockets::{Connect, DgramRecv, DgramSend};
pub use tables::Tables;
