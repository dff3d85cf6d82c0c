//! One server by datagrams, and by a stream where the message of a datagram was truncated.
//!
//! ```text
//! send_request ──► datagrams ──whole message, error──────────────────► result
//!                      │                                                ▲
//!                      └──truncated message──Start──► stream ──result───┘
//! ```
//!
//! An error of the datagrams is the result: the stream is for truncated messages alone.

mod config;
mod connection;
mod fallback;
mod job;
mod steps;
mod tables;

pub use client_request::Pending as Request;
pub use config::Config;
pub use connection::Connection;
pub use fallback::Fallback;
pub use job::Job;
pub use tables::{Parts, Tables};
