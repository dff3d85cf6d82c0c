//! The replay of a list of events, whose trace is right: here the client, which stands on code alone, meets the mathematics
//! of its runs.
//!
//! The trace of a replay is the plain trace of the events handed in, it is **right** and **timely** (below), what is kept
//! is given, and what has expired serves where servers fail; octets of a stream that come in several events do what they do
//! in one. By `Client::replay` and, with settings of transports, `Client::replay_with`, of the trait `Replay`.
//!
//! ```text
//! use client_core::Client;
//! use client_replay::Replay;
//!
//! let trace = Client::replay(alloc, &conf, redundant, cache, &mut words, events)?;
//! ```
#![tactic(auto)]

mod replaying;
mod taking;

pub use proof_client::{
    every_plain_trace_hits, every_plain_trace_is_right, every_plain_trace_serves_stale,
    plain_traces_are_runs,
};
pub use replaying::Replay;
pub use taking::TakeRow;
