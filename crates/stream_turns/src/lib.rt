//! The turns of one stream connection that carries a zone transfer: it is told what its edge gives, and its edge does what it
//! puts out.
//!
//! A client gives each result as a reply, of which a request has one. A transfer has many, so its connection is held here by
//! itself, and its results stand on a board of its own until they are taken.
//!
//! ```text
//! let mut transfer = Transfer::new(alloc, place, opened)?;
//! let (mut response, outs) = transfer.begin(&mut words, request)?;
//! act_all(&mut edge, outs.as_slice())?;
//! loop {
//!     turn(&mut transfer, &mut edge, &mut clock, &mut words)?;
//!     while let Poll::Ready(part) = transfer.next_part(&mut response) { .. }
//! }
//! ```
//!
//! - `Transfer::begin`, `Transfer::step`: what is put out, and the connection then, are those of the plain connection
//!   (`begins`, `steps`); numbers run out only where it has none; `Failed` only after an earlier refusal.
//! - `Transfer::next_part`: the oldest result that stands, which is then taken.
//! - `act_all`, `turn`: the edge acts on each out in order; a turn waits until the timer is due, polls once, and steps by
//!   what came (`IsTurn`).
//!
//! # Why it is so
//!
//! - **A transfer's connection is held by itself** (`stream_turns`), since a client gives each result as a reply, of which
//!   a request has one. It is a transport with a board of its own, so that the step of a client serves it as it is.
//!   `tool_transports` tells the end of a transfer as a reply with `AlreadyDone`.
#![tactic(auto)]

mod apart;
mod transfer;
mod turning;

pub use apart::{Apart, Line};
pub use transfer::Transfer;
pub use turning::{act_all, turn};
