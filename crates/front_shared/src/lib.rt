//! A forwarder that several threads share: each has a pass, and what all of them did stands in one history.
//!
//! Of a forwarder that several threads share: all calls stand in one history, whose rows one forwarder makes one behind
//! another; each call that is answered is one row there, at the place that it is told, and a caller has no other rows; the
//! first caller is told, once and in the order of the history, all that the rows of others put out that is not an answer by
//! a datagram; a call by which memory or numbers run out ends the history. By `SharedForwarder::new`, `submit`, `end`,
//! `close`, `Pass::history_is_legal`, `Closed::settle`.
//!
//! A call steps the forwarder by an event, and is answered by the row that one forwarder makes of it behind the rows of all calls
//! before. Whoever made a row may send its answers by datagrams; all else of it is left to the first caller, who is told of it in the
//! order of the history. No journal is kept, so that it takes no more memory the longer it runs.
//!
//! # Why it is so
//!
//! - **What several threads of the forwarder share is the forwarder whole**, under one lock: a query, its answer and what
//!   then waits are one step. What other threads' rows leave to the first one waits under the same lock, so that a write
//!   can't overtake the opening of its place. An entry of its history is a row, without words: that one forwarder made the
//!   rows is said of the stream of words as a whole.
#![tactic(auto)]

mod desk;
mod entry;
mod handing;
mod key;
mod pass;
mod shared;
mod stepping;

pub use entry::{Entry, Item, Receipt};
pub use handing::is_for_any;
pub use key::{ForwarderKey, Opened};
pub use pass::Pass;
pub use shared::{Closed, Held, SharedForwarder};
