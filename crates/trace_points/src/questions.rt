//! Questions that a judge of traces asks: whether what a row puts out is right, from what was known before the row and what is
//! known up to there.
//!
//! Whether a reply is the first, whether what is sent may be, and whether a datagram place may be opened are decided both
//! ways; the least row with a reply that is not the first; marks and faults of a row. By `may_send`, `may_write`,
//! `may_open`, `first_replied_again`, `marks_stand`, `has_one_fault_at_most`.
//!
//! Of an out it is asked, from the books before the row (`past`) and those up to the out, whether a reply is the first
//! (`is_first`), whether what is sent may be (`may_send`: as often as is set at most, at a place that is alive, opened for
//! its server and had no send, to a request that was handed there, had no reply in an earlier row, and is carried), and whether
//! a datagram place may be opened (`may_open`); each says so of every history that the books know, both ways (`TellsSend`
//! and its like). `may_write` is the same of a stream. `search_decides`: whether some stream place of a server opens is
//! found by a walk over the table. `marks_stand` and `has_one_fault_at_most` are the two clauses on the outs of a row
//! alone. `openings_are_decided` and `deadlines_are_decided` do so for two causes of errors. `first_replied_again` gives
//! the least row of a whole trace at which a reply is not the first to a request that was asked: None exactly where there
//! is none (`IsVerdict`). Each call that takes memory answers `NoMemory`, and what it was to change is then as it happens
//! to be; nothing is asked of it again.
//!
//! # Why it is so
//!
//! - **Whether octets carry a request is noted where they are put**, of a request that was asked, since it waits for many
//!   rows and each asked it anew. It is looked up by the octets themselves; where nothing was noted they are looked at as
//!   they stand.

mod causes;
mod configured;
mod judging;
mod laws;
mod marks;
mod outs;
mod questions;
mod streams;

pub use causes::opening_fault;
pub use configured::{ServerUse, TraceConf};
pub use judging::first_replied_again;
pub use laws::{openings_are_decided, search_decides};
pub use marks::{has_one_fault_at_most, marks_stand};
pub use outs::{is_first, may_open, may_send};
pub use questions::{is_live, some_stream_opens};
pub use streams::may_write;
