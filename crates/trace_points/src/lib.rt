//! Points of a trace: what a judge asks there of outs, exchanges, timers, events and causes, and one record of all that is known.
//!
//! Whether what a row puts out is right stands in `questions`; what was sent and waits for its answer, and the messages that come, in
//! `exchanges`; when timers of stream places are due in `due`; the record of tables that events and outs go through in `pass`; whether two
//! events are the same in `events`; why a server gives a request an error in `causes`.
#![tactic(auto)]

pub mod causes;
pub mod due;
pub mod events;
pub mod exchanges;
pub mod pass;
pub mod questions;
