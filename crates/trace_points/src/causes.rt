//! Why a server gives a request an error: faults at its places, messages that don't answer it, and requests that can't be composed.
//!
//! Which error of sending or receiving an event tells of a request, whether a message came by stream and does not answer
//! it, and whether it can't be composed are decided both ways. By `failure`, `came_wrong`, `is_unread`, `has_too_many`.
//!
//! Of the causes that a server has for an error in a row, `failure` gives what the event tells of a request that was sent
//! where it happened (`TellsFailure`), `came_wrong` says whether a message came by stream and does not answer
//! (`TellsWrong`), and `is_unread` and `has_too_many` whether a request can't be composed; `opening_fault`, `are_tries_up`
//! and `is_stream_silent` are the others. `server_cause` is all of it, for whatever error (`TellsServer`).

mod failing;

pub use failing::{came_wrong, failure, has_too_many, is_unread};
