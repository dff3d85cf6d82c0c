//! What holds of a server by streams, beside the part of `proof_right`'s machine that it is.
//!
//! # Why it is so
//!
//! - **A tie says nothing of the view's request after a call.** Reconnection hands a request to a connection under the
//!   request's own number, and the number stays in the view; it is read only where a request is sent, and the client sets
//!   it before.
//! - **Calls of a connection within reconnection** are proved by what they leave of its place: the tables of requests and
//!   those of connections agree with the machine each by themselves (`AreTables`, `LinkFits`), so that a call may take a
//!   connection out.
#![tactic(auto)]

mod laws;

pub use laws::{streams_are_shared, streams_are_tied};
