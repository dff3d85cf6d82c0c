//! The rows of each history of a shared client are the plain trace of its events, and so they are right and timely, give
//! what is kept, and serve what has expired: mathematics alone.
//!
//! Mathematics alone: the rows of a legal history are the plain trace of its events, and so right and timely, give what is
//! kept, and serve what has expired. By `legal_histories`.
#![tactic(auto)]

mod laws;

pub use laws::legal_histories;
