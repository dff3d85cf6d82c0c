//! Whether an out of a row is right where it is put: all outs but replies, which are judged elsewhere; and whether each valid request that
//! waits is busy.
//!
//! What is kept of servers, their places and who waits there stands in `loads`; why a request is handed to a server and why a place is closed
//! in `reasons`; why a request waits in `busy`.
//!
//! Whether an out, no reply, is right where it is put is decided both ways. By `is_out_right`.
#![tactic(auto)]

pub mod busy;
pub mod loads;
mod outs;
pub mod reasons;

pub use outs::is_out_right;
