//! What a forward pass over a trace keeps, by number: its places, its requests, what was sent and written, and what came. It is what the
//! definitions of a right trace say of the history so far.
//!
//! Places, requests and sends stand in the crate itself; what came, and what was written and waits, in `frames`; the last write at each place
//! in `writes`; since when a stream place is quiet in `timers`, and how long it may be idle in `idle`; sets of numbers under keys in `sets`.
//!
//! What a pass over a trace keeps of places, requests and sends is, after each event and out, what the definitions of a
//! right trace say. By `Books`, `books_go_on`, `deadlines_are_decided`.
//!
//! A pass goes forward over events and outs. `Books` keeps of places their kind, server and how they stand, of requests
//! what was asked and when, where they were handed to and whether they have a reply, and what was sent by datagrams;
//! `Frames` what is read of the next frame at a place and what the newest row's event brought; `Waiting` what was written
//! under each id and waits, the frames of the newest row not counted; `Here` what the newest row's outs made of places, its
//! event not counted. `Writing` keeps of the last write at a place how much is missing, and `Quiet` since when a place is
//! quiet, which `quiet_since` tells with frames of the newest row too; `Idle` how long it may be idle, by the last option
//! edns-tcp-keepalive of two octets that came there (`last_told`). Everything is found by key. Each step is a plain
//! function of the tables, which the code mirrors, and `books_go_on`, `frames_go_on`, `waiting_goes_on`, `ledger_goes_on`,
//! `here_goes_on`, `writing_goes_on`, `quiet_goes_on` and `idle_goes_on` say that what is kept is what the folds of
//! `right_trace` say of the history: before the first row, after each event, and after each out. The books count for every
//! trace, a wrong one too.
#![tactic(auto)]

mod books;
pub mod frames;
pub mod idle;
mod laws;
mod lists;
mod places;
mod requests;
mod sends;
pub mod sets;
pub mod timers;
pub mod writes;

pub use books::Books;
pub use laws::{books_go_on, deadlines_are_decided};
pub use lists::{Items, Newest, add};
pub use places::{Place, Stand, meet, put};
pub use requests::{Asked, Requests, Started, same_via};
pub use sends::{Sends, Sent, Tried};
