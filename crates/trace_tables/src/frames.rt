//! What a forward pass over a trace keeps of what came at its places, datagrams and frames of streams, and of what was written
//! to streams and waits for a frame.
//!
//! So is what it keeps of frames, and of writes that wait for one. By `Frames`, `Waiting`, `frames_go_on`,
//! `waiting_goes_on`.
//!
//! # Why it is so
//!
//! - **Frames of the newest row are counted when they are asked for.** What they change of what waits, and of since when a
//!   place is quiet, is taken when the next row begins. A datagram takes away the sends that it answers, so the cost of a
//!   row doesn't grow with the datagrams that came at its place.

mod frames;
mod framing;
mod here;
mod laws;
mod ledger;
mod waiting;

pub use frames::{Brought, Frames, received};
pub use framing::{Framing, Stage};
pub use here::Here;
pub use laws::{frames_go_on, here_goes_on, ledger_goes_on, waiting_goes_on};
pub use ledger::Ledger;
pub use waiting::{AtPlace, Waiting, Written, is_free, meet_frames, put_write};
