//! Which message came first for a request, of rows that are done.
//!
//! Which message came first for a request among rows that are done is decided both ways, and so is whether it could be given one
//! that fails. By `Firsts`, `came_first`, `came_earlier`, `message_fails`.

mod failing;
mod firsts;
mod laws;

pub use failing::message_fails;
pub use firsts::{Arrived, Firsts, came_earlier, came_first, note_arrivals};
pub use laws::first_messages_go_on;
