//! What a forward pass over a trace keeps of how long stream places may be idle.
//!
//! So is how long a stream place may be idle, by what its server told last. By `meet_idle`, `idle_of`, `last_told`,
//! `idle_goes_on`.

mod idle;
mod keepalive;
mod laws;

pub use idle::{Idle, idle_of, meet_idle};
pub use keepalive::{last_told, told_in};
pub use laws::idle_goes_on;
