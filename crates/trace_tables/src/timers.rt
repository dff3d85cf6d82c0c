//! What a forward pass over a trace keeps for the timers of stream places.
//!
//! So is since when a stream place is quiet, whatever frames of the newest row count. By `meet_quiet`, `put_quiet`,
//! `quiet_since`, `quiet_goes_on`.

mod laws;
mod quiet;

pub use laws::quiet_goes_on;
pub use quiet::{Quiet, meet_quiet, put_quiet, quiet_since};
