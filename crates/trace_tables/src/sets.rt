//! Sets of numbers, each under a key, as a forward pass over a trace keeps them: places of a server, requests that wait there.
//!
//! A number that joins a set is in it, and one that leaves it is not; a set has as many numbers as are counted. By `join`,
//! `leave`, `count`, `sets_go_on`.

mod laws;
mod sets;

pub use laws::sets_go_on;
pub use sets::{Members, Sets, contains, count, join, leave};
