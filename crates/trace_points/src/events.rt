//! Whether two events are the same, in all that was recorded of them.
//!
//! Whether two events are the same is decided both ways, part by part: moments, places, faults, counts, octets, and a
//! request's base, header and OPT record. By `is_same_event`.

mod same;

pub use same::is_same_event;
