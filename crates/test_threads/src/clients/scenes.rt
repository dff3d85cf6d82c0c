//! What two callers ask.

use client_request::{Event, Events};
use dns_script::{Script, read_script};
use std::alloc::Global;

/// Two lanes: one asks, and the other opens the place that the first wants, and asks too.
pub const LANES: &str = "conf nameserver 192.0.2.53\nwords 4660 4661 4662\n\
    lane\n\
    at 0 ask 000001000001000000000000076578616d706c6503636f6d0000010001 00000100 -\n\
    at 20 tick\n\
    lane\n\
    at 10 opened 0\n\
    at 30 ask 000001000001000000000000076578616d706c6503636f6d00001c0001 00000100 -\n";

/// The script of the two lanes.
pub fn script(alloc: Global) -> Option<Script> {
    read_script(alloc, LANES.as_bytes(), true).ok()
}

/// An event of a lane.
pub fn event(alloc: Global, lanes: &[Events], lane: usize, index: usize) -> Option<Event> {
    lanes
        .get(lane)?
        .as_slice()
        .get(index)?
        .try_clone(alloc)
        .ok()
}
