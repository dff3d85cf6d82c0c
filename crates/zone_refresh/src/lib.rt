//! When a zone that is kept is asked for, of which primary, and when it has expired (RFC 1034 4.3.5, RFC 1035 3.3.13).
//!
//! A zone that is kept asks its primaries in turn, fetches a greater serial, and that it has expired is told once.
//!
//! Nothing is asked here, and no clock is read: events come with their moment, and what is to be done goes out.
//!
//! ```text
//! let mut zone = KeptZone::new(2, None, now);
//! let outs = zone.step(now, Event::Tick);
//! if outs.expired { /* tell it */ }
//! match outs.task { Some(Task::AskSoa(primary)) => .., Some(Task::Fetch(primary)) => .., None => .. }
//! sleep_until(zone.next_due());
//! ```
//!
//! - `KeptZone::step`: the zone and what is put out are those of the plain step (`zone`, `outs`; `zone_after`, `outs_after`).
//! - `KeptZone::next_due`: the moment up to which nothing is to be done. `KeptZone::has_expired`: whether EXPIRE seconds went
//!   by since it was confirmed.
//! - `refresh_laws`: a zone that has expired is told, and primaries that don't answer are asked in turn.
//!
//! # Why it is so
//!
//! - **A zone that is kept** (`zone_refresh`): a primary whose serial is less goes unheeded, and the next is asked; a pause
//!   lasts a second at least, also where REFRESH or RETRY is 0; without a zone primaries are asked again each minute. That
//!   it has expired is told once.
#![tactic(auto)]

mod kept;
mod laws;
mod timing;

pub use kept::{Event, KeptZone, Outs, Phase, Task, ZoneTimers};
pub use laws::refresh_laws;
