//! What `zone_fetch --refresh LIST` does: the zones of a list are kept, over any system.
//!
//! When a zone is asked for, and of which primary, is `zone_refresh`'s. Here each zone gets its turn, primaries are asked
//! for SOAs, zones fetched into their files, and what comes is told. Sockets, files and the clock are the system's.
//!
//! ```text
//! if let Some(asked) = refresh_asked(&words) {
//!     let (status, system) = keep_asked(alloc, &words, asked, system, &mut opener, &mut errors, u64::MAX);
//! }
//! ```
//! - `keep_asked`: at status 0 the file is a list, and what the system did is this, and nothing else (`KeepsList`): the
//!   zones of the list began to be kept, each file was read and that told, and so many turns were made (`AreKept`). At 1
//!   the file is no list of a zone, at 2 the words are none, and that is told (`RefusesList`). `refresh_asked` says which
//!   words are which.
//! - `keep_zones`: `AreKept`: over any world the deeds, and the zones that are left, are those of so many turns. A turn
//!   sleeps until the least moment at which a zone is due, and visits each zone once, in order: it does what the zone's
//!   machine waits for, dates what comes by the clock, and tells.
//! - `keeping_laws`: nothing is overslept; a zone is asked for when it is due and not sooner, fetched exactly where the
//!   serial is greater, told to have expired again only behind a confirmation, and visited once a turn.
//! - What a deed does in the system (`Does`): a primary is asked for the SOA of its zone (`AsksAt`), a zone fetched from
//!   it into the zone's own file, by its changes where the file has it (`BringsAt`), and what came is told in a sentence
//!   (`TellsAt`).
//! - `ask_serial`: what a new client of that primary alone got to a question for the SOA, by datagrams (`Asks`), within
//!   ten seconds. `serial_said`: the serial of an authoritative answer with code 0 and an SOA of the zone, or why there
//!   is none.
//! - `held_at`: a serial and times are those of the zone with this apex, which the file at the path has (`HasTimers`).
//!
//! Not said: that status 3 is one of a file that can't be read, and what the real system does at an act, which is
//! `zone_fetch`'s `RealSystem`: it calls `ask_serial`, `held_at` and `fetch_for` of `zone_fetch_run`.
//!
//! # Why it is so
//!
//! - **Turns** visit each zone once, one behind another, so that none starves, and a zone does at most one asking or
//!   fetching in a visit. Want of memory in one counts as an answer that didn't come.
//! - **The whole zone is asked for also where the server fails at its changes** (SERVFAIL), as BIND and NSD do: a Knot
//!   whose journal was cut answers so for ever. `zone_fetch --from` doesn't: who calls it sees the failure, and may ask
//!   again.
//! - **Where a file has the zone no more**, since it was deleted or written over, the zone is fetched whole at once. It
//!   stays held, as of the last confirmation.
//! - **EXPIRE counts from the start** where no primary has confirmed the zone since: files have no such date.
//! - **Stopping**: there is no end but a signal. A file changes by one rename, so that it is whole whenever the program
//!   ends.
#![tactic(auto)]

mod asking;
mod fetching;
mod files;
mod keeper;
mod keeping;
mod laws;
mod listing;
mod sentences;
mod serials;
mod system;
mod timers;
mod turns;
mod visits;
mod words;
mod world;

pub use asking::ask_serial;
pub use files::held_at;
pub use keeping::keep_asked;
pub use laws::keeping_laws;
pub use serials::{NoSerial, serial_said};
pub use system::System;
pub use turns::keep_zones;
pub use words::{KeptForm, UnkeptList, refresh_asked};
pub use world::{Deed, World, ZoneNews};
