//! What the records of a zone transfer say: mathematics, and the step of an interpreter.
//!
//! - `step`: the state and the updates of the plain step (`next`); None where the record is wrong there.
//! - `runs_are_cut`, `readings_are_run`, `runs_are_readings`, `refusals_are_due`: the laws of transfers, for any kind of
//!   record.
//!
//! # Why it is so
//!
//! - **The last batch of changes leads to the serial of the transfer**, and an SOA of another name than the zone's is
//!   refused; other records are taken as they come. Updates carry the serials of their SOAs. SOAs stay out of the set of
//!   records while updates are applied: all but the last are gone at the end.
#![tactic(auto)]

mod laws;
mod steps;

pub use laws::{readings_are_run, refusals_are_due, runs_are_cut, runs_are_readings};
pub use steps::{Entry, State, Update, XfrKind, step};
