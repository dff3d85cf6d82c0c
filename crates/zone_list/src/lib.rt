//! The list of zones that are kept: a line each, with the zone, its file and its primaries. It reads no file and asks nobody.
//!
//! ```text
//! # zone        file              primaries
//! example.com   example.com.zone  192.0.2.1 192.0.2.2@5353
//! ```
//!
//! Words stand between white space. A line without words names no zone, nor does one whose first word begins with `#`.
//! - `zones_of`: a text gives exactly one list of zones with their files and primaries, or the first line that is
//!   wrong, and why (`one_reading_law`).
//!
//! # Why it is so
//!
//! - **A list** has at most 16777216 octets, a path at most 4095, and a port is 53 where none is said.
#![tactic(auto)]

mod fault;
mod laws;
mod line;
mod list;
mod listed;
mod primary;
mod words;

pub use fault::{ListFault, ListPart, WrongLine};
pub use laws::one_reading_law;
pub use list::zones_of;
pub use listed::{FilePath, Listed};
