//! What a forward pass over a trace keeps of the last write at each stream place.
//!
//! So is how much of the last write at a place was not taken. By `Writing`, `writing_goes_on`.
//!
//! # Why it is so
//!
//! - **Of a write it is kept how much is missing**, and not how much was taken: counts that events tell may be as large as
//!   64 bits have. A place that a row doesn't name isn't touched: its entry has the row in which it was changed last.

mod laws;
mod writing;

pub use laws::writing_goes_on;
pub use writing::{Entry, Left, Writing};
