//! What commands share: their exit statuses, the lines that tell why one ends, what is written whole, the configuration that a
//! source gives, and numbers among the words.
//!
//! An output is written whole and handed on, or its first octets and the sink's count of faults rose; a line that tells why
//! nothing else is written, the same; the configuration of a source is what its text says, finalized, or the line that is
//! refused is named; a number is taken exactly where a word writes one of its range in decimal, without a sign or a leading
//! zero. By `deliver`, `say`, `end_by`, `configuration`, `conf_at`, `number_in`.
//!
//! # Why it is so
//!
//! - **The status of a refusal** stands also where a sink that fails takes the line that tells it in part. A sink that
//!   finds no memory for the line gives 6; so on 1, 2 and 7 the line is whole, or the sink's count of faults rose. After it
//!   the sink is flushed too; whether that failed is told by its count alone.
#![tactic(auto)]

mod conf;
mod ending;
mod lines;
mod number;
pub mod statuses;
mod writing;

pub use conf::{conf_at, configuration};
pub use ending::Ending;
pub use lines::{refused_line, says};
pub use number::number_in;
pub use writing::{deliver, end_by, say};
