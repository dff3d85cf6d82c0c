//! The file of a record: the words that name it, and how it is made.
//!
//! Which words name a record's file, and which are behind them; a file's faults are counted. By `record_of`, `RecordFile`.
//!
//! A record may hold what people asked, so its file is made for its owner alone, and never over another file.
//!
//! ```text
//! let (file, rest) = record_of(&words);
//! let mut sink = RecordFile::new(rt, String::from_str(alloc, file)?);
//! ```
//!
//! - `record_of` (`record_file`): the file that words name, `--record FILE` first, and the words behind that. What becomes
//!   of a `RecordFile` no clause says but its count of faults.
//!
//! # Why it is so
//!
//! - **A record's file is made at the first octet**, so that words that are refused leave none, and so that no file is
//!   written over, no link followed and no device filled. `--record FILE` stands first, before the words that were proved
//!   to be read as they are. Status 8 is of records alone.
#![tactic(auto)]

mod file;
mod words;

use dns_values::Status;
pub use file::RecordFile;
pub use words::record_of;

/// The exit status where nothing could be recorded, so that nothing was asked.
pub const NOT_RECORDED: Status = Status(8);
