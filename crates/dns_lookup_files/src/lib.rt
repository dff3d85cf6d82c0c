//! The words of a lookup that stand in files, which `-f FILE` names: where among words a word stands, and the words behind which those of the
//! files stand.
//!
//! Which words of a line name files behind `-f`, which stay, and that the words of the files, line by line, stand behind
//! those that stay, where the files are known. Not said: that a file which is there is read. `dns_lookup` does not call it
//! yet, and has code of its own for that, of which nothing is proved. By `with_files`, `Place::behind`.
//!
//! ```text
//! let words = with_files(alloc, &mut opener, &words)?;
//! let lookup = lookup_of(alloc, &words)?;
//! ```
//!
//! # Why it is so
//!
//! - **Words of a lookup's files are words of UTF-8** (`dns_lookup_files`): one that isn't makes its file one that could
//!   not be read; in a comment line anything may stand. White space is that of ASCII.
#![tactic(auto)]

mod filed;
mod place;
mod text;

pub use filed::{FileFault, with_files};
pub use place::Place;
