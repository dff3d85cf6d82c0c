//! The configuration of a resolver, as `resolv.conf` has it (resolver(5)).
//!
//! The configuration is the fold of its lines' grammar; `finalize` twice is once; printing is exact; files in memory give
//! exactly their octets; the system's configuration is dropped only at a fault. By `ResolvConf::parse`, `parse_line`,
//! `finalize`, `Display`.
//!
//! It is read from a `Source` or through an `OpenFile`, line by line, and printed. What asks the
//! servers, and what searches names, is left to others.
//!
//! ```text
//! let mut conf = ResolvConf::new(alloc);
//! conf.parse(alloc, &mut source)?;
//! conf.finalize(alloc)?;
//! ```
//!
//! - The configuration's lines are a grammar over words; `parse` is its fold.
//!
//! # Why it is so
//!
//! - **`SearchList`** has calls of its own (`from_suffix`, `push_root`) and a vector of its own where `Seq` would serve
//!   below them.
//! - **A default without its file.** A file that could not be read is dropped only where the count of faults rose
//!   (`IsDefaultOf`). Where an opener tells nothing of its files, `default` promises nothing of the result.
#![tactic(auto)]

mod conf;
mod error;
mod fault;
mod file;
mod laws;
mod line;
mod mem_files;
mod option_words;
mod options;
mod parse;
mod search;
mod server;
mod show;
mod words;

pub use conf::{ResolvConf, finalize_laws};
pub use error::{Error, IoFault};
pub use fault::LineFault;
pub use file::OpenFile;
pub use laws::line_laws;
pub use mem_files::MemFiles;
pub use options::ResolvOptions;
pub use search::{SearchList, SearchSuffix};
pub use server::{ServerConf, Servers, Transport};
