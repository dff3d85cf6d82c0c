//! The messages of a lookup: what is asked, and what is written of an answer.
//!
//! The message of a request is its header's flags and its one question; whether an answer has no data to write, and why.
//! Texts are only tested. By `query_of`, `lacking_in`.
//!
//! ```text
//! let query = query_of(alloc, &ask)?;
//! let text = message_text(alloc, ask.manner.layout, &answer)?;
//! ```
//!
//! How a request is sent and what else is told of its answer is `dns_lookup_run`'s.
#![tactic(auto)]

mod data;
mod json;
mod json_messages;
mod lines;
mod message;
mod query;
mod short;
mod span;
mod yaml;

pub use json_messages::json_text;
pub use message::message_text;
pub use query::query_of;
pub use short::{Lacking, lacking_in, short_text};
pub use yaml::yaml_text;
