//! What a forwarder's program makes of its options and of the configuration that a source gives, and what it tells where it ends.
//!
//! What a forwarder's program makes of its options and of a configuration: how its cache is set, how servers are chosen and
//! how each is asked, by the crate's settings and by those of practice; which servers are asked of a file as it is found, with what is told of
//! its lines, or why none is; the line, the sentence and the status of each cause of an end. By `cache_of`, `choice_of`,
//! `settings_of`, `conf_asked`, `end_because`, `tell_unasked`.
//!
//! ```text
//! let conf = conf_asked(alloc, &options, &mut source, &mut errors, &mut words)?;
//! let status = end_because(alloc, listened, port, &mut sink, &mut errors, cause);
//! ```
#![tactic(auto)]

mod cause;
mod itself;
mod reading;
mod sentences;
mod settings;
mod telling;
mod unheard;

pub use cause::Cause;
pub use itself::asked_itself;
pub use reading::conf_asked;
pub use settings::{cache_of, choice_of, settings_of};
pub use telling::{end_because, end_delivered, end_without_memory, tell_refusal, tell_unasked};
pub use unheard::Unheard;
