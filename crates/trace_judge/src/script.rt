//! By what a trace is judged: what its script says of servers and settings.
//!
//! Servers and settings of a script, as a judge of traces has them. By `conf_of`, `uses_of`, `settings_of`.

mod judged;

pub use judged::{conf_of, settings_of, uses_of};
