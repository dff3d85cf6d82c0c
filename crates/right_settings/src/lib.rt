//! The settings of transports of a client beside those of which the headline speaks: definitions, that the defaults are the
//! headline's first settings, and that all settings are some of which it speaks.
#![tactic(auto)]

mod laws;

pub use laws::{first_settings_are_given, settings_are_told};
