//! What earlier replies give later requests: views of messages, what messages say that have expired, and errors.
//!
//! Whether an earlier reply gives a message, as a view that is valid or as stale, or an error, is decided both ways. By
//! `is_view`, `is_supplied`, `is_kept_error`.

mod asked;
mod errors;
mod serving;
mod settings;
mod telling;

pub use errors::is_kept_error;
pub use serving::{Manner, is_supplied, is_view};
pub use settings::ReplySettings;
