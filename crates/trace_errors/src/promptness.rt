//! Promptness: whether the first final message that comes for a request and matches it is its reply at once.
//!
//! Whether a request is overdue, by its deadline, its tries or a stream's silence, and whether a row is prompt are decided
//! both ways. By `is_prompt`, `is_overdue`, `are_tries_up`, `hear`, `heard_goes_on`.
//!
//! `is_overdue` decides `IsOverdue`, by `are_tries_up` (all sends to one server, the last a read timeout ago at a place that
//! was live) and by the silence of a stream, for which `Heards` keeps the servers that a message came from. `is_prompt`
//! decides `Prompt` of a row both ways (`TellsPrompt`): each message that came, matches and is final is the reply there, or
//! fails and the reply is stale, or the request is overdue, or the place was closed by its read timer. `TraceSettings` has what of that is set: what is
//! deferred, and what a cache keeps.

mod heard;
mod laws;
mod overdue;
mod prompt;
mod settings;

pub use heard::{Heards, hear, is_heard, is_passed_over};
pub use laws::heard_goes_on;
pub use overdue::{are_tries_up, is_overdue, is_stream_silent};
pub use prompt::{is_failing, is_prompt};
pub use settings::TraceSettings;
