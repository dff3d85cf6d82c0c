//! What a forward pass over a trace keeps of the timers of stream places, and when they are due.
//!
//! Whether the read timer or the idle timer of a stream place is due is decided both ways; what is kept for that is what
//! the definitions say. By `is_read_timer_due`, `is_idle_timer_due`, `Timers`, `timers_go_on`.
//!
//! `is_read_timer_due` and `is_idle_timer_due` decide both timers of a stream place both ways (`TellsReadTimer`,
//! `TellsIdleTimer`), the second by one walk over the row's frames, which asks for what is held only where the time has
//! passed. `Timers` has beside what is kept of writes, quiet and idle times whether the last frame at a place left
//! something unwritten or had an id that nothing held (`Loose`); `timers_go_on` says that all of it is what the definitions
//! say.
//!
//! # Why it is so
//!
//! - **Whether ids are held is asked of an idle timer only where its time has passed**, behind each frame of the row anew.
//!   A walk with a count would be shorter where many frames each tell an idle time of 0; none but a server that is about to
//!   lose its connection sends them.

mod due;
mod invalid;
mod laws;
mod loose;
mod timers;

pub use due::{is_idle_timer_due, is_read_timer_due};
pub use invalid::Invalid;
pub use laws::timers_go_on;
pub use loose::Loose;
pub use timers::Timers;
