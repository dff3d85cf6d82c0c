//! Whether an error of a trace has a cause of its own, and where it is deferred, nothing better can come.
//!
//! Whether an error has a cause of its own, and where servers' errors are deferred nothing better can come, is decided both
//! ways. By `own_cause`.

mod own;

pub use own::own_cause;
