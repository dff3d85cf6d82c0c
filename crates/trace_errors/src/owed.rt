//! What servers still owe a request: whether each has it, and none owes it an answer.
//!
//! Whether each server has a request and none owes it an answer is decided both ways; all that may be waited for is kept,
//! with every trace. By `are_all_done`, `put_exchange`, `exchanges_go_on`.

mod exchanged;
mod laws;
mod owed;

pub use exchanged::{Exchange, Exchanged, put_exchange};
pub use laws::exchanges_go_on;
pub use owed::are_all_done;
