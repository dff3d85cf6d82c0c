//! Why a request is handed to a server, and why a place is closed: whether such an out of a row is right where it is put.
//!
//! Whether a request may be handed to a server, whether a place may be closed, and whether a connection ends badly are
//! decided both ways. By `may_start`, `may_close`, `ends_badly`.
//!
//! Of a `Point` within a row, which has what was known before the row and what is known there, `may_start` decides whether
//! a request may be handed to a server (`TellsStart`), `may_close` whether a place may be closed (`TellsClose`), by its
//! timers at that point, by what came, and by replies anywhere in the row, and `ends_badly` whether a connection that is
//! closed makes its requests back off (`TellsBadEnd`). A place at which nothing was sent is held to the row's replies one
//! by one, up to the first that closes it. `is_out_right` asks of each out but a reply what it owes (`TellsOut`).

mod closing;
mod point;
mod starting;

pub use closing::{ends_badly, is_told, may_close, may_close_stream};
pub use point::Point;
pub use starting::may_start;
