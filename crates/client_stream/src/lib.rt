//! One connection to a server by stream, at a place that was opened: requests go out one behind the
//! other, and answers come in any order (RFC 7766); of a transfer several messages come (RFC 5936, RFC 1995).
//!
//! Each call is the step of the plain machine of a stream connection: frames, ids, transfers, writing on, keepalive, read
//! and idle timers, each end with its errors in order; an open id is never written again; octets in two pieces do what they
//! do in one; what a transfer gets is the fold of what its messages give. By `Connection` by `SendRequest` and
//! `SendRequestMulti`, `Queries`, `Framer`, `Config`, `frames_law`, `ids_law`, `cutting_law`, `transfer_law`.
//!
//! `Connection` is seen as `Stream`: place, settings, the line, the octets that no frame has taken, and whether it failed.
//! The line (`Line`) is the connection without those octets: who holds each id, the id of each request that waits for its
//! answer, the requests that were not written yet, what is outstanding of the frame that is being written, where the
//! connection is, how long it waits for a frame and while idle, and whether a request had the empty option 11. Its plain
//! machine is `crates/client_stream/specs/Plain.antt`. The code keeps who holds each id in slots and the other tables by
//! number.
//!
//! A request is one that a message answers, or a transfer (`AnyRequest`); the plain machine is a function of what is asked
//! of requests of either kind, `one` and `several`. `Connection` is a `SendRequest` by `transport one several` and a
//! `SendRequestMulti` by `transfers one several`: both have the same `step`. What a message is to a transfer
//! `client_transfer` says (`checked`): its part is put on the board, and then the end, or the transfer holds its id again,
//! at its place.
//!
//! An octet that comes is copied twice: into what came and no frame has taken (`Framer::feed`), and into its frame
//! (`Framer::next_frame`), which is the message that is given. What stands behind taken frames is moved to the front once
//! it is less than what was taken: so at most once more for each octet taken, and not at all where a piece ends with a
//! frame. What is outstanding of a frame that is being written is shared with the out that has it, and not copied, however
//! little of it is taken at a time.
//!
//! - `Framer` is seen as the list of octets that no frame has taken. `next_frame` gives the first frame, if it is whole,
//!   and leaves what stands behind it. What was taken is kept only while it is no more than what is left.
//! - `Queries` is seen as an `IdTable`: items by id in order of ids, and a mark. `insert` gives `next_id`, and `Full`
//!   exactly at 32768 ids; `slots` shows as many slots as the mark, each with the item of its id. A refusal changes
//!   nothing, and hands the item back. `insert_at` takes no memory.
//! - `frames_law`: the frames of octets are those of their pieces, wherever they are cut. `ids_law`: from the start on, in
//!   any run of calls, whatever else their views hold, an id that was written is not written again before a frame with it
//!   freed it or the connection ended; a message of a transfer of which more are to come does not free it. `cutting_law`:
//!   at one moment, a piece in two parts leaves and gives what it does in one, as also where a number would pass 64 bits.
//!   `transfer_law`: the parts that a transfer gets are the fold of what each message with its id gives (`transferred`),
//!   whatever other messages come between them.
//! - Errors come in order of ids, then to the queued requests in order of tickets; both stand in `ends_with`.
//!
//! # Why it is so
//!
//! - **What frees an id leaves an empty list** under it: a place has at most 65536 ids, and no table has to be known to
//!   hold a key once.
//! - **Requests by stream are composed without a limit**, and a message of more than 65535 octets is then refused: with
//!   names compressed, only what can't be sent is refused.
//! - **The id before the item.** `Queries::next_id` tells the id that `insert` gives next, so that a request is composed
//!   under it before it is kept. Where the message is too long an empty holder takes the id and leaves it again: the mark
//!   rises as if it had been held.
//! - **The error of a connection that ends while idle** reaches nobody who holds an id, since nobody does; it is that of
//!   the queued requests.
//! - **Two timeouts, two kinds of requests.** An active connection keeps the moment from which it waits, and the time that
//!   is in force. A connection to which nobody has asked a request has the time of single ones in force.
//! - **`LineStage`, `Holder`, `QueuedRequest` and `AnyRequest` are public**, since definitions speak of them.
#![tactic(auto)]

mod composing;
mod connection;
mod framer;
mod hearing;
mod keepalive;
mod laws;
mod line;
mod queries;
mod request;
mod transfer;
mod writing;

pub use client_request::Pending as Request;
pub use client_settings::stream::Config;
pub use client_transfer::{XfrState, check_stream};
pub use connection::{Connection, Transport};
pub use framer::Framer;
pub use laws::{cutting_law, frames_law, ids_law, transfer_law};
pub use line::{Line, LineStage};
pub use queries::{InsertFault, Queries};
pub use request::{AnyRequest, Holder, QueuedRequest, RequestMulti};
