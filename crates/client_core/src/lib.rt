//! The client: servers, deadlines, and one step for each event.
//!
//! Each step is the plain client's, and no timer is due behind it; the cache over the choice over the servers is told as
//! the plain client has it; the next due moment is told, and whether a request would be served by what is kept; an edge and
//! a clock of lists give exactly their lists. By `Client::step`, `Client::layers`, `Client::would_serve`.
//!
//! It does nothing at a socket itself. `Client::step` takes an event and gives what is to be done.
//!
//! - `Client::step`: `plain_step words event client` is the row and the client after it (`take_in` over this very
//!   transport). Behind it no timer is due (`none_due`): the plain client fires timers until none is.
//! - `Client::new`: the plain client as it begins (`started`): a choice among the servers of the configuration, numbered in
//!   their order, with the settings of the choice that were handed in, under a cache with its settings. More than 2^32
//!   servers count as want of memory. `with_seed` is the same with a seed for the hashes of the cache.
//! - `Client::layers`: the cache over the choice over the servers is that of the plain client (`layer` of `Whole`).
//! - `Client::replay`, a method of the trait `Replay` of `client_replay`, where code and mathematics meet: its rows are
//!   `plain_trace` of the settings, the configuration, the words and the events; its events are those handed in; and the
//!   trace is `Right` and `Timely` (`crates/right_trace/specs/Right.antt`, read aloud in docs/DEFINITIONS.md), what is kept
//!   is given (`hits`, `Hit.antt`), what has expired serves where servers fail (`stale`, `StaleServed.antt`), and its
//!   events may be cut (`cut`, `MayBeCut` in `crates/proof_cutting/specs/Cuts.antt`). `NumbersUsed` only where the plain
//!   trace is none; else `NoMemory` alone. `Client::replay_into` says the same (`IsReplay`) of rows that a `TakeRow` takes
//!   as they are made.
//! - `Client::next_due` is the least due moment of the timers that are set, so that whoever holds the client knows how long
//!   it may sleep; `Client::would_serve` tells whether the cache would serve a request at a moment, as it stands, and uses
//!   nothing; `Client::may_wait` is the time until then from the moment of the client's last event on (`wait_of`), the
//!   greatest `u128` where no timer is set, and 0 once a step was refused. Both take no memory.
//! - `every_plain_trace_is_right`, of `proof_client`, says so of every plain trace, as a law; code calls it to get the
//!   fact.
//! - `Edge` tells one list of what was done with it, a count of its polls and a count of the faults that it gave, which
//!   `is_fault` names; `Clock` tells the moments that it gave.
//! - `Edge::wait` has a body that does nothing, so that an edge need not sleep. It changes no deed, poll or fault. An edge
//!   may keep what it was told in a list (`waits`): after a call that wait is the last of the list, or the list is as it
//!   was (`Waited`), and no other call changes it. `ListEdge` keeps each wait for which it has the memory.
//!
//! # Why it is so
//!
//! - **`ListEdge` keeps a queue** of the list that it is handed, and takes its memory before it changes, so that want of
//!   memory leaves it as it was.
#![tactic(auto)]

mod client;
mod clock;
mod edge;
mod list_edge;
mod octets;
mod servers;

pub use client::Client;
pub use client_request::{Event, Moment, Out, Row, Rows, Trace, Via, What};
pub use client_settings::{Settings, Transports, cache, dgram, multi_stream, redundant, stream};
pub use client_steps::{Asked, Handed, Upstream, Waiting};
pub use clock::{Clock, ListClock};
pub use edge::{Deed, Edge, is_fault};
pub use list_edge::ListEdge;
pub use octets::{all_asked_in_octets, all_in_octets, in_octets};
pub use servers::{Layers, Servers};
