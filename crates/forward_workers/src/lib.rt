//! A forwarder that several threads turn over: workers take what DNS clients send by datagrams, and the first thread has all else, the
//! streams, the places of the client within and its timers.
//!
//! The forwarder's program by several threads: at status 0 there is one history, whose rows one forwarder makes one behind
//! another, and the client within made a right trace; each worker took what its own rows are of, in their order and each
//! once, and sent of each just the answers by datagrams; all else the first thread did, which made just the turns of its
//! words, in the order of the history; the line says how many answers all put out. Statuses 1 to 5 have their causes. Not
//! said: in which order threads come to the lock, and that one does; at which moments the events stand, that a worker
//! polls, answers at once or wakes the first thread; why it ends with 6 or 7. By `serve_by_all`.
//!
//! All of them step one forwarder, which `front_shared` shares among them. A worker sends what its own rows answer by datagrams,
//! whoever it is for; what else they put out is the first thread's to do, in the order of the one history, and it is woken for that.
//!
//! - **Several threads** (`front_shared`, `forward_workers`). `SharedForwarder::submit` steps one forwarder under one lock:
//!   what the pass has seen then begins with what it had seen, ends with this call's row, at the place that the receipt
//!   tells, and has just the calls of this caller that were answered (`IsSubmitted`); what a pass has seen is the rows that
//!   one forwarder makes one behind another (`IsLegal`, by `Forwards`). Of the rows of others the first caller is told, at
//!   its next call, all that is not an answer by a datagram, in the order of the history (`told`, `waits_after`). A call by
//!   which memory or numbers run out ends the history (`IsEnded`), and each later one answers `Failed` (`IsBehind`). `hold`
//!   gives the forwarder for several calls between which no other caller has one; `Held::submit` has the clauses of
//!   `submit`. `serve_by_all` has the statuses of `serve_as`, each with its cause. At status 0 there is one history
//!   (`IsShared`), whose rows one forwarder made one behind another, the client within a right trace: each worker took at
//!   its door what its own rows are of, in their order and each once, and answered there with just the outs that are
//!   answers by datagrams (a door may send them at its next `flush`); the first thread made just the turns of its words,
//!   and did in each what the rows of workers before it had left to it and then what its own row puts out; the line says
//!   how many answers all put out together. A worker that gives up ends the history, and its status is that of all. Not
//!   said: at which moments, in which order workers come to the lock and that one comes to it, and what is left to the
//!   first thread behind its last turn, which nobody does.
//!
//! # Why it is so
//!
//! - **A worker does of its row what anyone may do**, answers by datagrams, whoever they are for. It wakes the first thread
//!   only where something begins to wait for it, by a datagram to a socket of loopback; what comes there is thrown away. It
//!   holds the forwarder for all that has come at its door, up to 32 datagrams (`SharedForwarder::hold`), and sends its
//!   answers once it lets go: with a lock for each datagram two workers answered fewer hits than one thread.
//! - **Workers of one address share one socket that does not wait**: each sleeps for a second at most until something comes
//!   at it, and sees within a second that the others have ended. What threads have of their own is handed to them by value
//!   and given back (`map_vec`), so that nothing borrowed lies in a thread.
//! - **How many workers there may be is a premise of `serve_by_all`** (fewer than 2^32 - 1), since callers of a shared
//!   forwarder are numbered by 32 bits; `dns_forward` has 16,384 at most.
#![tactic(auto)]

mod crew;
mod door;
mod first;
mod lanes;
mod list_door;
mod serving;
mod sharing;
mod working;

pub use crew::{Crew, First, Worker};
pub use door::Door;
pub use list_door::ListDoor;
pub use serving::serve_by_all;
