//! The world outside a client: the system's sockets, its clock, its random words and its files.
//!
//! The books of `socket_places` over the system's sockets; its clock, random words and files, each against its trait: polls
//! and faults are counted exactly, the clock does not fall, and each call ends. By `NetworkEdge`, `SocketEdge`,
//! `RealClock`, `RandWords`, `FileOpener`, `UdpConnect`, `TcpConnect`.
//!
//! Each of these is one of the traits by which the crates below take what comes from outside. The books of the edge are those of
//! `socket_places`, over the system's sockets. What stands here adapts: it is proved of each part that its counts are right and
//! that its calls end; of what the system gives, and of what becomes of what it is handed, no clause speaks.
//!
//! ```text
//! let mut edge = SocketEdge::new(rt, alloc);
//! let mut clock = RealClock::new(rt);
//! let mut words = RandWords::new(rand::make_rng::<StdRng, _>(&rt)?);
//! let mut files = FileOpener::new(rt);
//! ```
//!
//! Each object is proved against its trait with exact counts; of what the system gives, of what becomes of what it is
//! handed, and of time but that the clock does not fall, no clause speaks. The books are those of `socket_places` over the
//! system's sockets.
//!
//! - `NetworkEdge`, over any network: `learn_server`, `act` and `poll` are those of the books (`learns`, `acts`, `told`);
//!   `learn_server`, `act` and `wait` leave both counts; `poll` counts itself, and its event where that tells of a fault.
//!   It tells no deeds and no waits.
//! - `SocketEdge` is that over `SystemNetwork`. `new` counts nothing. What it hands to the system for a wait is the time
//!   rounded up to whole milliseconds, at most 2^31 - 1 of them (the value of `milliseconds`).
//! - `SystemNetwork`: what the system is to look for at a socket is exactly what the books ask (`asked_of`), and an address
//!   is handed to it as it is (`system_address`). What it gives is handed on as it is (`count_of`), octets as the buffer's
//!   first ones (`octets_of`).
//! - `RealClock`: `gives` what it keeps, which `rises`. `RandWords`: its words are a function of the generator's state,
//!   exactly.
//! - `FileOpener`, `ConfFile`, `UdpConnect`, `TcpConnect`, `UdpDgram`: the count after each call is exact.
//!
//! # Why it is so
//!
//! - **A socket is made unconnected, and connects without waiting**: the standard library makes no such stream, and a
//!   listener that is shut down can't be connected any more (Linux 6.18 answers EINVAL). So `client_edge::unconnected`
//!   calls the C library's `socket` with the flags by which no call waits and no program inherits it; it is the one
//!   function with `unsafe`. `connect` then picks the local port, for datagrams too. The call is that of `UdpSocket`, which
//!   takes a descriptor of any kind: `TcpConnect` may give a stream that is still connecting.
//! - **One wait tells which places are ready.** `SocketEdge::poll` gives an event that is queued; else it looks at the next
//!   place that the last wait found ready, and asks the system first, without waiting, where none is left. So none starves
//!   another, and idle sockets cost no call of their own. A poll looks at one place: where that has nothing to tell it
//!   gives nothing, and the next wait doesn't last.
//! - **An address that is not available is `Unreachable`.** A call that would wait is `Expired` at `UdpDgram` alone, whose
//!   trait has no other answer; at a place it is no event. A datagram that can't be sent for now is kept and goes on later,
//!   like a write.
//! - **Want of memory at the edge.** An act has then done nothing; a poll may lose what came at one place, and of a stream
//!   nothing more is read then, since there is a gap.
#![tactic(auto)]

mod address;
mod answer;
mod command_line;
mod conf_file;
mod fault;
mod file_opener;
mod network;
mod rand_words;
mod real_clock;
mod socket_edge;
mod tcp;
mod udp;
mod unconnected;

pub use address::system_address;
pub use answer::{count_of, octets_of};
pub use command_line::command_words;
pub use conf_file::ConfFile;
pub use fault::{fault_of, is_for_later};
pub use file_opener::FileOpener;
pub use network::SystemNetwork;
pub use rand_words::RandWords;
pub use real_clock::RealClock;
pub use socket_edge::{NetworkEdge, SocketEdge};
pub use tcp::{TcpConnect, TcpSocket};
pub use udp::{UdpConnect, UdpDgram};
