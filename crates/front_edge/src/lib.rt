//! The front of a forwarder over the system's sockets: listeners for datagrams and streams at each address that is listened on, the
//! streams of peers, and the places of the client within, over which there is one wait.
//!
//! The front of a forwarder over the books of `listener_peers` and `socket_places`: `act` does what they do with an out,
//! `poll` gives what they tell, `listen` opens as many listeners of each kind as there are addresses or counts a fault (at
//! which addresses is believed), and each call ends; over the system's sockets, and over any listeners and sockets; the
//! program hands `serve_as` this front, the real clock, words and files, and ends safely; so do the front and the doors of
//! several threads, which it hands `serve_by_all`, and of which no more is said. By `ListenerFront`, `SocketFront`,
//! `SharedFront`, `SystemDoor`, `main`.
//!
//! The front of a forwarder over the system's sockets: each out is done by the books of listeners and places, each poll
//! gives what they tell, and that it can't be listened is counted. By `SocketFront`, which is a `ListenerFront` over the
//! system: `new`, `act`, `poll`, `listen`.
//!
//! The books are those of `listener_peers` and `socket_places`. What stands here adapts: it is proved what becomes of each out and
//! of what the books tell; of what the system gives, and of what becomes of what it is handed, no clause speaks.
//!
//! ```text
//! let mut front = SocketFront::new(rt, alloc, addresses);
//! ```
//!
//! - **The front over sockets** (`front_edge`): `act` does what the books of `listener_peers` and `socket_places` do with
//!   the out (`IsActed`), `poll` gives what they tell (`PollGives`), and `listen` opens one listener of each kind at each
//!   address (`IsListening`) or counts a fault. What the system gives and takes no clause says.
#![tactic(auto)]

mod address;
mod dgrams;
mod front;
mod listeners;
mod streams;

pub use address::address_of;
pub use dgrams::SystemDgrams;
pub use front::{DeafAt, ListenerFront, SocketFront};
pub use listeners::{OpenListeners, SystemListeners};
pub use streams::SystemStreams;
