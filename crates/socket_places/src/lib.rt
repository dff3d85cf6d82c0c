//! The books of an edge: which server a number is, which place a socket is at, what each socket has not taken yet, and at which of
//! them something was found.
//!
//! The books of an edge, over any sockets: a server's number is its address's position, an out touches its own place alone,
//! a socket is handed the outs' octets in order and each once, a client is told what the place's socket gave and only until
//! it is closed, and no socket starves. By `Books`, `octets_go_once`.
//!
//! They stand on small traits of sockets, and are the same over the system's and over lists in memory. What a socket, a network or
//! a wait does is told as one list, where it is known; by these lists it is proved what becomes of each out.
//!
//! ```text
//! let mut books = Books::new(alloc, network);
//! books.learn(addr)?;
//! books.act(&out)?;
//! books.wait(1_000)?;
//! let told = books.poll()?;
//! ```
//!
//! What an edge keeps of its sockets, over small traits of them: `Socket` opens, is handed octets and gives some, each call
//! without a wait; `Network` opens sockets to addresses and waits for any of several. Each tells, where it knows that, one
//! list of all that was done with it (`deals`, `openings`, `asks`): `ListSocket` and `ListNetwork` always know it, sockets
//! of the system never could. The proofs are of any such socket, so they hold of the same code over sockets of the system.
//!
//! - **A server's number.** `learn` adds an address at the end; the socket of `OpenDgram` or `OpenStream` is to be opened
//!   to the address at the server's number in that list (`OpensAt`, told by `openings`), and where there is none the place
//!   fails to open, with `Other`.
//! - **An out touches its own place alone**: each other number has the place that it had (`TouchesOnly`), and `Close` takes
//!   out that place and no other (`but_place`).
//! - **What a socket is handed** (`IsPut`, `HandsFirst`): where nothing waits at the place, its socket is handed the octets
//!   of the out at once; else they wait behind those that do. What is handed is always what waits first. What the socket
//!   took, or failed at, waits no longer; what it takes later stays first (`still_waiting`). So what it was handed for
//!   good, and behind that what waits, are the octets of the outs, in order, each once (`GoOnce`, of `octets_go_once`), and
//!   what it did not take is handed again before anything else.
//! - **What the client is told** is what comes of one deal with the place's socket (`told_of`): its octets, its counts, its
//!   faults, and nothing else. A stream opens before it is read, and is not read behind its end or a fault (`stage_after`,
//!   `IsLook`).
//! - **Until it is closed**: what happened is told in order (`Polls`), and only of a place that is open, but for that one
//!   could not be opened (`is_told`).
//! - **No socket starves.** A wait looks for something at each place that is open (`asked_of_all`), and all at which it
//!   found something are kept, in order (`numbers_found`). Each poll looks at the first of them, once, and the next wait
//!   comes only when none is left (`WaitsAgain`).
//! - A wait sleeps only where nothing is known of which nobody was told (`Sleeps`).
//!
//! After `NoMemory` nothing is said of the books but what each call's documentation says.
//!
//! # Why it is so
//!
//! - **One trait opens sockets and waits for them** (`Network`), since a wait that could open sockets, or an opening that
//!   could change what was found, would leave the books' clauses less to say.
//! - **Octets wait as whole outs**, and a socket that took a part of an out is handed no more of it: the client is told how
//!   many were taken, and puts out the rest itself. A closed place's events stay queued and are dropped when their turn
//!   comes, so that closing costs no walk. Places lie in a map by number.
#![tactic(auto)]

mod any_socket;
mod books;
mod laws;
mod list_network;
mod list_socket;
mod network;
mod place;
mod places;
mod socket;

pub use any_socket::AnySocket;
pub use books::Books;
pub use laws::octets_go_once;
pub use list_network::ListNetwork;
pub use list_socket::ListSocket;
pub use network::{Asked, Network, Opening};
pub use place::Place;
pub use places::Places;
pub use socket::{Answer, Deal, Socket, Stage};
