//! The books of a server's listeners: which peer a stream is of, what each peer has not taken yet, where a datagram is answered, and
//! at which of them something was found.
//!
//! The books of a server's listeners, over any listeners and sockets: a peer's socket takes the octets of its answers in
//! order and each once, nothing is read of a peer while octets for it are unsent, a datagram is answered once, to its
//! sender and from the listener at which it came, a peer is told of only until it is closed or gone, and no listener, peer
//! or place starves; a socket that is asked for many datagrams at a time gives each once, in order, and has sent what it
//! was handed, in order, when it says that there are no more. By `ServerBooks`, `PeerBooks`, `octets_go_once`,
//! `BatchDgrams`.
//!
//! They stand on small traits of listeners and sockets, and are the same over the system's and over lists in memory. `ServerBooks` has
//! one wait over them and the places of a client.
//!
//! The same for a server, over a trait of a socket that takes datagrams of anyone (`DgramListener`), a trait of a listener
//! that accepts streams (`Listener`), and the `Socket` of those streams. Each tells, where it knows that, one list of all
//! that was done with it (`posts`, `accepts`, `deals`): `ListDgrams`, `ListListener` and `ListSocket` always know it.
//!
//! - **A peer's number**: a datagram has the next number of those from 0 on (`and_next`), a stream the next of those from
//!   2^62 on (`IsNewPeer`). `answer` goes by the number alone (`is_stream`).
//! - **A datagram** is answered from the listener at which it came, to the address from which it came, and at most once:
//!   its sender is forgotten then (`AnswersDatagram`), and the oldest one where 20,000 are kept (`with_room`).
//! - **What a peer's socket is handed** (`IsPut`, `HandsOver`): where nothing is unsent, the octets of an answer at once;
//!   else they stand behind those that are. What it took is no longer unsent, what it did not take is handed over first. So
//!   what it took, and behind that what is unsent, are the octets of the answers, in order, each once (`GoOnce`, of
//!   `octets_go_once`), as long as the peer is not broken.
//! - **Nothing is read of a peer while octets for it are unsent** (`IsLook`, `asked_of`). A peer whose socket fails, that
//!   ends, or at which more than 1,048,576 octets are unsent, is told to be gone, and then it is closed (`told_of_reading`,
//!   `if_small`, `LooksInto`).
//! - **An answer touches one peer alone** (`TouchesOnly`); what is closed, or told to be gone, is no longer there
//!   (`but_peer`), so nothing more is told of it: each thing told is what the socket of a peer that is there gave.
//! - **One wait** (`ServerBooks`, `WaitsForAll`) looks for something at each listener, each peer and each place of the
//!   client within; it is made only where nothing is known of which nobody was told (`Sleeps`), and what it found is known
//!   to each.
//! - **No one starves.** What was found is looked at in order, each once; a listener that gave something is looked at again
//!   behind all others that were found, and at most 64 times before the next wait (`Looks`, `once_more`, `burst`).
//! - **Many at a time** (`BatchDgrams`, over any socket): it asks the socket for datagrams one behind another, until it
//!   gives none, 32 times at most, and gives each in the order in which they came, and behind them a fault, where there was
//!   one (`GivesNext`, `Receives`, `end_of`). What it is handed meanwhile is sent in order, once there are no more for now,
//!   or as soon as 32 stand there (`TakesIf`, `Puts`, `SendsAll`), and nothing is left unsent once it says that there are
//!   no more (`Ends`).
//!
//! That one call takes at most 4,096 octets of a stream is said by no clause: it is the size of the buffer that it is
//! handed.
//!
//! # Why it is so
//!
//! - **A server's listeners have books of their own**, `listener_peers`, and one wait with the places: `Books::wait_beside`
//!   looks for others too, before the places. A listener gives up to 64 datagrams or streams a wait, one a poll, each
//!   behind all else that was found.
//! - **Datagrams are received, and answered, many in turn** (`BatchDgrams`): up to 32 one behind another, since the same
//!   calls of the system take a fifth less time so. 32 are fewer than the books ask for before a wait, so whoever sleeps
//!   has sent all. What is put off is shared and not copied. Senders lie in a table by number, which takes 850 instructions
//!   less a query than an ordered map.
//! - **A peer's octets wait as one row**: its socket may take a part of one answer and a part of the next, and nobody is
//!   told how many it took. A peer that is broken while it is answered is told to be gone by the next polls. One that ends
//!   its own side of a stream is gone, with what is unsent.
#![tactic(auto)]

mod batch;
mod books;
mod doors;
mod heard;
mod laws;
mod list_listener;
mod listener;
mod peer;
mod peers;
mod senders;
mod server;
mod unsent;

pub use batch::{BatchDgrams, Outgoing};
pub use books::PeerBooks;
pub use doors::{DgramDoor, StreamDoor};
pub use heard::{Heard, Spot};
pub use laws::octets_go_once;
pub use list_listener::{ListDgrams, ListListener};
pub use listener::{DgramListener, Letter, Listener, Post};
pub use peer::Peer;
pub use peers::Peers;
pub use senders::{Sender, Senders};
pub use server::{ServerBooks, Told};
