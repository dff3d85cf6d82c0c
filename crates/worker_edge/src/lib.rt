//! Several workers over the system's sockets: at each address that is listened on they share one socket for datagrams, and a front
//! has the streams of peers and the places of the client within, over which there is one wait.
//!
//! What stands here adapts: of what the system gives, and of what becomes of what it is handed, no clause speaks.
//!
//! ```text
//! let common = Common::new(&threads, alloc, doors)?;
//! let mut front = SharedFront::new(rt, alloc, addresses, &common);
//! let door = SystemDoor::new(rt, alloc, &common, at, number)?;
//! ```
#![tactic(auto)]

mod common;
mod door;
mod front;
mod listeners;
mod post;
mod wakes;

pub use common::Common;
pub use door::SystemDoor;
pub use front::SharedFront;
pub use listeners::SharedListeners;
pub use wakes::WakeDgrams;
