//! What a cache knows of results: which requests may share one, for how long, and as what it is given later.
//!
//! What a cache knows of results: keys are told apart by what is asked alone; how long a result may be kept is exact, and
//! so are the octets of a kept message as it is given later, which are read as its view; a view of a view is the view of
//! the message that came first. By `Key`, `validity`, `view`, `view_laws`.
//!
//! There is no table here. A request's [`Key`] says what may serve it, [`validity`] for how long a result does, and
//! [`view`] writes a kept message anew, as another request is given it some seconds later.
//!
//! `Key` is seen as the key of `right_trace`: the name in lower case, type, class, what is asked of DNSSEC, CD and RD.
//! `Key::asking` tells that of a request for a question, and `Key::of` for that of the message composed of it, or none
//! where its results are not kept; `==` and the hash are those of what is seen, so keys differ by nothing but what is seen
//! of them (`keys_are_told_apart`, `keys_are_of_requests`).
//!
//! `validity` is exactly the validity of the definitions (`kept_for`), and takes no memory. `view` and `view_under` write a
//! kept message anew, its names compressed: the octets are a fold over its entries (`view_octets`), and they are read as
//! its view (`says`). No TTL falls below 0, whatever the seconds. Besides want of memory there is `MessageParseError`,
//! where the message or data of a record is not read by type. `derived_header` changes the header alone and reads nothing.
//!
//! A name may be read out of the octets of a header, by a pointer, so a header that is derived is kept beside its message
//! and not written over it (`view_under` takes it). A view of a view is the view of the first message: its header, its
//! entries, and how long it may be kept (`view_laws`).
//!
//! # Why it is so
//!
//! - **A key holds its name in lower case**, made once with the key, so that keys are compared and hashed by the octets of
//!   their names as they stand. The counts of labels are no letters, so names are the same but for case just where these
//!   octets are. **The name of a request is read where the request has it** (`Asked`); another is made only where something
//!   is given or spared.
//! - **An age counts up to 2^32 - 1 seconds**, which no TTL passes. A view takes any number of seconds: a TTL stops at 0,
//!   and no condition is asked of a caller.
//! - **Copies by what becomes of a TTL**: what copies the records of a kept message says of them what they are with TTLs
//!   that are less by seconds (`Lessened`) or as those of an expired message (`Stale`).
#![tactic(auto)]

mod copying;
mod keeping;
mod key;
mod laws;
mod viewing;

pub use copying::Ttls;
pub use keeping::validity;
pub use key::{AdDo, Key, is_signing};
pub use laws::{keys_are_of_requests, keys_are_told_apart, view_laws};
pub use viewing::{derived_header, is_viewable, stale_under, view, view_under};
