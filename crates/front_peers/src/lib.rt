//! What comes of DNS clients, and what it comes to: queries that are asked or refused, and streams that are dropped.
//!
//! What an event of a front comes to, exactly, as the step of a machine (`takes`): datagrams and whole frames of streams
//! that are queries, are refused or drop their stream; where 100 streams are open, one more takes the place of the one that
//! was quiet longest; a number that isn't above the last accepted one is ignored, and what names one of the other kind is
//! time alone. No clause speaks of a run of events: that 100 streams stay the most, and that it is the same wherever octets
//! are cut, can be read off the step. By `Peers::take`, `answer_by`, `close`.
//!
//! Nothing is asked here, and no answer is made of a reply.
//!
//! - **What an event comes to** (`takes`): a list of things, each of which asks a query, refuses one, drops a stream, or
//!   happens to the client within. `Peers::take` adds exactly these, and leaves exactly the streams that are then open.
//!   `of_frames` is a fold over the whole frames that stand in the octets that came; what is left of them stays for those
//!   that come.
//! - **A stream** is open from its `Accepted` until it is gone or dropped, and is dropped where the `Drops` stands among
//!   the things: so what was asked before it in the same octets may still be answered at once. `quietest` is the least
//!   moment of `Accepted`, `Bytes` or an answer, and of equal ones the least number.
//!
//! # Why it is so
//!
//! - **A stream is dropped where its frame stands among an event's things**, not before them: what was asked before it in
//!   the same octets, and is served at once, still goes out. So `Peers` says what is to be dropped, and who puts the drop
//!   out closes the stream.
#![tactic(auto)]

mod event;
mod items;
mod peers;

pub use event::{FrontEvent, FrontOut, FrontOuts, FrontRow, FrontWhat};
pub use items::{Asker, Item, Items};
pub use peers::{Peers, Stream};
