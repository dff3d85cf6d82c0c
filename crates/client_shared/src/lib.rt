//! A client that several threads share: each has a pass, and what all of them did stands in one history.
//!
//! Of a client that several threads share: all calls stand in one legal history, which the plain client makes of their
//! events in that order; each call that is answered is one entry there, with its event, its outs and the words that were
//! drawn; a refused call ends the history; when it is closed the journal is that history, and each caller's entries stand
//! at its calls alone; lanes, each by a thread of its own, come to receipts in order. By `SharedClient::new`, `submit`,
//! `meet`, `close`, `Pass::history_is_legal`, `run_lanes`, `UnjournaledClient`.
//!
//! A function that is generic in a `ClientKey` makes a client, uses it and closes it, and is called with `Brand`: the key
//! names the table of the history and the opening, so that a pass is of one client by its type, and no call has a condition
//! on that.
//!
//! - `Pass::history_is_legal`: what a pass has seen is a legal history of its client, of callers whose numbers are below
//!   their count.
//! - `SharedClient::new`: the passes are numbered from 0 and have seen nothing. `NoMemory` alone.
//! - `submit`: `Ok` is `IsSubmitted`; `Failed` is `IsBehind`; `NoMemory` and `NumbersUsed` leave the pass as it was or
//!   refuse the call on its way (`IsRefused`); `NumbersUsed` comes only where it `IsStopped`. Where the history ends with a
//!   loss nothing else than `Failed` comes: that is a clause of what lies under the lock (`Desk::submit`), where the
//!   history has a name.
//! - `meet`: both passes have seen the same, which begins with what either had; calls and losses stay. It takes no memory.
//! - `close`: with fewer passes than callers `CloseFault` exactly, with both numbers and all that was handed in. Else the
//!   journal, with its loss, is a legal history, every pass handed in `IsClosed` there, each entry is of a caller below
//!   their count, and the words `AreDrawn`. It takes no memory.
//! - `run_lanes`: `Ok` is `AreLanes`; in any case each pass was submitted the first events of its lane (`AreBegunLanes`);
//!   `Failed` only where what a pass has seen ends with a loss, `NumbersUsed` only where a lane's next event has no number
//!   (`IsSomeStopped`).
//! - `UnjournaledClient`: the same `new`, `submit` and `meet`; the history exists in proofs alone. Nothing is copied, so
//!   `NoMemory` always refuses the call on its way. `NumbersUsed` comes besides where the history has all but two of the
//!   numbers of 64 bits (`IsFull`): the pass has then seen all of it, and nothing else is changed.
//!
//! `legal_histories` of `proof_shared`: the rows of a legal history are the plain trace of its events, and right and
//! timely, and give what is kept.
//!
//! # Why it is so
//!
//! - **A client that threads share is a crate of its own**, `client_shared`, above `client_core`, which knows of no thread.
//!   Its key has two ghost members: the table of its history and the opening, which has the count of callers in it. A
//!   pass's history is legal by its type; `history_is_legal` hands the fact out.
//! - **An entry puts itself.** The caller's own seat does the atomic step, while it holds the part that keeps the history;
//!   so whose an item is, and that no other came from its caller in between, is read off what a seat has seen.
//! - **Room, then a copy, then the step.** Whatever can be refused without a loss is asked for before the client is
//!   stepped; the loss of an earlier call is looked at before all. `submit` copies what was put out, once for the journal
//!   and once for the receipt.
//! - **No clause of `submit` says `Failed` from what the pass had seen**: a loss that a pass has seen lies under the lock
//!   too, but what lies there has no name in that clause; `Desk::submit` says it. **`UnjournaledClient` counts its calls in
//!   64 bits** and answers `NumbersUsed` before the last ones.
//! - **`run_lanes` has a thread for each lane**, by joins of two; where a thread can't be had, its lane runs after the
//!   others. What a lane needs stands in one value behind a trait (`Lanes`): with each part borrowed by itself, the borrow
//!   checker does not cover them. Of several lanes' errors the first is answered, by lane, that is not `Failed`, so that
//!   want of memory or of a number is not hidden by the lanes behind it.
#![tactic(auto)]

mod desk;
mod entry;
mod key;
mod lanes;
mod pass;
mod recorder;
mod recording;
mod shared;
mod unjournaled;

pub use entry::{Entry, Item, Journal, Receipt};
pub use key::{ClientKey, Opened};
pub use lanes::{Gate, NoGate, run_lanes};
pub use pass::Pass;
pub use shared::{CloseFault, Closed, SharedClient};
pub use unjournaled::UnjournaledClient;
