//! Requests, events and outs, and what every transport of the client stands on.
//!
//! Composing is exactly the base under what is recorded; what is composed carries its request; matching is exact; the board
//! and the timers are lists, and the timers a heap. By `ComposeRequest`, `carrying_laws`, `Board`, `Timers`, `SendRequest`.
//!
//! There are no sockets and no clock here: an event carries its moment, and what is to be done at a
//! socket is put out as data.
//!
//! - `RequestMessage` is seen as a `Request`: the base message's octets, the recorded header, the recorded OPT. Its base is
//!   one that may be asked (`may_be_asked`), and all of it is octets (`is_of_octets`). `RequestMessage::query` makes the
//!   one whose base is `Message::query` of a name and a type.
//! - What requests for one message and for several share is the trait `Compose`. `to_message` gives `composed` of the
//!   request, or want of memory; `check_message` says the same of its error without a message and takes no memory, and
//!   `sole_question` tells the message's only question from the base (`IsAsked`). `composed` is a fold over the base's
//!   entries by the functions on drafts; of two refusals it gives the first in message order. `carrying_laws`: what is
//!   composed carries its request.
//! - `is_answer` is `is_answered`, exactly.
//! - `Outs`, `Events`, `Rows` and `WordList` are each a `Seq`. `Board` and `Timers` are lists too. The board is one list of
//!   parts in the order in which they were put: `take_first` takes the part that was put first of all (`TakesFirst`), and
//!   `take` the first of a ticket. `Timers` is a list of due moments and numbers; the next one has the least due moment,
//!   ties by number. The code keeps a heap and a table by number, and `heap` shows the heap: each timer that is set stands
//!   there; each number stands at most once; an entry whose number no set timer has was drawn and is cancelled; place 0 is
//!   what `next_due` gives, and the heap is empty where there is none; no entry goes before the one at half its place; it
//!   has at most twice as many entries as timers are set, and 16 more. No bound on steps is claimed.
//!
//! # What a transport is given
//!
//! `Cx` has the moment, the words, where outs and results and timers go, the next free numbers, the number of the request
//! in hand, and `more`. `view_of` makes one record of what it points at, a `View`. Each function that takes a `Cx` ensures
//! `LendsTheSame`: the references end as the same loans, so that whoever made the `Cx` knows what became of its own outs
//! and board.
//!
//! `Words` tells a `stream`: the words that come, as a function of their places. A list gives 0 past its end; a generator's
//! words are a function of its state. Each word has 64 bits, drawn or not, which is a law of the trait (`words_fit`).
//! Beside that it tells the list that is `left` and the list `given` so far, where it knows them.
//!
//! # What a transport owes: `SendRequest`
//!
//! - `has_failed`: an earlier call gave up: each call answers `Failed` and changes nothing.
//! - `holds_failed`: it or what it holds gave up; else no call answers `Failed`.
//! - `transport`: the transport as plain functions, a record `Transport`: `send`, `step` and `cancel` say what a call
//!   leaves of the transport and of the view, none where a number would pass 64 bits; `response` is what stands for the
//!   result of a request that is taken on.
//!
//! What the three calls say alike has a name in `crates/client_request/specs/Calls.antt`. `Steps`: a call that is Ok leaves
//! the pair of transport and view that the plain step leaves. `NumbersRunOut`: `NumbersUsed` comes only where the plain
//! step leaves nothing, so exactly there but for want of memory. `AnswersFailed`: the answer is `Failed`, and neither the
//! transport nor the view is changed. After any `Err` the object has failed. What a function of a transport owes stands in
//! one clause: `Follows`, that the context lends on what it lent, `Steps`, `NumbersRunOut`, and that nothing else but want
//! of memory is refused (fields `lends`, `ok`, `numbers`, `want`); and `Holds` of one that hands on to another transport:
//! in place of `want` that the other's flag stays where the call is Ok (`keeps`), what is refused (`refused`), and that
//! `Failed` comes only where the flag was set (`failed_only`). `FollowsStep` and `HoldsStep` are the same over a step that
//! is no function of the view, or of flags that are not one. `Latch` is the flag of an object that gave up, a Bool: `check`
//! refuses by `Failed` where it is set, `keep` hands a result on and sets it where that is refused. `draw_ticket` and
//! `draw_place` are exact: the number, one more next, and `NumbersUsed` just where the next would pass 64 bits, which
//! changes nothing. `GetResponse` tells its ticket and whether its result was given: `AlreadyDone` after it, `Pending`
//! exactly where none was given and none stands on the board. `SendRequestMulti` and `GetResponseMulti` are the same for
//! transfers: the parts of a ticket, oldest first, up to the end; then `ConnectionClosed`.
//!
//! What a transport asks of requests is one record too, `requests`: `with_id`, `with_payload_size`, `with_option`,
//! `is_full_for`, `composed` and `is_answered`. A plain transport is a function of it (`transport requests`, in each
//! transport's `specs/`), so a transport above is written over the record of the one below, as the cache's is over the
//! choice's.
//!
//! A layer that stands between gives the layer below a board of its own for a call: `send_below`, `step_below` and
//! `cancel_below` say of it what the trait's call says, over the view with that board (`view_below`), and the layer's own
//! board stays as it was. So each layer takes its results off its board by `take_first`, and none is searched.
//!
//! Composing is a function of the request, `composed`, and so plain steps are functions. How names are compressed is free
//! all the same: nothing above `dns_base` looks into those octets.
//!
//! # Why it is so
//!
//! - **Limits that tie.** Cutting a value into limits twice is cutting it once where limits that compare as equal are the
//!   same value (`limit_laws`). For an order that ties different values it is false: the second cut may give the other
//!   limit.
//! - **A request that may be asked** is one by its type: `RequestMessage` keeps that its base is not misformed. So the text
//!   of every trace is read back.
//! - **What both kinds of requests share** stands in the trait `Compose`. Who calls a method on a request of a known type
//!   imports it; under a bound of `ComposeRequest` or `ComposeRequestMulti` nothing more is imported.
//! - **`sole_question` tells the very question of the message that would be composed**, spelled as there. Where no message
//!   can be made it says nothing; `check_message` tells that. So a cache composes no message, and who hands a request on
//!   composes it once.
//! - **Timers that were cancelled** stay in the heap until they come to its top, or are more than half of more than 16
//!   entries: then all are taken out, in place. So they are at most as many as are set, and 16, and each call pays for a
//!   constant number of them. The view of `Timers` is the list of those that are set.
#![tactic(auto)]

mod append;
mod below;
mod board;
mod compose;
mod copies;
mod copying;
mod counting;
mod cx;
mod error;
mod error_text;
mod event;
mod fault;
mod latch;
mod laws;
mod limits;
mod peers;
mod pending;
mod recorded;
mod recorded_opt;
mod request;
mod request_multi;
mod response;
mod send;
mod timer_heap;
mod timers;
mod words;

pub use below::{cancel_below, send_below, step_below};
pub use board::{Board, Part, Posted};
pub use compose::{Compose, ComposeRequest, ComposeRequestMulti};
pub use cx::{Cx, Signal};
pub use error::{CopyRecordsError, Error, QueryError, QueryErrorKind};
pub use event::{Event, Events, Moment, Out, Outs, Row, Rows, Trace, Via, What};
pub use fault::Fault;
pub use latch::Latch;
pub use laws::{carrying_laws, limit_laws};
pub use limits::DefMinMax;
pub use peers::FIRST_STREAM;
pub use pending::Pending;
pub use request::RequestMessage;
pub use request_multi::RequestMessageMulti;
pub use response::{GetResponse, GetResponseMulti, Poll, take_part, take_response};
pub use send::{SendRequest, SendRequestMulti};
pub use timers::{Timer, TimerId, Timers};
pub use words::{ListWords, WordList, Words};
