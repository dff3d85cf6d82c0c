//! The turns of a client: it is told what its edge gives, and its edge does what it puts out.
//!
//! A turn polls the edge once, steps the client with what it gave at the clock's moment, and hands each out on before the
//! next poll; a request is asked until its reply is there, which is the first in the plain client's rows of these events,
//! or as many turns as there may be had none; two requests, or any number, are asked right behind one another, and turns
//! made until all replies are there. By `turn`, `ask`, `ask_within`, `ask_both`, `ask_all`, `learn_all`.
//!
//! A client does nothing at a socket, and an edge decides nothing. A turn joins the two: the edge is polled, the client
//! takes what it gave as an event at the clock's moment, and the edge acts on what the client then put out. `ask` asks one
//! request and turns until its reply is there, `ask_both` two until both replies are, and `ask_all` as many as it is given.
//!
//! ```text
//! let mut client = Client::new(alloc, &conf, redundant, cache)?;
//! learn_all(&mut edge, conf.servers.as_slice())?;
//! let reply = ask(&mut client, &mut edge, &mut clock, &mut words, 0, request)?;
//! ```
//!
//! Over any edge, clock and words:
//!
//! - `turn`: the edge is told how long it may wait, which is `wait_of` the client (`waits`), is polled once, and the row's
//!   event is what it gave (`happened`: a `Tick` where it gave nothing, or a request), at the moment that the clock gave
//!   (`moment`). The row is the client's step (`row`), and where the edge tells what was done with it, that is this poll
//!   and then each out of the row, in order (`turn`).
//! - `ask_within`: `IsAnswered`. The request was asked at a moment of the clock, and then turns were made, at most so many.
//!   The rows are the plain client's rows of their events (`plain`), from the client as the call found it and with the
//!   words that came; they lead to the client as it is left (`leads`), whatever comes later. Where the edge tells its
//!   deeds, those of the call are the acts on the outs of the first row, and then for each turn its poll and the acts on
//!   its outs. The count of polls rose by the number of turns, or stands at its last value. Before each poll the edge was
//!   told to wait until the next due moment of the client to which the rows so far lead, and has kept that or nothing
//!   (`kept`); its list of waits has grown by what it kept (`waits`). Where the clock tells its moments, those of the
//!   events are the ones that it gave in the call. The reply is the first in the rows and the last of them has it; none is
//!   answered only after so many turns without one.
//! - `ask` is that with a million turns. Both give `NumbersUsed` only where the plain client makes no rows of the request
//!   and the events behind it, at the moments that the clock gave, each of which is what the edge gave in one of its polls:
//!   their count rose by as many, and where the edge tells its deeds those polls are among them, in order
//!   (`StopsForNumbers`). `Failed` only where the client had failed, and else `NoMemory` alone. After an error the edge may
//!   not have acted on all that was put out.
//! - `ask_both`: `AreAnswered`. One request is asked as above (`Begun`), and right behind it a second one (`Asked`), each
//!   at a moment of the clock; then turns are made while a reply is missing (`needed`), at most a million. Each reply is
//!   the first to its request in all these rows, in whichever order they come, and the rows are the plain client's
//!   (`plain`). `NumbersUsed` where the first is asked, or behind that (`StopForNumbers`); the second request has the
//!   number behind the first one's.
//! - `ask_all`: `AllReplied`. Requests are asked one right behind the other (`Opened`), and turns are made until all have
//!   their replies, a million at most (`AllAnswered`): of each the first reply to it among all those rows, which are the
//!   plain client's, and before each turn one was missing. Of no request nothing is asked and nothing happens. `StopAll`: a
//!   number would pass 64 bits at one of them, or in a turn.
//! - `learn_all`: where the edge tells its deeds, those of the call are the servers, in order; no poll is made.
//!
//! # Why it is so
//!
//! - **Turns are a crate of their own**, `client_loop`. A request is asked from a client in any state, so that a second one
//!   can follow the first, and its number is handed in, since the client does not tell the number of its next one. The
//!   bound on turns is a parameter of `ask_within`, and `ask` gives a million: the proof of the loop never sees the
//!   numeral, and a test needs no million turns.
#![tactic(auto)]

mod all;
mod asking;
mod both;
mod learning;
mod reply;
mod turns;

pub use all::ask_all;
pub use asking::{MOST_TURNS, ask, ask_within};
pub use both::{BothReplies, ask_both};
pub use learning::learn_all;
pub use turns::turn;
