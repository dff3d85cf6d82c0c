//! One server by several streams, one after another: a request that loses its connection is tried again
//! on the next. And one server by datagrams, with those streams where a datagram was truncated.
//!
//! Each call is the step of the plain machine of a server by streams: the newest connection with room, one that opens,
//! backing off by words, who lost a connection tried again, giving up; how long is backed off is exact; and of that of a
//! fallback over any two transports: a truncated datagram goes on by the stream. By `multi_stream::Connection` and
//! `dgram_stream::Fallback` by `SendRequest`, `shutdown`, `retry_time`, `multi_stream::Config`, `dgram_stream::Config`.
//!
//! # One server by streams
//!
//! `Connection` is seen as `MultiStream`: a server's number, settings, tables, whether no more requests are taken on, and
//! whether it failed. The tables (`Tables`) have the requests by ticket, each with how often it backed off, the timer that
//! ends its time, and where it is; the ticket of each timer and of each ticket at a connection; those that wait for a
//! connection to open, in order of tickets; the connections by place; and what the transport itself knows: the place that
//! opens, how often none was opened, and the moment before which none is to be opened. Its plain machine is
//! `crates/client_multi/specs/MultiStream.antt`. It speaks of a connection only by a record of plain functions
//! (`OneStream`), and the code only by a trait of the same name, so the steps are proved from that trait alone; `Link`
//! keeps it for a stream connection, and is a connection that never gave up. Reconnection is for requests that one message
//! answers: no transfer goes by a `Link`.
//!
//! - A request goes to the newest connection that is open and has room. Else it waits for the place that opens; else, while
//!   the transport backs off, it backs off itself; else `OpenStream` goes out. Whoever waited when the place opened is
//!   handed on by the same rule, in order of tickets.
//! - A connection's messages and `WrongReplyForQuery` are results. Each other error makes its request back off, in the
//!   order in which the connection gave them. A result that it gives to a ticket that is in no table is nobody's.
//! - `retry_time` is a share of a bound that a word gives: `1 + word * (bound - 1) / 2^64` microseconds, at least one and
//!   at most the bound. A request counts its times of backing off from 1, the transport from 0 since a connection was last
//!   opened.
//! - A timer is looked up once: it is a request's, or that of a connection, which alone hears of it, or nobody's.
//! - `shutdown` changes nothing but that later requests get `ConnectionClosed`. It answers `Ok` unless the connection has
//!   failed.
//!
//! # Datagrams first, then a stream
//!
//! `Fallback` is over any two transports, bound by `SendRequest` alone, and proved from that bound. It is seen as the
//! record of the same name: a server's number, both transports and the requests that wait for them (`Parts`), and whether
//! it failed. The requests stand by ticket, each with the ticket under which its result comes from below: with the
//! datagrams, and then it is kept with its number for the stream, or with the stream. Its plain machine is
//! `crates/client_multi/specs/Fallback.antt`, over the plain machines of both transports.
//!
//! - Each transport has a board of its own for a call. Once both have heard, what the datagrams posted is settled in order,
//!   and then what the stream posted: so a request that is handed over does not hear what happened before.
//! - An untruncated message and each error of the datagrams is the result. A truncated one puts out `Start` by stream under
//!   the request's own number, behind all that the datagrams put out in that call, and the request as it was asked goes to
//!   the stream. What the stream gives is the result, a truncated message too.
//! - A part that comes under a ticket that is in no table is nobody's. A request that is given up leaves the tables before
//!   the transport that has it is told.
//! - `dgram_stream::Connection` is `Fallback` over the connections of `client_dgram` and `multi_stream`; `with_config`
//!   gives each its part of the settings, and the same number of the server.
//!
//! # Why it is so
//!
//! - **A connection below reconnection is a trait of three calls** (`OneStream`), taken by value: a call that gives up
//!   drops the connection, so a server by streams holds only ones that never did. Its plain machine speaks of a connection
//!   by a record of functions, so a connection of another kind needs no other proof.
//! - **`multi_stream::Config` and `dgram_stream::Config` are not `Copy`**, since they lend the settings of what is below
//!   (`stream_mut`, `dgram_mut`), and the toolchain proves no loan out of a `Copy` type. They have `try_clone`, which takes
//!   no memory.
//! - **No transfer goes by reconnection**, as in the crate: the type of transfers of its connections is
//!   `RequestMessageMulti`, and none is handed to them.
//! - **The timer of each connection is kept with its place**, so a due timer is found by one look-up. **A connection that
//!   ended leaves the table at once**, so that what is in the table is open; what it posted as it ended is taken after
//!   that.
//! - **The transport backs off by a moment**, not by a timer: none is opened before it. The counts of times stand still at
//!   their last value.
//! - **`Fallback` is over any two transports.** `dgram_stream::Connection` is that type over the connections of
//!   `client_dgram` and of `multi_stream`. What is told goes to both, each of which finds it by one look-up or ignores it.
//!   What the datagrams posted is settled before what the stream posted, and after both have heard. The datagrams get a
//!   copy of the request, so that what goes to the stream has neither their id nor their payload size.
//! - **Where a slot is given on.** A truncated datagram gives its slot on before its request goes on by stream, so the
//!   plain client puts `OpenDgram` before `Start .. stream` where another request waits for the slot. In `proof_right`'s
//!   machine both orders are runs.
#![tactic(auto)]

pub mod dgram_stream;
pub mod multi_stream;
