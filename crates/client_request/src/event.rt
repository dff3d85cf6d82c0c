//! What happens to a client, and what it puts out.

use crate::error::Error;
use crate::fault::Fault;
use crate::request::RequestMessage;
use dns_base::{Message, Octets, Seq};

/// A moment, in microseconds. Whoever holds the client says from where they are counted.
#[derive(Clone, Copy, Debug, PartialEq, Eq, PartialOrd, Ord, Hash)]
pub struct Moment(pub u64);

/// What happened: a request was asked, something came to pass at a place, or time went on.
///
/// Whoever holds the client tells it. A place is a socket, by the number that the client gave it when it
/// had it opened; an event for a place that is closed changes nothing.
#[derive(Debug, Drop)]
pub enum What {
    /// A request is asked. The client numbers requests from 0, in the order in which they are asked.
    Ask { request: RequestMessage },
    /// The socket of a place is open.
    Opened { place: u64 },
    /// The socket of a place could not be opened.
    OpenFailed { place: u64, fault: Fault },
    /// A datagram could not be sent.
    SendFailed { place: u64, fault: Fault },
    /// A datagram was sent, but not all of its octets.
    ShortSend { place: u64 },
    /// A datagram came, with these octets.
    Datagram { place: u64, octets: Octets },
    /// No datagram could be received.
    RecvFailed { place: u64, fault: Fault },
    /// A stream took so many octets of what was last to be written.
    Wrote { place: u64, count: u64 },
    /// A stream could not be written.
    WriteFailed { place: u64, fault: Fault },
    /// A stream gave these octets, which come behind those that it gave before.
    Bytes { place: u64, octets: Octets },
    /// A stream could not be read.
    ReadFailed { place: u64, fault: Fault },
    /// A stream came to its end: no octets follow.
    Ended { place: u64 },
    /// Nothing but time: timers that are due fire.
    Tick,
}

/// What happened, and when.
#[derive(Debug, Drop)]
pub struct Event {
    /// In microseconds. A moment before that of an earlier event counts as that one.
    pub moment: Moment,
    /// What happened then.
    pub what: What,
}

/// By which kind of transport a request is tried.
#[derive(Clone, Copy, Debug, PartialEq, Eq, Hash)]
pub enum Via {
    /// By datagrams.
    Dgram,
    /// By a stream.
    Stream,
}

/// What is to be done at a place, or a reply.
///
/// Whoever holds the client does it, in order, and tells by events what came of it. Places are numbered
/// from 0 in the order in which they are to be opened, servers from 0 as the configuration lists them,
/// and requests from 0 in the order in which they were asked.
#[derive(Debug, Drop)]
pub enum Out {
    /// A request goes to a server. Nothing is to be done.
    Start {
        request: u64,
        server: u32,
        via: Via,
    },
    /// A socket for datagrams to a server is to be opened, as this place.
    OpenDgram {
        place: u64,
        server: u32,
    },
    /// A stream to a server is to be opened, as this place.
    OpenStream {
        place: u64,
        server: u32,
    },
    /// These octets are to be sent as one datagram: a request under this message id.
    Send {
        place: u64,
        request: u64,
        id: u16,
        octets: Octets,
    },
    /// These octets are to be written to a stream: a request under this message id.
    Write {
        place: u64,
        request: u64,
        id: u16,
        octets: Octets,
    },
    /// These octets, which a stream has not taken yet, are to be written to it.
    Resume {
        place: u64,
        octets: Octets,
    },
    /// The socket of a place is to be closed. Its number is not given again.
    Close {
        place: u64,
    },
    /// The reply that follows says what an expired message said, since no server gave an answer. Nothing is
    /// to be done.
    Stale {
        request: u64,
    },
    /// The result of a request for whoever asked it: its only one.
    Reply {
        request: u64,
        result: Result<Message, Error>,
    },
}

/// An event and what was put out for it.
#[derive(Debug, Drop)]
pub struct Row {
    /// The event, as it was told.
    pub event: Event,
    /// What was put out for it, in order.
    pub outs: Outs,
}

/// What a client was told and what it put out, row by row.
#[derive(Debug, Drop)]
pub struct Trace {
    /// A row for each event, in order.
    pub rows: Rows,
}

/// What was put out, in order.
pub type Outs = Seq<Out>;

/// Events, in order.
pub type Events = Seq<Event>;

/// The rows of a trace, in order.
pub type Rows = Seq<Row>;
