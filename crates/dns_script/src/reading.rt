//! What happened and what was put out, read from the words of a line.

ghost use Rattle.std.specs.Prelude.{◌≡◌, option_map};
ghost use Rattle.dns_script.specs.Reading.{Gives, Reads};
ghost use Rattle.dns_script.specs.Grammar.{opt_of, request_of, query_error_behind, query_error_at, error_behind, error_at, result_behind, result_at, out_behind, out_at, request_at, what_behind, what_at, event_at};

use crate::line::{LineFault, Words, octets_of};
use crate::names::{EventName, OutName, error_named, event_named, kind_named, out_named};
use client_request::{
    Error, Event, Fault, Moment, Out, QueryError, QueryErrorKind, RequestMessage, What,
};
use dns_base::{Header, Message, OptRecord};
use std::alloc::Global;

fn query_error_behind(kind: QueryErrorKind, words: &mut Words<'_>) -> Result<QueryError, LineFault>
    ensures { Gives result words.new (query_error_behind kind words.old) }
{
    let fault = words.fault()?;
    match kind {
        QueryErrorKind::Connect => Ok(QueryError::Connect(fault)),
        QueryErrorKind::Send => Ok(QueryError::Send(fault)),
        QueryErrorKind::Receive => Ok(QueryError::Receive(fault)),
        QueryErrorKind::Timeout => match fault {
            Fault::Expired => Ok(QueryError::Timeout),
            _ => Err(LineFault::Refused),
        },
    }
}

fn query_error(words: &mut Words<'_>) -> Result<QueryError, LineFault>
    ensures { Gives result words.new (query_error_at words.old) }
{
    match kind_named(words.word()?) {
        None => Err(LineFault::Refused),
        Some(kind) => query_error_behind(kind, words),
    }
}

fn error_behind(name: &[u8], words: &mut Words<'_>) -> Result<Error, LineFault>
    ensures { Gives result words.new (error_behind name.now words.old) }
{
    if name == b"StreamReadError".as_slice() {
        return Ok(Error::StreamReadError(words.fault()?));
    }
    if name == b"StreamWriteError".as_slice() {
        return Ok(Error::StreamWriteError(words.fault()?));
    }
    if name == b"Dgram".as_slice() {
        return Ok(Error::Dgram(query_error(words)?));
    }
    Err(LineFault::Refused)
}

fn error(words: &mut Words<'_>) -> Result<Error, LineFault>
    ensures { Gives result words.new (error_at words.old) }
{
    let name = words.word()?;
    match error_named(name) {
        None => error_behind(name, words),
        Some(error) => Ok(error),
    }
}

fn result_behind(
    alloc: Global,
    name: &[u8],
    words: &mut Words<'_>,
) -> Result<Result<Message, Error>, LineFault>
    ensures { Gives result words.new (result_behind name.now words.old) }
{
    if name == b"ok".as_slice() {
        return Ok(Ok(words.message(alloc)?));
    }
    if name == b"err".as_slice() {
        return Ok(Err(error(words)?));
    }
    Err(LineFault::Refused)
}

fn result(alloc: Global, words: &mut Words<'_>) -> Result<Result<Message, Error>, LineFault>
    ensures { Gives result words.new (result_at words.old) }
{
    let name = words.word()?;
    result_behind(alloc, name, words)
}

fn out_behind(alloc: Global, name: OutName, words: &mut Words<'_>) -> Result<Out, LineFault>
    ensures { Gives result words.new (out_behind name words.old) }
{
    Ok(match name {
        OutName::Start => Out::Start {
            request: words.u64()?,
            server: words.u32()?,
            via: words.via()?,
        },
        OutName::OpenDgram => Out::OpenDgram {
            place: words.u64()?,
            server: words.u32()?,
        },
        OutName::OpenStream => Out::OpenStream {
            place: words.u64()?,
            server: words.u32()?,
        },
        OutName::Send => Out::Send {
            place: words.u64()?,
            request: words.u64()?,
            id: words.u16()?,
            octets: words.octets(alloc)?,
        },
        OutName::Write => Out::Write {
            place: words.u64()?,
            request: words.u64()?,
            id: words.u16()?,
            octets: words.octets(alloc)?,
        },
        OutName::Resume => Out::Resume {
            place: words.u64()?,
            octets: words.octets(alloc)?,
        },
        OutName::Close => Out::Close {
            place: words.u64()?,
        },
        OutName::Stale => Out::Stale {
            request: words.u64()?,
        },
        OutName::Reply => Out::Reply {
            request: words.u64()?,
            result: result(alloc, words)?,
        },
    })
}

/// What was put out.
pub(crate) fn out(alloc: Global, words: &mut Words<'_>) -> Result<Out, LineFault>
    ensures { Gives result words.new (out_at words.old) }
{
    match out_named(words.word()?) {
        None => Err(LineFault::Refused),
        Some(name) => out_behind(alloc, name, words),
    }
}

/// The request with what is recorded: a header, and the OPT record of a word.
#[tactic(auto, unfolding(crate::specs::Reading::octets_of))]
fn with_recorded(
    alloc: Global,
    request: RequestMessage,
    header: Header,
    word: &[u8],
) -> Result<RequestMessage, LineFault>
    ensures { Reads (λ r. r) result (option_map (λ opt. record { base = request.base; header = header; opt = opt }) (opt_of word.now)) }
{
    if word == b"-".as_slice() {
        return Ok(request.with_recorded(header, None)?);
    }
    let octets = octets_of(alloc, word)?;
    match OptRecord::from_octets(octets.as_slice()) {
        Ok(opt) => Ok(request.with_recorded(header, Some(opt))?),
        Err(_) => Err(LineFault::Refused),
    }
}

/// A base that may be asked, with what is recorded beside it.
fn request_of(
    alloc: Global,
    base: Message,
    header: Header,
    word: &[u8],
) -> Result<RequestMessage, LineFault>
    ensures { Reads (λ r. r) result (request_of base header word.now) }
{
    match RequestMessage::new(alloc, base) {
        Ok(request) => with_recorded(alloc, request, header, word),
        Err(_) => Err(LineFault::Refused),
    }
}

/// A request: its base message, and the header and the OPT record that are recorded.
fn request(alloc: Global, words: &mut Words<'_>) -> Result<RequestMessage, LineFault>
    ensures { Gives result words.new (request_at words.old) }
{
    let base = words.message(alloc)?;
    let header = words.header()?;
    request_of(alloc, base, header, words.word()?)
}

fn what_behind(alloc: Global, name: EventName, words: &mut Words<'_>) -> Result<What, LineFault>
    ensures { Gives result words.new (what_behind name words.old) }
{
    Ok(match name {
        EventName::Ask => What::Ask {
            request: request(alloc, words)?,
        },
        EventName::Opened => What::Opened {
            place: words.u64()?,
        },
        EventName::OpenFailed => What::OpenFailed {
            place: words.u64()?,
            fault: words.fault()?,
        },
        EventName::SendFailed => What::SendFailed {
            place: words.u64()?,
            fault: words.fault()?,
        },
        EventName::ShortSend => What::ShortSend {
            place: words.u64()?,
        },
        EventName::Datagram => What::Datagram {
            place: words.u64()?,
            octets: words.octets(alloc)?,
        },
        EventName::RecvFailed => What::RecvFailed {
            place: words.u64()?,
            fault: words.fault()?,
        },
        EventName::Wrote => What::Wrote {
            place: words.u64()?,
            count: words.u64()?,
        },
        EventName::WriteFailed => What::WriteFailed {
            place: words.u64()?,
            fault: words.fault()?,
        },
        EventName::Bytes => What::Bytes {
            place: words.u64()?,
            octets: words.octets(alloc)?,
        },
        EventName::ReadFailed => What::ReadFailed {
            place: words.u64()?,
            fault: words.fault()?,
        },
        EventName::Ended => What::Ended {
            place: words.u64()?,
        },
        EventName::Tick => What::Tick,
    })
}

fn what(alloc: Global, words: &mut Words<'_>) -> Result<What, LineFault>
    ensures { Gives result words.new (what_at words.old) }
{
    match event_named(words.word()?) {
        None => Err(LineFault::Refused),
        Some(name) => what_behind(alloc, name, words),
    }
}

/// An event: its moment, and what happened.
pub(crate) fn event(alloc: Global, words: &mut Words<'_>) -> Result<Event, LineFault>
    ensures { Gives result words.new (event_at words.old) }
{
    Ok(Event {
        moment: Moment(words.u64()?),
        what: what(alloc, words)?,
    })
}
