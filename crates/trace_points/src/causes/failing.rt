//! Causes of errors that a row's event brings a request, or that the request has itself.

ghost use Rattle.std.specs.Prelude.{◌≡◌, ℕ, Option, IfOk};
ghost use Rattle.number_table.specs.Entries.{entry_at};
ghost use Rattle.trace_tables.specs.Lists.{listed};
ghost use Rattle.trace_points.specs.questions.Outs.{alive_server};
ghost use Rattle.client_request.specs.declared.event.Via.TheVariants.{Dgram};
ghost use Rattle.trace_points.specs.causes.Failing as plain;

use crate::exchanges::Coming;
use crate::questions::TraceConf;
use client_request::{Error, Fault, QueryError, RequestMessage, Via, What};
use dns_base::NoMemory;
use message_judging::matching::carries;
use message_judging::validity::RequestValidity;
use number_table::NumberTable;
use trace_tables::{Asked, Books, Newest, Place, Sent, Stand};

/// Whether some send of a request carried it.
fn some_carried(
    conf: &TraceConf,
    asked: &RequestMessage,
    request: u64,
    sends: &Newest<Sent>,
) -> Result<bool, NoMemory>
    ensures { IfOk result (λ b. b ≡ plain.some_carried conf.now asked.now request sends.now) }
{
    for sent in sends {
        if sent.request == request
            && carries(
                conf.alloc(),
                conf.udp_payload_size(),
                Via::Dgram,
                &sent.octets,
                asked,
                sent.id,
            )?
        {
            return Ok(true);
        }
    }
    Ok(false)
}

/// The same of a request that was asked, at a place.
fn was_carried(
    conf: &TraceConf,
    askings: &NumberTable<Asked>,
    sent: &NumberTable<Newest<Sent>>,
    request: u64,
    place: u64,
) -> Result<bool, NoMemory>
    ensures { IfOk result (λ b. b ≡ plain.was_carried conf.now request (entry_at request askings.now) (listed place sent.now)) }
{
    let Some(asked) = askings.get(request) else {
        return Ok(false);
    };
    match sent.get(place) {
        None => Ok(false),
        Some(sends) => some_carried(conf, &asked.request, request, sends),
    }
}

/// The server of an alive datagram place.
fn server_at(places: &NumberTable<Place>, number: u64) -> Option<u32>
    ensures { result ≡ alive_server Dgram (entry_at number places.now) }
{
    let place = places.get(number)?;
    if matches!(place.via, Via::Dgram) && matches!(place.stand, Stand::Alive) {
        Some(place.server)
    } else {
        None
    }
}

/// Whether a request was sent at a place that is alive, of a server that has it.
fn is_hit(conf: &TraceConf, past: &Books, request: u64, place: u64) -> Result<bool, NoMemory>
    ensures { IfOk result (λ b. b ≡ plain.is_hit conf.now past.now request place) }
{
    let Some(server) = server_at(&past.places, place) else {
        return Ok(false);
    };
    if !past.requests.is_started(request, server, Via::Dgram) {
        return Ok(false);
    }
    was_carried(
        conf,
        &past.requests.askings,
        &past.sends.sent,
        request,
        place,
    )
}

fn if_hit(is_hit: bool, error: Error) -> Option<Error>
    ensures { result ≡ plain.if_hit is_hit error }
{
    if is_hit { Some(error) } else { None }
}

fn find_failure(
    conf: &TraceConf,
    past: &Books,
    what: &What,
    request: u64,
) -> Result<Option<Error>, NoMemory>
    ensures { IfOk result (λ e. e ≡ plain.failure conf.now past.now request what.now) }
{
    match what {
        What::SendFailed { place, fault } => Ok(if_hit(
            is_hit(conf, past, request, *place)?,
            Error::Dgram(QueryError::Send(*fault)),
        )),
        What::ShortSend { place } => Ok(if_hit(
            is_hit(conf, past, request, *place)?,
            Error::Dgram(QueryError::Send(Fault::ShortSend)),
        )),
        What::RecvFailed { place, fault } => Ok(if_hit(
            is_hit(conf, past, request, *place)?,
            Error::Dgram(QueryError::Receive(*fault)),
        )),
        _ => Ok(None),
    }
}

/// The error of sending or receiving that an event tells of a request, which was sent where it happened: `past` is what was
/// known before the row.
pub fn failure(
    conf: &TraceConf,
    past: &Books,
    what: &What,
    request: u64,
) -> Result<Option<Error>, NoMemory>
    ensures value { IfOk result (λ e. e ≡ plain.failure conf.now past.now request what.now) }
    ensures told { IfOk result (plain.TellsFailure conf.now past.now request what.now) }
{
    find_failure(conf, past, what, request)
}

/// Whether a message came for a request by stream and does not answer it.
fn is_wrong(request: u64, coming: &Coming) -> bool
    ensures { result ≡ plain.is_wrong request coming.now }
{
    coming.request == request && matches!(coming.via, Via::Stream) && !coming.agrees
}

fn some_wrong(request: u64, comings: &[Coming]) -> bool
    ensures { result ≡ plain.some_wrong request comings.now }
{
    for coming in comings {
        if is_wrong(request, coming) {
            return true;
        }
    }
    false
}

/// Whether a message that came in a row came for a request by stream and does not answer it, where all that came for the request
/// are among these.
pub fn came_wrong(request: u64, comings: &[Coming]) -> bool
    ensures value { result ≡ plain.some_wrong request comings.now }
    ensures told { (want : Option ℕ) → plain.TellsWrong want request comings.now result }
{
    some_wrong(request, comings)
}

fn find_unread(askings: &NumberTable<Asked>, request: u64) -> bool
    ensures { result ≡ plain.not_read (entry_at request askings.now) }
{
    match askings.get(request) {
        None => false,
        Some(asked) => !RequestValidity::of(&asked.request).is_read,
    }
}

/// Whether the base of a request that was asked can't be read.
pub fn is_unread(books: &Books, request: u64) -> bool
    ensures { plain.TellsUnread request books.now result }
{
    find_unread(&books.requests.askings, request)
}

fn find_too_many(askings: &NumberTable<Asked>, request: u64) -> bool
    ensures { result ≡ plain.too_many (entry_at request askings.now) }
{
    match askings.get(request) {
        None => false,
        Some(asked) => RequestValidity::of(&asked.request).passes_count,
    }
}

/// Whether the message of a request that was asked would have more entries in a section than can be counted.
pub fn has_too_many(books: &Books, request: u64) -> bool
    ensures { plain.TellsTooMany request books.now result }
{
    find_too_many(&books.requests.askings, request)
}
