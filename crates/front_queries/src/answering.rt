//! Answers to queries that are taken.

ghost use Rattle.std.specs.Prelude.{◌≡◌, ◌≤◌, ◌<◌, true, IfOk, Ok, Some, length};
ghost use Rattle.dns_base.specs.Draft.{counts_in};
ghost use Rattle.dns_base.specs.Header.{with_tc};
ghost use Rattle.dns_base.specs.Sections.{HasNoRecords};
ghost use Rattle.client_request.specs.Composed.{IsCopied};
ghost use Rattle.client_request.specs.Composing.{IsComposed};
ghost use Rattle.front_queries.specs.Answers as spec;
ghost use Rattle.front_queries.specs.Simple.{simple_of};

use crate::copying::{add_opt, copy_questions, copy_section};
use crate::query::Query;
use crate::simple::{Simple, header_for, is_answered, patched, simple_of};
use crate::spelling::{PAYLOAD_SIZE, bare, own_opt, spelled, spelled_message};
use client_request::{CopyRecordsError, Error};
use dns_base::{Builder, Header, Message, NoMemory, Octets, OptRecord, Rcode, Section};
use std::alloc::Global;

/// The most octets of a message (RFC 1035 4.2.2).
const MOST: usize = 65535;

/// The most octets of a reply that is looked through for a datagram.
const MOST_READ: usize = 4096;

/// The least octets of a datagram that each client takes (RFC 6891 6.2.3).
const LEAST_PAYLOAD_SIZE: u16 = 512;

/// The high bits of the response code.
fn high_bits(message: &Message) -> u8
    ensures { result ≡ spec.high_bits message.now }
{
    match message.opt() {
        Some(opt) => opt.ext_rcode(),
        None => 0,
    }
}

/// This host's OPT record for the client of a query, where that has one.
pub(crate) fn opt_for(query: &Query, high: u8) -> Option<OptRecord<'static>>
    ensures { result ≡ spec.opt_for query.now high }
{
    match query.extension {
        Some(extension) => Some(own_opt(high, extension.dnssec_ok)),
        None => None,
    }
}

/// Whether the response code can't be told to a client that sent no OPT record.
fn is_untold(query: &Query, message: &Message) -> bool
    ensures { result ≡ spec.is_untold query.now message.now }
{
    query.extension.is_none() && high_bits(message) != 0
}

/// Copies what a reply says to the client of a query.
fn say_to(
    alloc: Global,
    query: &Query,
    reply: &Message,
    target: &mut Builder,
) -> Result<(), CopyRecordsError>
    requires { HasNoRecords (counts_in target.old) }
    ensures { IsCopied (spec.says_to query.now reply.now target.old) result target.new }
{
    copy_questions(reply.question(), &query.qname, target)?;
    copy_section(Section::Answer, reply, target)?;
    copy_section(Section::Authority, reply, target)?;
    copy_section(Section::Additional, reply, target)?;
    add_opt(alloc, opt_for(query, high_bits(reply)), target)
}

/// What a reply says to the client of a query, under the query's id. Refused where the reply can't be read.
#[tactic(auto, unfolding(crate::specs::Answers::composed_for))]
fn composed_for(alloc: Global, query: &Query, reply: &Message) -> Result<Message, Error>
    ensures { IsComposed (spec.composed_for query.now reply.now) result }
{
    let mut target = Builder::new(alloc, None)?;
    say_to(alloc, query, reply, &mut target)?;
    let mut header = reply.header();
    header.set_id(query.header.id());
    target.set_header(header);
    let answer = target.finish()?;
    Ok(answer)
}

/// The header of an answer that no reply gave.
fn failing(header: Header) -> Header
    ensures { result ≡ spec.failing header }
{
    let mut header = header;
    header.set_qr(true);
    header.set_ad(false);
    header.set_rcode(Rcode::SERVFAIL);
    header
}

/// What a query is answered that gets no message.
fn failed(alloc: Global, query: &Query) -> Result<Message, NoMemory>
    ensures { IfOk result (λ m. m ≡ spec.failed query.now) }
{
    spelled_message(alloc, failing(query.header), query, opt_for(query, 0))
}

/// What is answered where a reply is simple.
fn answer_by(
    alloc: Global,
    query: &Query,
    reply: &Message,
    simple: Simple,
) -> Result<Message, NoMemory>
    requires simple { simple_of query.now reply.now ≡ Some simple }
    requires behind { 12 ≤ simple.end }
    requires within { simple.end ≤ length reply.now }
    requires room { simple.additional < 65535 }
    ensures { IfOk result (λ m. m ≡ spec.answer_of query.now (Ok reply.now)) }
{
    is_answered(query, reply);
    let octets = patched(alloc, query, reply, simple)?;
    if octets.len() > MOST {
        return failed(alloc, query);
    }
    let octets = Octets::from_vec(octets)?;
    // A header and four counts are twelve octets.
    match Message::from_octets(octets) {
        Ok(message) => Ok(message),
        Err(_) => Err(NoMemory),
    }
}

/// What is answered where a reply is composed anew.
fn answer_anew(alloc: Global, query: &Query, reply: &Message) -> Result<Message, NoMemory>
    ensures { IfOk result (λ m. m ≡ spec.answer_of query.now (Ok reply.now)) }
{
    if is_untold(query, reply) {
        return failed(alloc, query);
    }
    match composed_for(alloc, query, reply) {
        Ok(answer) if answer.as_slice().len() <= MOST => Ok(answer),
        Err(Error::NoMemory) => Err(NoMemory),
        _ => failed(alloc, query),
    }
}

/// The answer to a query whose request had this reply.
fn answer_of(
    alloc: Global,
    query: &Query,
    reply: &Result<Message, Error>,
) -> Result<Message, NoMemory>
    ensures { IfOk result (λ m. m ≡ spec.answer_of query.now reply.now) }
{
    let Ok(reply) = reply else {
        return failed(alloc, query);
    };
    match simple_of(query, reply) {
        Some(simple) => answer_by(alloc, query, reply, simple),
        None => answer_anew(alloc, query, reply),
    }
}

/// How many octets a datagram to the client of a query has at most.
fn most_octets(query: &Query) -> u16
    ensures { result ≡ spec.most_octets query.now }
{
    let taken = match query.extension {
        Some(extension) => extension.udp_payload_size,
        None => 0,
    };
    taken.max(LEAST_PAYLOAD_SIZE).min(PAYLOAD_SIZE)
}

/// The header of what is cut.
fn truncating(header: Header) -> Header
    ensures { result ≡ with_tc true header }
{
    let mut header = header;
    header.set_tc(true);
    header
}

/// What is left of an answer that is too long for a datagram.
fn truncated(alloc: Global, query: &Query, answer: &Message) -> Result<Octets, NoMemory>
    ensures { IfOk result (λ o. o ≡ spec.truncated query.now answer.now) }
{
    let header = truncating(answer.header());
    spelled(alloc, header, query, opt_for(query, high_bits(answer)))
}

/// An answer that fits into a datagram.
fn fitting(alloc: Global, query: &Query, answer: Message) -> Result<Octets, NoMemory>
    ensures { IfOk result (λ o. o ≡ spec.fitting query.now answer) }
{
    if answer.as_slice().len() <= usize::from(most_octets(query)) {
        Ok(answer.into_octets())
    } else {
        truncated(alloc, query, &answer)
    }
}

/// Whether a reply is too long to be looked through for a datagram.
fn is_cut(query: &Query, reply: &Message) -> bool
    ensures { result ≡ spec.is_cut query.now reply.now }
{
    reply.as_slice().len() > MOST_READ && !is_untold(query, reply)
}

/// What such a reply is answered by a datagram.
fn cut(alloc: Global, query: &Query, reply: &Message) -> Result<Octets, NoMemory>
    ensures { IfOk result (λ o. o ≡ spec.cut query.now reply.now) }
{
    let header = truncating(header_for(query, reply));
    spelled(alloc, header, query, opt_for(query, high_bits(reply)))
}

/// The datagram that answers a query whose request had this reply.
fn by_datagram(
    alloc: Global,
    query: &Query,
    reply: &Result<Message, Error>,
) -> Result<Octets, NoMemory>
    ensures { IfOk result (λ o. o ≡ spec.by_datagram query.now reply.now) }
{
    if let Ok(message) = reply {
        if is_cut(query, message) {
            return cut(alloc, query, message);
        }
    }
    let answer = answer_of(alloc, query, reply)?;
    fitting(alloc, query, answer)
}

/// A message behind its two octets of length, as a stream has it (RFC 1035 4.2.2).
pub fn framed(alloc: Global, message: &[u8]) -> Result<Octets, NoMemory>
    ensures { IfOk result (λ o. o ≡ spec.framed message.now) }
{
    let count = message.len();
    let mut frame = Vec::from_slice(alloc, &[(count / 256 % 256) as u8, (count % 256) as u8])?;
    frame.extend_from_slice(message)?;
    Octets::from_vec(frame)
}

/// The octets that answer a query whose request had this reply: as a datagram, or behind their length by a stream.
///
/// They are what the reply says under the query's id, with the question spelled as the query has it. An OPT record of
/// the reply is left out, and where the query has one, one of this host stands last: it tells the high bits of the
/// reply's response code and DO as the query has it, and no option, since a cookie belongs to one client alone (RFC 6891
/// 6.1.1, 7; RFC 7873 4). SERVFAIL is answered where there is no reply, where it can't be read or is longer than 65535
/// octets, and where its code has high bits and the query has no OPT record. A datagram has at most the octets that the
/// client takes, 512 at least and 1232 at most; of a longer answer its header with TC, the question and the OPT record
/// are left (RFC 2181 9), and so of each to a reply of more than 4096 octets, which is not composed for that.
pub fn answer_to(
    alloc: Global,
    query: &Query,
    by_stream: bool,
    reply: &Result<Message, Error>,
) -> Result<Octets, NoMemory>
    ensures { IfOk result (λ o. o ≡ spec.answer_to query.now by_stream reply.now) }
{
    if by_stream {
        let answer = answer_of(alloc, query, reply)?;
        framed(alloc, answer.as_slice())
    } else {
        by_datagram(alloc, query, reply)
    }
}

/// A header alone that answers a query with SERVFAIL.
pub fn turned_away(alloc: Global, query: &Query) -> Result<Octets, NoMemory>
    ensures { IfOk result (λ o. o ≡ spec.turned_away query.now) }
{
    bare(alloc, failing(query.header))
}
