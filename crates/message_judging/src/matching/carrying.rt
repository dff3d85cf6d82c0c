//! Whether octets carry a request.

ghost use Rattle.std.specs.Prelude.{◌≡◌, ◌&&◌, ◌==◌, [], IfOk, IfSome, is_some, nat_le, length};
ghost use Rattle.dns_base.specs.Header.{with_id, id_of};
ghost use Rattle.client_request.specs.Request as requests;
ghost use Rattle.dns_base.specs.Answering.{is_answer};
ghost use Rattle.right_trace.specs.Messages.{announcing};
ghost use Rattle.message_judging.specs.matching.Matching as spec;

use crate::matching::opt::SentOpt;
use crate::matching::records::are_copies;
use client_request::{Compose, RequestMessage, Via};
use dns_base::{Header, Message, NoMemory, Octets, Section, are_same_questions, is_answer};
use std::alloc::Global;

/// The records of a section, and those of a base there.
fn is_section_carried(
    section: Section,
    opt: &Option<SentOpt<'_>>,
    message: &Message,
    base: &Message,
) -> bool
    ensures { result ≡ spec.carries_section section opt.now message.now base.now }
{
    let (found, source) = match section {
        Section::Answer => (message.answer(), base.answer()),
        Section::Authority => (message.authority(), base.authority()),
        Section::Additional => (message.additional(), base.additional()),
    };
    match (found, source) {
        (Ok(found), Ok(source)) => are_copies(section, opt, found, source),
        _ => false,
    }
}

/// Whether a message says a request of this base, header and OPT record.
fn says_request(
    message: &Message,
    base: &Message,
    header: Header,
    opt: &Option<SentOpt<'_>>,
) -> bool
    ensures { result ≡ spec.says_request message.now (record { base = base.now; header = header; opt = opt.now }) }
{
    message.header().to_octets()[..] == header.to_octets()[..]
        && are_same_questions(message.question(), base.question())
        && is_section_carried(Section::Answer, &None, message, base)
        && is_section_carried(Section::Authority, &None, message, base)
        && is_section_carried(Section::Additional, opt, message, base)
}

/// The header of a request under an id.
fn header_under(request: &RequestMessage, id: u16) -> Header
    ensures { result ≡ with_id id request.now.header }
{
    let mut header = *request.header();
    header.set_id(id);
    header
}

/// The message that these octets are, where they are enough for one.
fn message_of(octets: Octets) -> Option<Message>
    ensures some { IfSome result (λ m. m ≡ octets) }
    ensures long { is_some result ≡ nat_le 12 (length octets) }
{
    Message::from_octets(octets).ok()
}

/// Whether a message is a datagram of a request under an id, as it is sent where this payload size is announced.
fn is_datagram_of(
    message: &Message,
    request: &RequestMessage,
    id: u16,
    payload_size: Option<u16>,
) -> bool
    ensures { result ≡ (spec.says_request message.now (announcing payload_size (requests.with_id id request.now)) && (id_of message.now == id)) }
{
    let recorded = request.recorded_opt();
    let opt = match payload_size {
        None => SentOpt::recorded(&recorded),
        Some(size) => Some(SentOpt::or_empty(&recorded).with_payload_size(size)),
    };
    says_request(message, request.base(), header_under(request, id), &opt)
        && message.header().id() == id
}

/// Whether a message says a request under an id as it is recorded.
fn is_recorded_as(message: &Message, request: &RequestMessage, id: u16) -> bool
    ensures { result ≡ spec.says_request message.now (requests.with_id id request.now) }
{
    let recorded = request.recorded_opt();
    let opt = SentOpt::recorded(&recorded);
    says_request(message, request.base(), header_under(request, id), &opt)
}

/// Whether a message says a request under an id with the empty option edns-tcp-keepalive behind its options.
fn has_keepalive(
    alloc: Global,
    message: &Message,
    request: &RequestMessage,
    id: u16,
) -> Result<bool, NoMemory>
    ensures { IfOk result (λ b. b ≡ spec.says_request message.now (requests.with_option 11 [] (requests.with_id id request.now))) }
{
    let recorded = request.recorded_opt();
    let opt = SentOpt::or_empty(&recorded);
    let options = opt.options_with_keepalive(alloc)?;
    let opt = Some(opt.with_options(&options));
    Ok(says_request(message, request.base(), header_under(request, id), &opt))
}

/// Whether two octets give the length of the rest, which is below 65536.
fn is_framed(octets: &[u8]) -> bool
    ensures { result ≡ spec.is_framed octets.now }
{
    if octets.len() < 2 {
        return false;
    }
    let count = octets.len() - 2;
    count < 65536 && octets[..2] == (count as u16).to_be_bytes()[..]
}

/// Whether the message of a frame says a request under an id.
fn is_either(
    alloc: Global,
    message: &Message,
    request: &RequestMessage,
    id: u16,
) -> Result<bool, NoMemory>
    ensures { IfOk result (λ b. b ≡ (spec.is_either message.now request.now id && (id_of message.now == id))) }
{
    let _long = message.as_slice();
    if message.header().id() != id {
        return Ok(false);
    }
    if is_recorded_as(message, request, id) {
        return Ok(true);
    }
    has_keepalive(alloc, message, request, id)
}

/// Whether octets are a frame of a request under an id.
fn is_frame_of(
    alloc: Global,
    octets: &Octets,
    request: &RequestMessage,
    id: u16,
) -> Result<bool, NoMemory>
    ensures { IfOk result (λ b. b ≡ spec.is_frame_of octets.now request.now id) }
{
    if !is_framed(octets.as_slice()) {
        return Ok(false);
    }
    match message_of(octets.skipping(2)?) {
        None => Ok(false),
        Some(message) => is_either(alloc, &message, request, id),
    }
}

/// Whether octets carry a request under an id, as it is sent or written so (RFC 1035 4.2.1, RFC 6891 6.2.3, RFC 7766 8). A datagram
/// announces this payload size, or what is recorded where there is none.
pub fn carries(
    alloc: Global,
    payload_size: Option<u16>,
    via: Via,
    octets: &Octets,
    request: &RequestMessage,
    id: u16,
) -> Result<bool, NoMemory>
    ensures { IfOk result (λ b. b ≡ spec.carries_by payload_size via octets.now request.now id) }
{
    match via {
        Via::Dgram => match message_of(octets.try_clone()?) {
            None => Ok(false),
            Some(message) => Ok(is_datagram_of(&message, request, id, payload_size)),
        },
        Via::Stream => is_frame_of(alloc, octets, request, id),
    }
}

/// Whether a message is an answer to a request under an id (RFC 5452 4.2, 9.1).
pub fn is_answer_to(request: &RequestMessage, id: u16, message: &Message) -> bool
    ensures { result ≡ is_answer id request.now.base message.now }
{
    is_answer(id, request.base(), message)
}
