//! What is asked of requests alone.

ghost use Rattle.std.specs.Prelude.{◌≡◌, ◌≤◌, length, MatchResult, Some, None};
ghost use Rattle.message_judging.specs.validity.Sizes as sizes;
ghost use Rattle.message_judging.specs.validity.Validity as spec;

use crate::validity::sizes::BaseSize;
use client_request::{Compose, RequestMessage};
use dns_base::{Class, Message, Opcode};

/// What a judge of traces asks of a request.
#[derive(Clone, Copy, Debug, Drop)]
pub struct RequestValidity {
    /// Its base is a message that can be read.
    pub is_read: bool,
    /// Its message would have more entries in a section than can be counted.
    pub passes_count: bool,
    /// It is composed within all limits.
    pub is_valid: bool,
    /// It has one question, of class IN, so its answer may be kept.
    pub is_cacheable: bool,
}

/// How many octets the recorded options have.
fn options_of(request: &RequestMessage) -> usize
    ensures { result ≡ spec.options_of request.now.opt }
{
    match request.recorded_opt() {
        None => 0,
        Some(opt) => opt.data().len(),
    }
}

/// Whether a request is a query with one question, of class IN.
fn asks_one_in(request: &RequestMessage) -> bool
    ensures { result ≡ spec.asks_one_in request.now }
{
    if request.header().opcode() != Opcode::QUERY {
        return false;
    }
    match request.base().sole_question() {
        Err(_) => false,
        Ok(question) => question.qclass() == Class::IN,
    }
}

/// Whether a base has more entries in a section than can be counted, with an OPT record.
fn has_too_many(size: &BaseSize) -> bool
    ensures { result ≡ spec.has_too_many (Some size.now) }
{
    size.questions > 65535
        || size.answer > 65535
        || size.authority > 65535
        || size.additional >= 65535
}

/// Whether a message of so many octets with options is short enough for a stream.
fn is_short(size: &BaseSize, options: usize) -> bool
    ensures { result ≡ spec.is_short options (Some size.now) }
{
    let octets = size.octets as usize;
    octets < 65536 && options < 65536 && octets + (15 + options) <= 65535
}

/// The base of a request has twelve octets at least.
fn is_long(base: &Message)
    ensures { 12 ≤ length base.now }
{
    let _octets = base.as_slice();
}

fn found_of(request: &RequestMessage) -> RequestValidity
    ensures { result ≡ spec.found_of request.now (sizes.size_of_base request.now.base) }
{
    match BaseSize::of(request.base()) {
        Err(_) => RequestValidity {
            is_read: false,
            passes_count: false,
            is_valid: false,
            is_cacheable: false,
        },
        Ok(size) => {
            let passes_count = has_too_many(&size);
            RequestValidity {
                is_read: true,
                passes_count,
                is_valid: !passes_count && is_short(&size, options_of(request)),
                is_cacheable: asks_one_in(request),
            }
        }
    }
}

impl RequestValidity {
    /// What is so of a request. It takes no memory.
    #[tactic(auto, using(crate::proofs::lemmas::validity::Deciding::validity_is_decided))]
    pub fn of(request: &RequestMessage) -> RequestValidity
        ensures { spec.IsFound request.now result }
    {
        is_long(request.base());
        request.may_be_asked();
        found_of(request)
    }
}
