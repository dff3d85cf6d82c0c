//! Events compared part by part.

ghost use Rattle.std.specs.Prelude.{◌≡◌};
ghost use Rattle.message_judging.specs.matching.Shapes.{same_octets};
ghost use Rattle.trace_points.specs.events.Same as plain;

use client_request::{Compose, Event, Fault, RequestMessage, What};
use dns_base::OptRecord;

fn is_same_octets(a: &[u8], b: &[u8]) -> bool
    ensures { result ≡ same_octets a.now b.now }
{
    a == b
}

fn is_same_fields(a: &OptRecord<'_>, b: &OptRecord<'_>) -> bool
    ensures { result ≡ plain.same_fields a.now b.now }
{
    a.udp_payload_size() == b.udp_payload_size()
        && a.ext_rcode() == b.ext_rcode()
        && a.version() == b.version()
        && a.flags() == b.flags()
        && is_same_octets(a.data(), b.data())
}

fn is_same_opt(a: &Option<OptRecord<'_>>, b: &Option<OptRecord<'_>>) -> bool
    ensures { result ≡ plain.same_opt a.now b.now }
{
    match (a, b) {
        (None, None) => true,
        (Some(a), Some(b)) => is_same_fields(a, b),
        _ => false,
    }
}

fn is_same_request(a: &RequestMessage, b: &RequestMessage) -> bool
    ensures { result ≡ plain.same_request a.now b.now }
{
    is_same_octets(a.base().as_slice(), b.base().as_slice())
        && is_same_octets(&a.header().to_octets(), &b.header().to_octets())
        && is_same_opt(&a.recorded_opt(), &b.recorded_opt())
}

fn number_of(fault: Fault) -> u8
    ensures { result ≡ plain.number_of fault }
{
    match fault {
        Fault::Refused => 0,
        Fault::Reset => 1,
        Fault::Unreachable => 2,
        Fault::InUse => 3,
        Fault::Broken => 4,
        Fault::Other => 5,
        Fault::Expired => 6,
        Fault::ShortSend => 7,
        Fault::NothingTaken => 8,
        Fault::EndOfData => 9,
    }
}

fn is_same_fault(a: Fault, b: Fault) -> bool
    ensures { result ≡ plain.same_fault a b }
{
    number_of(a) == number_of(b)
}

fn is_same_what(a: &What, b: &What) -> bool
    ensures { result ≡ plain.same_what a.now b.now }
{
    match (a, b) {
        (What::Ask { request: r }, What::Ask { request: s }) => is_same_request(r, s),
        (What::Opened { place: p }, What::Opened { place: q }) => *p == *q,
        (What::OpenFailed { place: p, fault: f }, What::OpenFailed { place: q, fault: g }) => {
            *p == *q && is_same_fault(*f, *g)
        }
        (What::SendFailed { place: p, fault: f }, What::SendFailed { place: q, fault: g }) => {
            *p == *q && is_same_fault(*f, *g)
        }
        (What::ShortSend { place: p }, What::ShortSend { place: q }) => *p == *q,
        (
            What::Datagram {
                place: p,
                octets: o,
            },
            What::Datagram {
                place: q,
                octets: u,
            },
        ) => { *p == *q && is_same_octets(o.as_slice(), u.as_slice()) }
        (What::RecvFailed { place: p, fault: f }, What::RecvFailed { place: q, fault: g }) => {
            *p == *q && is_same_fault(*f, *g)
        }
        (What::Wrote { place: p, count: n }, What::Wrote { place: q, count: m }) => {
            *p == *q && *n == *m
        }
        (What::WriteFailed { place: p, fault: f }, What::WriteFailed { place: q, fault: g }) => {
            *p == *q && is_same_fault(*f, *g)
        }
        (
            What::Bytes {
                place: p,
                octets: o,
            },
            What::Bytes {
                place: q,
                octets: u,
            },
        ) => { *p == *q && is_same_octets(o.as_slice(), u.as_slice()) }
        (What::ReadFailed { place: p, fault: f }, What::ReadFailed { place: q, fault: g }) => {
            *p == *q && is_same_fault(*f, *g)
        }
        (What::Ended { place: p }, What::Ended { place: q }) => *p == *q,
        (What::Tick, What::Tick) => true,
        _ => false,
    }
}

/// Whether two events are the same: their moments, what happened, where, and all octets and counts.
#[tactic(auto, using(crate::proofs::lemmas::events::Sameness::tells_same))]
pub fn is_same_event(a: &Event, b: &Event) -> bool
    ensures value { result ≡ plain.same_event a.now b.now }
    ensures told { plain.TellsSame a.now b.now result }
{
    a.moment.0 == b.moment.0 && is_same_what(&a.what, &b.what)
}
