//! Whether two messages say the same but for the case of names.

ghost use Rattle.std.specs.Prelude.{◌≡◌, ◌≤◌, length};
ghost use Rattle.right_trace.specs.Parts.{flags_in};
ghost use Rattle.message_judging.specs.views.Same as spec;

use crate::matching::is_same_data;
use dns_base::{Header, Message, Record, RecordSection, Section, are_same_questions, is_same_name};

/// Whether the bit of a header is set that has no meaning yet (RFC 1035 4.1.1, RFC 2535 6.1).
fn z_of(header: Header) -> bool
    ensures { result ≡ (flags_in header).z }
{
    header.to_octets()[3] & 0x40 != 0
}

/// Whether QR, AA, TC and RD are the same.
fn has_same_flags(a: Header, b: Header) -> bool
    ensures { result ≡ spec.same_flags (flags_in a) (flags_in b) }
{
    a.qr() == b.qr() && a.aa() == b.aa() && a.tc() == b.tc() && a.rd() == b.rd()
}

/// Whether RA, the bit without a meaning, AD and CD are the same.
fn has_same_other_flags(a: Header, b: Header) -> bool
    ensures { result ≡ spec.same_more_flags (flags_in a) (flags_in b) }
{
    a.ra() == b.ra() && z_of(a) == z_of(b) && a.ad() == b.ad() && a.cd() == b.cd()
}

fn is_same_header(a: Header, b: Header) -> bool
    ensures { result ≡ spec.same_header (flags_in a) (flags_in b) }
{
    a.id() == b.id()
        && a.opcode().0 == b.opcode().0
        && a.rcode().0 == b.rcode().0
        && has_same_flags(a, b)
        && has_same_other_flags(a, b)
}

/// Whether the data of both is read by type, and the same.
fn is_same_content(a: &Record<'_>, b: &Record<'_>) -> bool
    ensures { result ≡ spec.same_content a.now.says b.now.says }
{
    match (a.data(), b.data()) {
        (Ok(a), Ok(b)) => is_same_data(&a, &b),
        (Ok(_), Err(_)) => false,
        (Err(_), _) => false,
    }
}

fn is_same_record(a: &Record<'_>, b: &Record<'_>) -> bool
    ensures { result ≡ spec.same_record a.now b.now }
{
    is_same_name(&a.owner(), &b.owner())
        && a.rtype().0 == b.rtype().0
        && a.class().0 == b.class().0
        && a.ttl().0 == b.ttl().0
        && is_same_content(a, b)
}

/// Whether records are the same, all of them read.
fn are_same_records(mut a: RecordSection<'_>, mut b: RecordSection<'_>) -> bool
    ensures { result ≡ spec.same_records a.entry b.entry }
{
    'items: loop {
        match a.next() {
            None => return b.next().is_none(),
            Some(Err(_)) => return false,
            Some(Ok(x)) => match b.next() {
                Some(Ok(y)) => {
                    if !is_same_record(&x, &y) {
                        return false;
                    }
                }
                _ => return false,
            },
        }
    }
}

fn is_same_section(section: Section, a: &Message, b: &Message) -> bool
    ensures { result ≡ spec.same_section section a.now b.now }
{
    let (a, b) = match section {
        Section::Answer => (a.answer(), b.answer()),
        Section::Authority => (a.authority(), b.authority()),
        Section::Additional => (a.additional(), b.additional()),
    };
    match (a, b) {
        (Ok(a), Ok(b)) => are_same_records(a, b),
        _ => false,
    }
}

fn compare(a: &Message, b: &Message) -> bool
    ensures same { result ≡ spec.same_message a.now b.now }
    ensures first { 12 ≤ length a.now }
    ensures second { 12 ≤ length b.now }
{
    let _first = a.as_slice();
    let _second = b.as_slice();
    is_same_header(a.header(), b.header())
        && a.opt_rcode().0 == b.opt_rcode().0
        && are_same_questions(a.question(), b.question())
        && is_same_section(Section::Answer, a, b)
        && is_same_section(Section::Authority, a, b)
        && is_same_section(Section::Additional, a, b)
}

/// Whether two messages are read, with the data of their records by type, and say the same but for the case of names.
pub fn is_same_message(a: &Message, b: &Message) -> bool
    ensures { spec.TellsSame a.now b.now result }
{
    compare(a, b)
}
