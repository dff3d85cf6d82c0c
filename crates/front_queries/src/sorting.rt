//! What becomes of octets that came of a DNS client.

ghost use Rattle.std.specs.Prelude.{◌≡◌, IfOk, IsSome, false, option_map};
ghost use Rattle.dns_base.specs.Message.{first_question};
ghost use Rattle.dns_base.specs.OptRecord.{opt_of};
ghost use Rattle.front_queries.specs.Refusals as spec;
ghost use Rattle.front_queries.specs.Query.{is_of_zone};
ghost use Rattle.front_queries.specs.declared.sorting.Sorted.TheVariants as become;

use crate::query::{Extension, Query};
use crate::refusal::Refusal;
use crate::spelling::{bare, extended, own_opt};
use dns_base::{
    Header, Message, NoMemory, Octets, Opcode, OptRecord, Question, RecordSection, Rtype, ToName,
};
use std::alloc::Global;

/// What becomes of octets that came.
#[derive(Drop)]
pub enum Sorted {
    /// They are no query: there is no answer to them.
    Ignored,
    /// They are refused by these octets.
    Refused { octets: Octets },
    /// They are a query that is asked.
    Taken { query: Query },
}

/// Whether a type asks for a zone.
fn is_of_zone(qtype: Rtype) -> bool
    ensures { result ≡ is_of_zone qtype.0 }
{
    qtype == Rtype::IXFR || qtype == Rtype::AXFR
}

/// Whether no data is of a type.
fn is_of_no_data(qtype: Rtype) -> bool
    ensures { result ≡ spec.is_of_no_data qtype.0 }
{
    matches!(qtype.0, 41 | 249 | 250 | 253 | 254)
}

/// Whether an additional section has nothing, or just one OPT record of the root whose data is read.
fn is_opt_at_most(mut records: RecordSection<'_>) -> bool
    ensures { result ≡ spec.is_opt_at_most records.entry }
{
    match records.next() {
        None => true,
        Some(Err(_)) => false,
        Some(Ok(record)) => {
            records.next().is_none()
                && record.rtype() == Rtype::OPT
                && record.data().is_ok()
                && record.owner().is_root()
        }
    }
}

/// Whether a query whose first question is read has no other, and no record but one OPT record at most.
#[tactic(auto, using(crate::proofs::Asked::alone))]
fn is_question_alone(query: &Message) -> bool
    requires { IsSome (first_question query.now) }
    ensures { result ≡ spec.is_question_alone query.now }
{
    let counts = query.header_counts();
    if counts.qdcount() != 1 || counts.ancount() != 0 || counts.nscount() != 0 {
        return false;
    }
    if counts.arcount() == 0 {
        return true;
    }
    match query.additional() {
        Ok(records) => is_opt_at_most(records),
        Err(_) => false,
    }
}

/// The OPT record of a query, if it has one. Where no record is counted none is looked for.
#[tactic(auto, using(crate::proofs::Asked::none_counted))]
fn opt_of(query: &Message) -> Option<OptRecord<'_>>
    ensures { result ≡ opt_of query.now }
{
    if query.header_counts().arcount() == 0 {
        return None;
    }
    query.opt()
}

/// Whether the OPT record of a query is of a version above 0.
fn is_of_later_version(query: &Message) -> bool
    ensures { result ≡ spec.is_of_later_version query.now }
{
    match opt_of(query) {
        Some(opt) => 0 < opt.version(),
        None => false,
    }
}

/// Whether the client of a query takes DNSSEC records.
fn asks_dnssec(query: &Message) -> bool
    ensures { result ≡ spec.asks_dnssec query.now }
{
    match opt_of(query) {
        Some(opt) => opt.dnssec_ok(),
        None => false,
    }
}

/// Why a query that asks for this type is refused, if it is: the first of its causes.
fn refusal_asking(query: &Message, question: &Question<'_>) -> Option<Refusal>
    requires { IsSome (first_question query.now) }
    ensures { result ≡ spec.refusal_asking query.now question.now }
{
    if query.header().opcode() != Opcode::QUERY {
        Some(Refusal::NotImplemented)
    } else if is_of_zone(question.qtype()) {
        Some(Refusal::ZoneRefused)
    } else if !is_question_alone(query) {
        Some(Refusal::FormatError)
    } else if is_of_later_version(query) {
        Some(Refusal::BadVersion)
    } else if is_of_no_data(question.qtype()) {
        Some(Refusal::FormatError)
    } else {
        None
    }
}

/// Why a query is refused whose first question can't be read.
fn refusal_asking_nothing(query: &Message) -> Refusal
    ensures { result ≡ spec.refusal_asking_nothing query.now }
{
    if query.header().opcode() == Opcode::QUERY {
        Refusal::FormatError
    } else {
        Refusal::NotImplemented
    }
}

/// The header of a refusal.
fn refusing(query: &Message, refusal: Refusal) -> Header
    ensures { result ≡ spec.refusing query.now (spec.code_of refusal) }
{
    let octets = query.as_slice();
    Header::from_octets([
        octets[0],
        octets[1],
        0x80 | (octets[2] & 0x79),
        refusal.rcode().0,
    ])
}

/// What refuses a query.
fn refuse(alloc: Global, query: &Message, refusal: Refusal) -> Result<Sorted, NoMemory>
    ensures { IfOk result (λ s. s ≡ become.Refused (spec.refused_by query.now refusal)) }
{
    let header = refusing(query, refusal);
    let octets = match refusal {
        Refusal::BadVersion => extended(alloc, header, &own_opt(1, asks_dnssec(query)))?,
        _ => bare(alloc, header)?,
    };
    Ok(Sorted::Refused { octets })
}

/// What the OPT record of a query says of its client.
fn extension_of(query: &Message) -> Option<Extension>
    ensures { result ≡ option_map spec.extension_of (opt_of query.now) }
{
    match opt_of(query) {
        Some(opt) => Some(Extension {
            udp_payload_size: opt.udp_payload_size(),
            dnssec_ok: opt.dnssec_ok(),
        }),
        None => None,
    }
}

/// What is kept of a query that asks this.
fn take(alloc: Global, query: &Message, question: &Question<'_>) -> Result<Sorted, NoMemory>
    requires { is_of_zone question.now.rtype ≡ false }
    ensures { IfOk result (λ s. s ≡ become.Taken (spec.taken query.now question.now)) }
{
    let qname = question.qname().to_name(alloc)?;
    let query = Query {
        header: query.header(),
        qname,
        qtype: question.qtype(),
        qclass: question.qclass(),
        extension: extension_of(query),
    };
    Ok(Sorted::Taken { query })
}

/// What becomes of a query that asks this.
fn sort_asking(alloc: Global, query: &Message, question: &Question<'_>) -> Result<Sorted, NoMemory>
    requires { IsSome (first_question query.now) }
    ensures { IfOk result (λ s. s ≡ spec.unless_refused query.now question.now (spec.refusal_asking query.now question.now)) }
{
    match refusal_asking(query, question) {
        Some(refusal) => refuse(alloc, query, refusal),
        None => take(alloc, query, question),
    }
}

/// What becomes of octets that came of a DNS client. They are no query where they have no header, or are a response.
/// A query is taken where its opcode is QUERY, it has one question that is read, no record but one OPT record at most
/// (RFC 6891 6.1.1), of version 0, and asks for data: not for a zone, and not for a type of which there is none. Else it
/// is refused by its id, opcode and RD with the response code of the first cause: NOTIMP for another opcode, REFUSED for
/// a zone, FORMERR for another form, BADVERS for another version, and FORMERR for a type of which there is no data.
pub fn sort(alloc: Global, octets: Octets) -> Result<Sorted, NoMemory>
    ensures { IfOk result (λ s. s ≡ spec.sorted octets) }
{
    let Ok(query) = Message::from_octets(octets) else {
        return Ok(Sorted::Ignored);
    };
    if query.header().qr() {
        return Ok(Sorted::Ignored);
    }
    match query.first_question() {
        Some(question) => sort_asking(alloc, &query, &question),
        None => refuse(alloc, &query, refusal_asking_nothing(&query)),
    }
}
