//! Messages of a question and an OPT record at most, written with the name spelled out.

ghost use Rattle.std.specs.Prelude.{◌≡◌, ◌++◌, IfOk, OnOk};
ghost use Rattle.front_queries.specs.Spelled as spec;

use crate::query::Query;
use dns_base::{Header, Message, NoMemory, Octets, OptRecord};
use std::alloc::{AllocError, Global};

/// How many octets this host takes in a datagram, and sends in one at most: they come whole by most ways.
pub(crate) const PAYLOAD_SIZE: u16 = 1232;

/// The OPT record of this host, with these high bits of a response code.
pub(crate) fn own_opt(high: u8, dnssec_ok: bool) -> OptRecord<'static>
    ensures { result ≡ spec.own_opt high dnssec_ok }
{
    let flags = if dnssec_ok { 0x8000 } else { 0 };
    OptRecord::new(PAYLOAD_SIZE, high, 0, flags, &[])
}

/// Adds an OPT record as a record of the root (RFC 6891 6.1.2).
#[tactic(auto, unfolding(crate::specs::Spelled::opt_octets))]
pub(crate) fn put_opt(opt: &OptRecord<'_>, octets: &mut Vec<u8>) -> Result<(), AllocError>
    ensures { OnOk result (octets.new.items ≡ octets.old.items ++ spec.opt_octets opt.now) }
{
    let options = opt.data();
    let count = options.len() as u16;
    let [s1, s0] = opt.udp_payload_size().to_be_bytes();
    let [f1, f0] = opt.flags().to_be_bytes();
    let [c1, c0] = count.to_be_bytes();
    let fields = [
        0,
        0,
        41,
        s1,
        s0,
        opt.ext_rcode(),
        opt.version(),
        f1,
        f0,
        c1,
        c0,
    ];
    octets.extend_from_slice(&fields)?;
    octets.extend_from_slice(options)
}

/// Adds the question of a query (RFC 1035 4.1.2).
fn put_question(query: &Query, octets: &mut Vec<u8>) -> Result<(), AllocError>
    ensures { OnOk result (octets.new.items ≡ octets.old.items ++ spec.question_octets query.now.asked) }
{
    let [t1, t0] = query.qtype.0.to_be_bytes();
    let [c1, c0] = query.qclass.0.to_be_bytes();
    octets.extend_from_slice(query.qname.as_octets())?;
    octets.extend_from_slice(&[t1, t0, c1, c0])
}

/// For how many octets there is room at first: a message of most names, with an OPT record, has fewer.
const USUAL: usize = 64;

/// A header and four counts: no record stands in the answer and authority sections.
fn head(alloc: Global, header: Header, questions: u8, additional: u8) -> Result<Vec<u8>, AllocError>
    ensures { IfOk result (λ o. o.items ≡ header ++ spec.counts_octets questions additional) }
{
    let mut octets = Vec::with_capacity(alloc, USUAL)?;
    octets.extend_from_slice(&header.to_octets())?;
    octets.extend_from_slice(&[0, questions, 0, 0, 0, 0, 0, additional])?;
    Ok(octets)
}

/// A header alone.
pub(crate) fn bare(alloc: Global, header: Header) -> Result<Octets, NoMemory>
    ensures { IfOk result (λ o. o ≡ spec.bare header) }
{
    let octets = head(alloc, header, 0, 0)?;
    Octets::from_vec(octets)
}

/// A header and an OPT record.
pub(crate) fn extended(
    alloc: Global,
    header: Header,
    opt: &OptRecord<'_>,
) -> Result<Octets, NoMemory>
    ensures { IfOk result (λ o. o ≡ spec.extended header opt.now) }
{
    let mut octets = head(alloc, header, 0, 1)?;
    put_opt(opt, &mut octets)?;
    Octets::from_vec(octets)
}

/// A header, the question of a query, and an OPT record if there is one.
pub(crate) fn spelled(
    alloc: Global,
    header: Header,
    query: &Query,
    opt: Option<OptRecord<'_>>,
) -> Result<Octets, NoMemory>
    ensures { IfOk result (λ o. o ≡ spec.spelled header query.now.asked opt.entry) }
{
    match opt {
        None => {
            let mut octets = head(alloc, header, 1, 0)?;
            put_question(query, &mut octets)?;
            Octets::from_vec(octets)
        }
        Some(opt) => {
            let mut octets = head(alloc, header, 1, 1)?;
            put_question(query, &mut octets)?;
            put_opt(&opt, &mut octets)?;
            Octets::from_vec(octets)
        }
    }
}

/// The same as a message.
pub(crate) fn spelled_message(
    alloc: Global,
    header: Header,
    query: &Query,
    opt: Option<OptRecord<'_>>,
) -> Result<Message, NoMemory>
    ensures { IfOk result (λ m. m ≡ spec.spelled header query.now.asked opt.entry) }
{
    let octets = spelled(alloc, header, query, opt)?;
    // A header and four counts are twelve octets.
    match Message::from_octets(octets) {
        Ok(message) => Ok(message),
        Err(_) => Err(NoMemory),
    }
}
