//! Replies whose own octets are what is composed of them, but for their id and their OPT record.

ghost use Rattle.std.specs.Prelude.{◌≡◌, ◌+◌, ◌≤◌, ◌<◌, ℕ, length, is_some, slice_index, IfSome, IfOk, Ok, Some};
ghost use Rattle.dns_base.specs.Forms.{form_of};
ghost use Rattle.dns_base.specs.Header.{id_of, with_id};
ghost use Rattle.dns_base.specs.Message.{header_of};
ghost use Rattle.dns_base.specs.Numbers.{u16_at};
ghost use Rattle.dns_base.specs.Sections.{counts_spelling};
ghost use Rattle.front_queries.specs.Answers.{answer_of, opt_for, unless_too_long};
ghost use Rattle.front_queries.specs.Simple as spec;
ghost use Rattle.front_queries.specs.declared.simple.Simple as declared;

use crate::answering::opt_for;
use crate::query::Query;
use crate::spelling::put_opt;
use dns_base::{Header, Message};
use std::alloc::{AllocError, Global};

/// A reply of which each record belongs to the question's name, but for an OPT record in the last place.
#[derive(Clone, Copy)]
pub(crate) struct Simple {
    /// Where its records end, but for that OPT record.
    end: usize,
    /// How many of them the additional section has.
    additional: u16,
}

fn u16_at(octets: &[u8], at: usize) -> u16
    requires { at + 2 ≤ length octets.now }
    ensures { result ≡ u16_at octets.now at }
{
    u16::from_be_bytes([octets[at], octets[at + 1]])
}

/// Whether data of a type has names that are read out of it, though it is none of RFC 1035 (RFC 3597 4).
fn has_form(rtype: u16) -> bool
    ensures { result ≡ is_some (form_of rtype) }
{
    matches!(rtype, 17 | 18 | 21 | 24 | 26 | 30 | 35)
}

/// Whether data of a type is written as its octets stand: no name is in it that is written anew.
fn is_copied(rtype: u16) -> bool
    ensures { result ≡ spec.is_copied rtype }
{
    !has_form(rtype)
        && !matches!(
            rtype,
            2 | 3 | 4 | 5 | 7 | 8 | 9 | 12 | 39 | 6 | 14 | 15 | 33 | 41
        )
}

/// Whether a record at a place belongs to the question's name, and its data is written as it stands.
fn is_of_question(octets: &[u8], at: usize) -> bool
    requires { at + 12 ≤ length octets.now }
    ensures { result ≡ spec.is_of_question octets.now at }
{
    octets[at] == 192 && octets[at + 1] == 12 && is_copied(u16_at(octets, at + 2))
}

/// Where the octets behind such a record stand, if one stands at a place.
#[tactic(auto, unfolding(crate::specs::Simple::simple_end))]
fn simple_end(octets: &[u8], at: usize) -> Option<usize>
    requires { at ≤ length octets.now }
    ensures value { result ≡ spec.simple_end octets.now at }
    ensures behind { IfSome result (λ end. at ≤ end) }
    ensures within { IfSome result (λ end. end ≤ length octets.now) }
{
    if octets.len() < at + 12 || !is_of_question(octets, at) {
        return None;
    }
    let end = at + 12 + u16_at(octets, at + 10) as usize;
    if octets.len() < end {
        return None;
    }
    Some(end)
}

/// The same of so many of them.
fn simple_ends(octets: &[u8], count: u16, place: usize) -> Option<usize>
    requires { place ≤ length octets.now }
    ensures value { result ≡ spec.simple_ends octets.now count place }
    ensures behind { IfSome result (λ end. place ≤ end) }
    ensures within { IfSome result (λ end. end ≤ length octets.now) }
{
    let mut at = place;
    for _ in 0..count {
        at = simple_end(octets, at)?;
    }
    Some(at)
}

/// Whether an OPT record of the root stands at a place, with neither options nor high bits of a response code.
fn is_plain_opt(octets: &[u8], at: usize) -> bool
    requires { at ≤ length octets.now }
    ensures { result ≡ spec.is_plain_opt octets.now at }
{
    at + 11 <= octets.len()
        && octets[at] == 0
        && u16_at(octets, at + 1) == 41
        && octets[at + 5] == 0
        && u16_at(octets, at + 9) == 0
}

/// The last record of the additional section, behind so many.
fn last_of(octets: &[u8], before: u16, at: usize) -> Option<Simple>
    requires place { at ≤ length octets.now }
    requires few { before < 65535 }
    ensures value { result ≡ spec.last_of octets.now before at }
    ensures behind { IfSome result (λ s. at ≤ s.end) }
    ensures within { IfSome result (λ s. s.end ≤ length octets.now) }
    ensures few { IfSome result (λ s. s.additional ≤ before + 1) }
{
    if is_plain_opt(octets, at) {
        return Some(Simple {
            end: at,
            additional: before,
        });
    }
    let end = simple_end(octets, at)?;
    Some(Simple {
        end,
        additional: before + 1,
    })
}

/// The records of the additional section.
fn additional_from(octets: &[u8], count: u16, at: usize) -> Option<Simple>
    requires { at ≤ length octets.now }
    ensures value { result ≡ spec.additional_from octets.now count at }
    ensures behind { IfSome result (λ s. at ≤ s.end) }
    ensures within { IfSome result (λ s. s.end ≤ length octets.now) }
    ensures few { IfSome result (λ s. s.additional ≤ count) }
{
    if count == 0 {
        return Some(Simple {
            end: at,
            additional: 0,
        });
    }
    let last = simple_ends(octets, count - 1, at)?;
    last_of(octets, count - 1, last)
}

/// The records of all three sections.
#[tactic(auto, unfolding(crate::specs::Simple::records_from))]
fn records_from(octets: &[u8], at: usize) -> Option<Simple>
    requires place { at ≤ length octets.now }
    requires long { 12 ≤ length octets.now }
    requires room { u16_at octets.now 10 < 65535 }
    ensures value { result ≡ spec.records_from octets.now at }
    ensures behind { IfSome result (λ s. at ≤ s.end) }
    ensures within { IfSome result (λ s. s.end ≤ length octets.now) }
    ensures few { IfSome result (λ s. s.additional < 65535) }
{
    let answered = simple_ends(octets, u16_at(octets, 6), at)?;
    let authorized = simple_ends(octets, u16_at(octets, 8), answered)?;
    additional_from(octets, u16_at(octets, 10), authorized)
}

/// Whether the only question is that of a query, with its name as the query spells it.
fn asks_the_same(query: &Query, octets: &[u8]) -> bool
    requires { 12 ≤ length octets.now }
    ensures { result ≡ spec.asks_the_same query.now octets.now }
{
    let name = query.qname.as_octets();
    1 < name.len()
        && u16_at(octets, 4) == 1
        && 12 + name.len() + 4 <= octets.len()
        && &octets[12..12 + name.len()] == name
}

/// Of a reply, that it is simple.
#[tactic(auto, unfolding(crate::specs::Simple::simple_of))]
pub(crate) fn simple_of(query: &Query, reply: &Message) -> Option<Simple>
    ensures value { result ≡ spec.simple_of query.now reply.now }
    ensures behind { IfSome result (λ s. 12 ≤ s.end) }
    ensures within { IfSome result (λ s. s.end ≤ length reply.now) }
    ensures few { IfSome result (λ s. s.additional < 65535) }
{
    let octets = reply.as_slice();
    if !asks_the_same(query, octets) || u16_at(octets, 10) == u16::MAX {
        return None;
    }
    records_from(octets, 12 + query.qname.as_octets().len() + 4)
}

/// Each octet is less than 256.
fn are_octets(octets: &[u8])
    ensures { (i : ℕ) → slice_index octets.now i < 256 }
{
    let _octets = octets;
}

/// What is answered where a reply is simple.
#[tactic(auto, using(crate::proofs::Answered::answered))]
pub(crate) fn is_answered(query: &Query, reply: &Message)
    ensures { (s : declared.Simple) → spec.simple_of query.now reply.now ≡ Some s → answer_of query.now (Ok reply.now) ≡ unless_too_long query.now (Ok (spec.patched query.now reply.now s)) }
{
    let _name = query.qname.as_octets();
    are_octets(reply.as_slice());
}

/// The octets of the counts: one question, the records of a reply in its answer and authority sections, and so many in the
/// additional section.
#[tactic(auto, unfolding(dns_base::specs::Sections::counts_spelling))]
fn counts_for(octets: &[u8], additional: u16) -> [u8; 8]
    requires { 12 ≤ length octets.now }
    ensures { result ≡ counts_spelling (spec.counts_for octets.now additional) }
{
    let [n1, n0] = u16_at(octets, 6).to_be_bytes();
    let [t1, t0] = u16_at(octets, 8).to_be_bytes();
    let [d1, d0] = additional.to_be_bytes();
    [0, 1, n1, n0, t1, t0, d1, d0]
}

/// The header of a reply under the id of a query.
pub(crate) fn header_for(query: &Query, reply: &Message) -> Header
    ensures { result ≡ with_id (id_of query.now.header) (header_of reply.now) }
{
    let mut header = reply.header();
    header.set_id(query.header.id());
    header
}

/// How many octets the OPT record of this host has.
const OPT: usize = 11;

/// The octets of a simple reply under a query's id, with this host's OPT record in place of its own.
#[tactic(auto, unfolding(crate::specs::Simple::patched))]
pub(crate) fn patched(
    alloc: Global,
    query: &Query,
    reply: &Message,
    simple: Simple,
) -> Result<Vec<u8>, AllocError>
    requires behind { 12 ≤ simple.end }
    requires within { simple.end ≤ length reply.now }
    requires room { simple.additional < 65535 }
    ensures { IfOk result (λ o. o.items ≡ spec.patched query.now reply.now simple) }
{
    let octets = reply.as_slice();
    let mut answer = Vec::with_capacity(alloc, simple.end + OPT)?;
    answer.extend_from_slice(&header_for(query, reply).to_octets())?;
    match opt_for(query, 0) {
        None => {
            answer.extend_from_slice(&counts_for(octets, simple.additional))?;
            answer.extend_from_slice(&octets[12..simple.end])?;
        }
        Some(opt) => {
            answer.extend_from_slice(&counts_for(octets, simple.additional + 1))?;
            answer.extend_from_slice(&octets[12..simple.end])?;
            put_opt(&opt, &mut answer)?;
        }
    }
    Ok(answer)
}
