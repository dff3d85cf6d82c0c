//! The data of records, read by its type.

ghost use Rattle.std.specs.Prelude.{◌≡◌, ◌+◌, ◌≤◌, length, MatchResult, Some, None, slice_range, option_map};
ghost use Rattle.dns_base.specs.Data.{are_strings, are_options, octets_to, name_to, minfo_to, mx_to, soa_to, srv_to, data_at};
ghost use Rattle.dns_base.specs.RecordData.{data_view};

use crate::named_data::{form_of, named_to};
use crate::numbers::{u16_at, u32_at};
use dns_names::ParsedName;
use dns_values::{ParseError, Rtype, Serial, Ttl};

/// What the data of a record says, by its type. Names may have pointers, and intervals are in seconds.
#[derive(Drop)]
pub enum RecordData<'a> {
    /// An IPv4 address (RFC 1035 3.4.1).
    A([u8; 4]),
    /// An IPv6 address (RFC 3596 2.2).
    Aaaa([u8; 16]),
    /// A name server (RFC 1035 3.3.11).
    Ns(ParsedName<'a>),
    /// A mail destination, obsolete (RFC 1035 3.3.4).
    Md(ParsedName<'a>),
    /// A mail forwarder, obsolete (RFC 1035 3.3.5).
    Mf(ParsedName<'a>),
    /// The canonical name of an alias (RFC 1035 3.3.1).
    Cname(ParsedName<'a>),
    /// A mailbox (RFC 1035 3.3.3).
    Mb(ParsedName<'a>),
    /// A member of a mail group (RFC 1035 3.3.6).
    Mg(ParsedName<'a>),
    /// The new name of a mailbox (RFC 1035 3.3.8).
    Mr(ParsedName<'a>),
    /// Another place of the name space (RFC 1035 3.3.12).
    Ptr(ParsedName<'a>),
    /// The new name of a subtree (RFC 6672 2.1).
    Dname(ParsedName<'a>),
    /// The mailboxes for requests and for errors of a mail list (RFC 1035 3.3.7).
    Minfo(ParsedName<'a>, ParsedName<'a>),
    /// A preference, lower ones first, and a mail exchange (RFC 1035 3.3.9).
    Mx(u16, ParsedName<'a>),
    /// The start of a zone of authority (RFC 1035 3.3.13).
    Soa {
        mname: ParsedName<'a>,
        rname: ParsedName<'a>,
        serial: Serial,
        refresh: Ttl,
        retry: Ttl,
        expire: Ttl,
        minimum: Ttl,
    },
    /// Where a service is (RFC 2782).
    Srv {
        priority: u16,
        weight: u16,
        port: u16,
        target: ParsedName<'a>,
    },
    /// Data of RP, AFSDB, RT, SIG, PX, NXT or NAPTR, whose names may be compressed too (RFC 3597 4): the octets before the
    /// first name, the second name where the type has two, and the octets behind.
    Named {
        before: &'a [u8],
        first: ParsedName<'a>,
        second: Option<ParsedName<'a>>,
        behind: &'a [u8],
    },
    /// Counted strings (RFC 1035 3.3.14).
    Txt(&'a [u8]),
    /// Options, each with a code, a length and its octets (RFC 6891 6.1.2).
    Opt(&'a [u8]),
    /// Octets that are not looked into.
    Other(&'a [u8]),
}

/// Whether octets are counted strings.
fn are_strings(octets: &[u8]) -> bool
    ensures { result ≡ are_strings octets.now }
{
    let mut left = 0;
    for octet in octets {
        if left == 0 {
            left = *octet;
        } else {
            left -= 1;
        }
    }
    left == 0
}

/// Whether octets are options.
fn are_options(octets: &[u8]) -> bool
    ensures { result ≡ are_options octets.now }
{
    let mut rest = octets;
    'options: loop {
        match rest {
            [] => return true,
            [_, _, high, low, others @ ..] => {
                let count = *high as usize * 256 + *low as usize;
                if others.len() < count {
                    return false;
                }
                rest = &others[count..];
            }
            _ => return false,
        }
    }
}

/// A name that fills the data.
fn name_to(octets: &[u8], at: usize, end: usize) -> Result<ParsedName<'_>, ParseError>
    ensures { MatchResult result (λ n. name_to octets.now at end ≡ Some n) (λ _. name_to octets.now at end ≡ None) }
{
    match ParsedName::parse(octets, at) {
        Some((name, after)) => {
            if after == end {
                Ok(name)
            } else {
                Err(ParseError)
            }
        }
        None => Err(ParseError),
    }
}

fn minfo_to(octets: &[u8], at: usize, end: usize) -> Result<RecordData<'_>, ParseError>
    ensures { MatchResult result (λ d. minfo_to octets.now at end ≡ Some (data_view d)) (λ _. minfo_to octets.now at end ≡ None) }
{
    let (first, after) = match ParsedName::parse(octets, at) {
        Some(found) => found,
        None => return Err(ParseError),
    };
    let second = name_to(octets, after, end)?;
    Ok(RecordData::Minfo(first, second))
}

fn mx_to(octets: &[u8], at: usize, end: usize) -> Result<RecordData<'_>, ParseError>
    requires order { at ≤ end }
    requires within { end ≤ length octets.now }
    ensures { MatchResult result (λ d. mx_to octets.now at end ≡ Some (data_view d)) (λ _. mx_to octets.now at end ≡ None) }
{
    if end < at + 2 {
        return Err(ParseError);
    }
    let exchange = name_to(octets, at + 2, end)?;
    Ok(RecordData::Mx(u16_at(octets, at), exchange))
}

fn soa_to(octets: &[u8], at: usize, end: usize) -> Result<RecordData<'_>, ParseError>
    requires { end ≤ length octets.now }
    ensures { MatchResult result (λ d. soa_to octets.now at end ≡ Some (data_view d)) (λ _. soa_to octets.now at end ≡ None) }
{
    let (mname, after) = match ParsedName::parse(octets, at) {
        Some(found) => found,
        None => return Err(ParseError),
    };
    let (rname, numbers) = match ParsedName::parse(octets, after) {
        Some(found) => found,
        None => return Err(ParseError),
    };
    if numbers + 20 != end {
        return Err(ParseError);
    }
    Ok(RecordData::Soa {
        mname,
        rname,
        serial: Serial(u32_at(octets, numbers)),
        refresh: Ttl(u32_at(octets, numbers + 4)),
        retry: Ttl(u32_at(octets, numbers + 8)),
        expire: Ttl(u32_at(octets, numbers + 12)),
        minimum: Ttl(u32_at(octets, numbers + 16)),
    })
}

fn srv_to(octets: &[u8], at: usize, end: usize) -> Result<RecordData<'_>, ParseError>
    requires order { at ≤ end }
    requires within { end ≤ length octets.now }
    ensures { MatchResult result (λ d. srv_to octets.now at end ≡ Some (data_view d)) (λ _. srv_to octets.now at end ≡ None) }
{
    if end < at + 6 {
        return Err(ParseError);
    }
    let target = name_to(octets, at + 6, end)?;
    Ok(RecordData::Srv {
        priority: u16_at(octets, at),
        weight: u16_at(octets, at + 2),
        port: u16_at(octets, at + 4),
        target,
    })
}

fn address(octets: &[u8], at: usize, end: usize) -> Result<[u8; 4], ParseError>
    requires order { at ≤ end }
    requires within { end ≤ length octets.now }
    ensures { MatchResult result (λ a. octets_to 4 octets.now at end ≡ Some a) (λ _. octets_to 4 octets.now at end ≡ None) }
{
    if at + 4 != end {
        return Err(ParseError);
    }
    let mut address = [0; 4];
    address.copy_from_slice(&octets[at..end]);
    Ok(address)
}

fn long_address(octets: &[u8], at: usize, end: usize) -> Result<[u8; 16], ParseError>
    requires order { at ≤ end }
    requires within { end ≤ length octets.now }
    ensures { MatchResult result (λ a. octets_to 16 octets.now at end ≡ Some a) (λ _. octets_to 16 octets.now at end ≡ None) }
{
    if at + 16 != end {
        return Err(ParseError);
    }
    let mut address = [0; 16];
    address.copy_from_slice(&octets[at..end]);
    Ok(address)
}

/// The data of a type between two places.
#[tactic(auto, unfolding(crate::specs::Data::data_at))]
pub(crate) fn data_at(
    rtype: Rtype,
    octets: &[u8],
    at: usize,
    end: usize,
) -> Result<RecordData<'_>, ParseError>
    requires order { at ≤ end }
    requires within { end ≤ length octets.now }
    ensures { MatchResult result (λ d. data_at rtype.0 octets.now at end ≡ Some (data_view d)) (λ _. data_at rtype.0 octets.now at end ≡ None) }
{
    match rtype {
        Rtype::A => Ok(RecordData::A(address(octets, at, end)?)),
        Rtype::AAAA => Ok(RecordData::Aaaa(long_address(octets, at, end)?)),
        Rtype::NS => Ok(RecordData::Ns(name_to(octets, at, end)?)),
        Rtype::MD => Ok(RecordData::Md(name_to(octets, at, end)?)),
        Rtype::MF => Ok(RecordData::Mf(name_to(octets, at, end)?)),
        Rtype::CNAME => Ok(RecordData::Cname(name_to(octets, at, end)?)),
        Rtype::MB => Ok(RecordData::Mb(name_to(octets, at, end)?)),
        Rtype::MG => Ok(RecordData::Mg(name_to(octets, at, end)?)),
        Rtype::MR => Ok(RecordData::Mr(name_to(octets, at, end)?)),
        Rtype::PTR => Ok(RecordData::Ptr(name_to(octets, at, end)?)),
        Rtype::DNAME => Ok(RecordData::Dname(name_to(octets, at, end)?)),
        Rtype::MINFO => minfo_to(octets, at, end),
        Rtype::MX => mx_to(octets, at, end),
        Rtype::SOA => soa_to(octets, at, end),
        Rtype::SRV => srv_to(octets, at, end),
        Rtype::TXT => {
            if are_strings(&octets[at..end]) {
                Ok(RecordData::Txt(&octets[at..end]))
            } else {
                Err(ParseError)
            }
        }
        Rtype::OPT => {
            if are_options(&octets[at..end]) {
                Ok(RecordData::Opt(&octets[at..end]))
            } else {
                Err(ParseError)
            }
        }
        _ => match form_of(rtype) {
            Some(form) => named_to(form, octets, at, end).ok_or(ParseError),
            None => Ok(RecordData::Other(&octets[at..end])),
        },
    }
}
