//! The options of an OPT record (RFC 6891 6.1).

use crate::octets::Hex;
use crate::parts;
use crate::strings::{CharacterString, Unquoted};
use dns_base::{IpAddr, OptRcode, Record};
use std::fmt::{self, Display};

/// The meaning of an extended error (RFC 8914 4).
fn error_text(code: u16) -> &'static str {
    match code {
        0 => "Other",
        1 => "Unsupported DNSKEY Algorithm",
        2 => "Unsupported DS Digest Type",
        3 => "Stale Answer",
        4 => "Forged Answer",
        5 => "DNSSEC Indeterminate",
        6 => "DNSSEC Bogus",
        7 => "Signature Expired",
        8 => "Signature Not Yet Valid",
        9 => "DNSKEY Missing",
        10 => "RRSIGs Missing",
        11 => "No Zone Key Bit Set",
        12 => "NSEC Missing",
        13 => "Cached Error",
        14 => "Not Ready",
        15 => "Blocked",
        16 => "Censored",
        17 => "Filtered",
        18 => "Prohibited",
        19 => "Stale NXDOMAIN Answer",
        20 => "Not Authoritative",
        21 => "Not Supported",
        22 => "No Reachable Authority",
        23 => "Network Error",
        24 => "Invalid Data",
        _ => "Unknown code",
    }
}

/// An extended error: its code and meaning, and its text where there is one (RFC 8914 2).
fn write_error<W: fmt::Write>(value: &[u8], f: &mut fmt::Formatter<W>) -> fmt::Result {
    let Some((code, text)) = parts::u16_front(value) else {
        return writeln!(f, ";; EDE: (malformed)");
    };
    let meaning = error_text(code);
    if text.is_empty() {
        return writeln!(f, ";; EDE: {code} ({meaning})");
    }
    writeln!(f, ";; EDE: {code} ({meaning}): '{}'", Unquoted(text))
}

/// An octet of an address, or 0 behind the last that is written.
fn octet_at(octets: &[u8], at: usize) -> u8 {
    match octets.get(at) {
        Some(octet) => *octet,
        None => 0,
    }
}

/// The address of a client's network: what isn't written is 0 (RFC 7871 6).
fn network(family: u16, octets: &[u8]) -> Option<IpAddr> {
    match family {
        1 if octets.len() <= 4 => Some(IpAddr::V4([
            octet_at(octets, 0),
            octet_at(octets, 1),
            octet_at(octets, 2),
            octet_at(octets, 3),
        ])),
        2 if octets.len() <= 16 => {
            let mut all = [0; 16];
            for at in 0..16 {
                all[at] = octet_at(octets, at);
            }
            Some(parts::long_address(&all))
        }
        _ => None,
    }
}

/// The network that a question is asked for: its address, and the bits of it that count there and here.
fn write_subnet<W: fmt::Write>(value: &[u8], f: &mut fmt::Formatter<W>) -> fmt::Result {
    if let [a, b, source, scope, octets @ ..] = value {
        if let Some(address) = network(u16::from_be_bytes([*a, *b]), octets) {
            return writeln!(f, ";; CLIENT-SUBNET: {address}/{source}/{scope}");
        }
    }
    writeln!(f, ";; CLIENT-SUBNET: {}", Hex(value))
}

/// An option: a server's name (RFC 5001), a client's network, a cookie (RFC 7873), octets that fill (RFC 7830), an
/// extended error, or one that isn't looked into.
fn write_option<W: fmt::Write>(code: u16, value: &[u8], f: &mut fmt::Formatter<W>) -> fmt::Result {
    match code {
        3 => writeln!(f, ";; NSID: {} {}", Hex(value), CharacterString(value)),
        8 => write_subnet(value, f),
        10 => writeln!(f, ";; COOKIE: {}", Hex(value)),
        12 => writeln!(f, ";; PADDING: {} B", value.len()),
        15 => write_error(value, f),
        _ => writeln!(f, ";; Option ({code}): {}", Hex(value)),
    }
}

/// An OPT record: its version, its flag, the datagrams that its sender takes, and its options. The record's TTL has the
/// high bits of the response code, the version and the flags (RFC 6891 6.1.3).
#[derive(Clone, Copy)]
pub(crate) struct Extension<'s, 'a> {
    pub(crate) record: &'s Record<'a>,
    pub(crate) rcode: u8,
}

impl Extension<'_, '_> {
    /// The response code that the high bits extend; none of them extends nothing.
    fn whole_rcode(&self, high: u16) -> OptRcode {
        if high == 0 {
            return OptRcode(0);
        }
        OptRcode(high.wrapping_mul(16) | u16::from(self.rcode % 16))
    }

    fn write_fields<W: fmt::Write>(&self, f: &mut fmt::Formatter<W>) -> fmt::Result {
        let ttl = self.record.ttl().0;
        let version = ttl / 0x1_0000 % 0x100;
        let flag = if ttl & 0x8000 != 0 { "do" } else { "" };
        let size = self.record.class().0;
        let rcode = self.whole_rcode((ttl / 0x100_0000) as u16);
        writeln!(f, ";; EDNS PSEUDOSECTION:")?;
        write!(f, ";; Version: {version}; flags: {flag}; ")?;
        writeln!(f, "UDP size: {size} B; ext-rcode: {rcode}")
    }
}

impl Display for Extension<'_, '_> {
    fn fmt<W: fmt::Write>(&self, f: &mut fmt::Formatter<W>) -> fmt::Result {
        self.write_fields(f)?;
        let mut rest = self.record.raw_data();
        while let Some((code, value, behind)) = parts::option_front(rest) {
            write_option(code, value, f)?;
            rest = behind;
        }
        Ok(())
    }
}
