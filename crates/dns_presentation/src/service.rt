//! The data of SVCB and HTTPS: how a service is reached (RFC 9460).

ghost use Rattle.std.specs.Prelude.{◌<◌, length, Some};
ghost use Rattle.std.specs.List.{flat_map};
ghost use Rattle.dns_presentation.specs.Strings.{item_octet};

use crate::base64::Base64;
use crate::names::Absolute;
use crate::octets::Numbered;
use crate::parts;
use crate::strings::CharacterString;
use dns_base::{IpAddr, ParsedName};
use std::fmt::{self, Display};

/// An octet of an item of a list: a comma and a backslash stand behind a backslash, which does itself (RFC 9460 A.1).
#[derive(Clone, Copy)]
struct ItemOctet(u8);

impl Display for ItemOctet {
    ghost output = { λ o. Some (item_octet o.0) };

    fn fmt<W: fmt::Write>(&self, f: &mut fmt::Formatter<W>) -> fmt::Result {
        let c = char::from(self.0);
        match self.0 {
            b',' => write!(f, "\\\\,"),
            b'\\' => write!(f, "\\\\\\\\"),
            b'"' | b';' | b'(' | b')' => write!(f, "\\{c}"),
            b'!'..=b'~' => write!(f, "{c}"),
            _ => f.write(Numbered(self.0)),
        }
    }
}

#[derive(Clone, Copy)]
struct Item<'a>(&'a [u8]);

impl Display for Item<'_> {
    ghost output = { λ i. Some (flat_map item_octet i.0.now) };

    fn fmt<W: fmt::Write>(&self, f: &mut fmt::Formatter<W>) -> fmt::Result {
        for octet in self.0 {
            f.write(ItemOctet(*octet))?;
        }
        Ok(())
    }
}

/// The name of a parameter (RFC 9460 14.3.2, RFC 9461 5).
#[derive(Clone, Copy)]
struct Key(u16);

impl Display for Key {
    fn fmt<W: fmt::Write>(&self, f: &mut fmt::Formatter<W>) -> fmt::Result {
        let key = self.0;
        match key {
            0 => write!(f, "mandatory"),
            1 => write!(f, "alpn"),
            2 => write!(f, "no-default-alpn"),
            3 => write!(f, "port"),
            4 => write!(f, "ipv4hint"),
            5 => write!(f, "ech"),
            6 => write!(f, "ipv6hint"),
            _ => write!(f, "key{key}"),
        }
    }
}

/// Whether octets are counted strings, none of them empty.
fn are_items(octets: &[u8]) -> bool {
    let mut rest = octets;
    'items: loop {
        match rest {
            [] => return true,
            [0, ..] => return false,
            _ => {}
        }
        let Some((_, behind)) = parts::string_front(rest) else {
            return false;
        };
        rest = behind;
    }
}

/// Whether a value is one of its key (RFC 9460 7 and 8).
fn is_value(key: u16, value: &[u8]) -> bool {
    let count = value.len();
    match key {
        0 => count > 0 && count % 2 == 0,
        1 => count > 0 && are_items(value),
        2 => count == 0,
        3 => count == 2,
        4 => count > 0 && count % 4 == 0,
        6 => count > 0 && count % 16 == 0,
        _ => true,
    }
}

/// Keys with commas between.
fn write_keys<W: fmt::Write>(value: &[u8], f: &mut fmt::Formatter<W>) -> fmt::Result {
    let mut separator = '=';
    for key in value.chunks(2) {
        if let [high, low] = key {
            let key = Key(u16::from_be_bytes([*high, *low]));
            write!(f, "{separator}{key}")?;
        }
        separator = ',';
    }
    Ok(())
}

/// Strings between quotes, with commas between.
fn write_items<W: fmt::Write>(value: &[u8], f: &mut fmt::Formatter<W>) -> fmt::Result {
    let mut before = "=\"";
    let mut rest = value;
    while let Some((string, behind)) = parts::string_front(rest) {
        let item = Item(string);
        write!(f, "{before}{item}")?;
        before = ",";
        rest = behind;
    }
    write!(f, "\"")
}

/// IPv4 addresses with commas between.
fn write_addresses<W: fmt::Write>(value: &[u8], f: &mut fmt::Formatter<W>) -> fmt::Result {
    let mut separator = '=';
    for octets in value.chunks(4) {
        if let [a, b, c, d] = octets {
            let address = IpAddr::V4([*a, *b, *c, *d]);
            write!(f, "{separator}{address}")?;
        }
        separator = ',';
    }
    Ok(())
}

/// IPv6 addresses with commas between.
fn write_long_addresses<W: fmt::Write>(value: &[u8], f: &mut fmt::Formatter<W>) -> fmt::Result {
    let mut separator = '=';
    for octets in value.chunks(16) {
        let address = parts::long_address(octets);
        write!(f, "{separator}{address}")?;
        separator = ',';
    }
    Ok(())
}

/// A value, behind `=` where there is one.
fn write_value<W: fmt::Write>(key: u16, value: &[u8], f: &mut fmt::Formatter<W>) -> fmt::Result {
    match key {
        0 => write_keys(value, f),
        1 => write_items(value, f),
        3 => match parts::u16_front(value) {
            Some((port, _)) => write!(f, "={port}"),
            None => Ok(()),
        },
        4 => write_addresses(value, f),
        5 => write!(f, "={}", Base64(value)),
        6 => write_long_addresses(value, f),
        _ if value.is_empty() => Ok(()),
        _ => write!(f, "={}", CharacterString(value)),
    }
}

/// Whether data is parameters, each with a value of its key, in rising order of keys (RFC 9460 2.2).
fn are_parameters(data: &[u8]) -> bool {
    let mut rest = data;
    let mut least: u32 = 0;
    'parameters: loop {
        if rest.is_empty() {
            return true;
        }
        let Some((key, value, behind)) = parts::option_front(rest) else {
            return false;
        };
        if u32::from(key) < least || !is_value(key, value) {
            return false;
        }
        least = u32::from(key) + 1;
        rest = behind;
    }
}

/// A priority, a name and parameters (RFC 9460 2.2).
#[derive(Drop)]
pub(crate) struct Service<'a> {
    priority: u16,
    target: ParsedName<'a>,
    parameters: &'a [u8],
}

impl<'a> Service<'a> {
    pub(crate) fn read(data: &'a [u8]) -> Option<Service<'a>> {
        let (priority, rest) = parts::u16_front(data)?;
        let (target, parameters) = parts::name_front(rest)?;
        if !are_parameters(parameters) {
            return None;
        }
        Some(Service {
            priority,
            target,
            parameters,
        })
    }
}

/// Parameters, each behind a blank.
fn write_parameters<W: fmt::Write>(parameters: &[u8], f: &mut fmt::Formatter<W>) -> fmt::Result {
    let mut rest = parameters;
    while let Some((key, value, behind)) = parts::option_front(rest) {
        write!(f, " {}", Key(key))?;
        write_value(key, value, f)?;
        rest = behind;
    }
    Ok(())
}

impl Display for Service<'_> {
    fn fmt<W: fmt::Write>(&self, f: &mut fmt::Formatter<W>) -> fmt::Result {
        let priority = self.priority;
        let target = Absolute(&self.target);
        write!(f, "{priority} {target}")?;
        write_parameters(self.parameters, f)
    }
}
