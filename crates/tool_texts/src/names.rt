//! Names and addresses as texts, and names in octets.

use crate::answer::line_of;
use crate::escapes;
use crate::hex::{self, Hex};
use dns_base::{IpAddr, Name, NameFault, ParsedName, RelativeName, ToName};
use std::alloc::Global;

/// What is printed of a name or an address by its text, or of a name in octets.
pub fn text_of(alloc: Global, word: &str, rest: &str) -> Option<String> {
    match word {
        "name" => name(alloc, rest),
        "escaped-name" => name(alloc, escapes::text(alloc, rest)?.as_str()),
        "relative" => relative(alloc, rest),
        "address" => address(alloc, rest),
        "name-in" => name_in(alloc, rest),
        _ => None,
    }
}

pub fn fault_word(fault: NameFault) -> &'static str {
    match fault {
        NameFault::Parse => "parse",
        NameFault::Long => "long",
        NameFault::NoMemory => "no memory",
    }
}

fn name(alloc: Global, text: &str) -> Option<String> {
    match Name::from_text(alloc, text) {
        Ok(name) => line_of(alloc, &name),
        Err(fault) => line_of(alloc, &fault_word(fault)),
    }
}

fn relative(alloc: Global, text: &str) -> Option<String> {
    match RelativeName::from_text(alloc, text) {
        Ok(name) => line_of(alloc, &name),
        Err(fault) => line_of(alloc, &fault_word(fault)),
    }
}

fn address(alloc: Global, text: &str) -> Option<String> {
    match IpAddr::from_text(text) {
        Ok(address) => line_of(alloc, &address),
        Err(_) => line_of(alloc, &"parse"),
    }
}

/// The octets of the name that stands at a place of octets, and its end, by `PLACE DIGITS`.
fn name_in(alloc: Global, rest: &str) -> Option<String> {
    let (place, digits) = rest.split_once(' ')?;
    let octets = hex::octets(alloc, digits)?;
    match ParsedName::parse(&octets, place.parse::<usize>().ok()?) {
        Some((parsed, end)) => {
            let name = parsed.to_name(alloc).ok()?;
            let digits = Hex(name.as_octets());
            format!(in alloc; "{digits} {end}\n").ok()
        }
        None => line_of(alloc, &"none"),
    }
}
