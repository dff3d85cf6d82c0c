//! Addresses of sockets, named numbers, lengths of time, and octets.

use crate::answer::line_of;
use crate::hex::{self, Hex};
use dns_base::{Class, Duration, IpAddr, Octets, Opcode, OptRcode, Rcode, Rtype, SocketAddr};
use std::alloc::Global;
use std::fmt::Display;

/// What is printed of a value.
pub fn text_of(alloc: Global, word: &str, rest: &str) -> Option<String> {
    match word {
        "socket" => socket(alloc, rest),
        "duration" => duration(alloc, rest),
        "shorter" => shorter(alloc, rest),
        "octets" => octets(alloc, rest),
        _ => number(alloc, word, rest),
    }
}

/// The address of a socket, by `ADDRESS PORT`.
fn socket(alloc: Global, rest: &str) -> Option<String> {
    let (ip, port) = rest.split_once(' ')?;
    let ip = IpAddr::from_text(ip).ok()?;
    let port = port.parse::<u16>().ok()?;
    line_of(alloc, &SocketAddr { ip, port })
}

/// A value as it is printed, and its number.
fn numbered<T: Display>(alloc: Global, value: &T, number: u16) -> Option<String> {
    format!(in alloc; "{value} {number}\n").ok()
}

/// A named number as it is printed, and as a number.
fn number(alloc: Global, word: &str, text: &str) -> Option<String> {
    match word {
        "type" => match Rtype::from_text(text) {
            Ok(rtype) => numbered(alloc, &rtype, rtype.0),
            Err(_) => line_of(alloc, &"parse"),
        },
        "class" => match Class::from_text(text) {
            Ok(class) => numbered(alloc, &class, class.0),
            Err(_) => line_of(alloc, &"parse"),
        },
        _ => code(alloc, word, text),
    }
}

/// The same of a code.
fn code(alloc: Global, word: &str, text: &str) -> Option<String> {
    match word {
        "opcode" => match Opcode::from_text(text) {
            Ok(opcode) => numbered(alloc, &opcode, opcode.0.into()),
            Err(_) => line_of(alloc, &"parse"),
        },
        "rcode" => match Rcode::from_text(text) {
            Ok(rcode) => numbered(alloc, &rcode, rcode.0.into()),
            Err(_) => line_of(alloc, &"parse"),
        },
        "opt-rcode" => match OptRcode::from_text(text) {
            Ok(rcode) => numbered(alloc, &rcode, rcode.0),
            Err(_) => line_of(alloc, &"parse"),
        },
        _ => None,
    }
}

/// The whole seconds and the microseconds of a length of time, by `zero` or `UNIT COUNT`.
fn duration(alloc: Global, rest: &str) -> Option<String> {
    let duration = match rest.split_once(' ') {
        None if rest == "zero" => Duration::ZERO,
        Some(("seconds", count)) => Duration::from_secs(count.parse::<u64>().ok()?),
        Some(("milliseconds", count)) => Duration::from_millis(count.parse::<u64>().ok()?),
        Some(("microseconds", count)) => Duration::from_micros(count.parse::<u64>().ok()?),
        _ => return None,
    };
    let seconds = duration.as_secs();
    let micros = duration.as_micros();
    format!(in alloc; "{seconds} {micros}\n").ok()
}

/// Whether so many milliseconds are less than so many seconds.
fn shorter(alloc: Global, rest: &str) -> Option<String> {
    let (millis, seconds) = rest.split_once(' ')?;
    let millis = Duration::from_millis(millis.parse::<u64>().ok()?);
    let seconds = Duration::from_secs(seconds.parse::<u64>().ok()?);
    line_of(alloc, &(millis < seconds))
}

/// A copy of octets, their first two, and those behind these.
fn octets(alloc: Global, digits: &str) -> Option<String> {
    let whole = Octets::from_vec(hex::octets(alloc, digits)?).ok()?;
    if whole.as_slice().len() < 2 {
        return None;
    }
    let copy = whole.try_clone().ok()?;
    let front = whole.truncated(2).ok()?;
    let back = whole.skipping(2).ok()?;
    let (copy, front, back) = (
        Hex(copy.as_slice()),
        Hex(front.as_slice()),
        Hex(back.as_slice()),
    );
    format!(in alloc; "{copy} {front} {back}\n").ok()
}
