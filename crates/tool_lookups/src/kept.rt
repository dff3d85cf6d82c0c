//! Kept messages: for how long they may be kept, and as what they are given later to a request that spells EXAMPLE.com.

use crate::given::octets;
use cache_rules::{AdDo, derived_header, validity, view, view_under};
use client_request::Error;
use client_settings::cache::Config;
use dns_base::{Message, Name, Octets};
use std::alloc::Global;

/// What a request asks of DNSSEC.
fn addo(word: &str) -> Option<AdDo> {
    match word {
        "do" => Some(AdDo::Do),
        "ad" => Some(AdDo::Ad),
        "none" => Some(AdDo::None),
        _ => None,
    }
}

/// A message of hexadecimal digits.
pub fn message(alloc: Global, digits: &str) -> Option<Message> {
    let octets = octets(alloc, digits.as_bytes()).ok()?;
    Message::from_octets(Octets::from_vec(octets).ok()?).ok()
}

/// The line of octets in hexadecimal digits.
fn digits_text(alloc: Global, octets: &[u8]) -> Option<String> {
    let mut text = String::from_str(alloc, "given ").ok()?;
    for octet in octets {
        let digits = format!(in alloc; "{octet:02x}").ok()?;
        text.push_str(digits.as_str()).ok()?;
    }
    text.push_str("\n").ok()?;
    Some(text)
}

fn given_text(alloc: Global, given: Result<Message, Error>) -> Option<String> {
    match given {
        Ok(message) => digits_text(alloc, message.as_slice()),
        Err(error) => format!(in alloc; "fault {error}\n").ok(),
    }
}

/// What is given of a message, by what the first request and the second ask of DNSSEC, whether RD is cleared, and the seconds
/// that went by.
pub fn view_text(alloc: Global, rest: &str) -> Option<String> {
    let (from, rest) = rest.split_once(' ')?;
    let (to, rest) = rest.split_once(' ')?;
    let (clears, rest) = rest.split_once(' ')?;
    let (seconds, digits) = rest.split_once(' ')?;
    let (from, to, clears) = (addo(from)?, addo(to)?, clears == "clears");
    let seconds = seconds.parse::<u32>().ok()?;
    let message = message(alloc, digits)?;
    let name = Name::from_text(alloc, "EXAMPLE.com").ok()?;
    given_text(
        alloc,
        view(alloc, &message, from, to, clears, &name, seconds),
    )
}

/// What is given of a message under a header that was derived of its own: one that was asked with AD is asked without, and
/// without recursion.
pub fn under_text(alloc: Global, digits: &str) -> Option<String> {
    let message = message(alloc, digits)?;
    let name = Name::from_text(alloc, "EXAMPLE.com").ok()?;
    let header = derived_header(message.header(), AdDo::Ad, AdDo::None, true);
    let (from, to) = (AdDo::None, AdDo::None);
    given_text(
        alloc,
        view_under(alloc, header, &message, from, to, &name, 0),
    )
}

/// A result: a message, or an error of the transport.
fn outcome(alloc: Global, digits: &str) -> Option<Result<Message, Error>> {
    if digits == "error" {
        return Some(Err(Error::NoTransportAvailable));
    }
    Some(Ok(message(alloc, digits)?))
}

/// For how many seconds a result may be kept, where truncated messages are kept or not.
pub fn validity_text(alloc: Global, rest: &str) -> Option<String> {
    let (word, digits) = rest.split_once(' ')?;
    let mut config = Config::new();
    config.set_cache_truncated(word == "truncated");
    match validity(&outcome(alloc, digits)?, &config) {
        Ok(time) => format!(in alloc; "seconds {}\n", time.as_secs()).ok(),
        Err(error) => format!(in alloc; "fault {error}\n").ok(),
    }
}
