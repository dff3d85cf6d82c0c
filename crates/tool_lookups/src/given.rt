//! Answers and words that a line gives.

ghost use Rattle.std.specs.Prelude.{◌<◌, IfOk};

use crate::trouble::Trouble;
use client_request::{Error, ListWords, WordList};
use dns_base::{Message, Octets};
use resolv_lookup::{Answer, ListResolver, QueryFault};
use std::alloc::Global;

/// The value of a lower-case digit.
fn digit(octet: u8) -> Result<u8, Trouble>
    ensures { IfOk result (λ d. d < 16) }
{
    match octet {
        b'0'..=b'9' => Ok(octet - b'0'),
        b'a'..=b'f' => Ok(octet - b'a' + 10),
        _ => Err(Trouble::Usage),
    }
}

/// The octet of two digits.
fn octet(high: u8, low: u8) -> Result<u8, Trouble> {
    Ok(digit(high)? * 16 + digit(low)?)
}

/// The octets of an even count of lower-case digits.
pub fn octets(alloc: Global, digits: &[u8]) -> Result<Vec<u8>, Trouble> {
    if digits.len() % 2 != 0 {
        return Err(Trouble::Usage);
    }
    let mut octets = Vec::new(alloc);
    for i in 0..digits.len() / 2 {
        octets.push(octet(digits[2 * i], digits[2 * i + 1])?)?;
    }
    Ok(octets)
}

/// What a question gets: a message of hexadecimal digits, no reply, or one that comes too late.
pub fn answer(alloc: Global, digits: &str) -> Result<Result<Answer, QueryFault>, Trouble> {
    if digits == "-" {
        return Ok(Err(QueryFault::NoReply));
    }
    if digits == "late" {
        return Ok(Err(QueryFault::Client(Error::TimedOut)));
    }
    let octets = Octets::from_vec(octets(alloc, digits.as_bytes())?)?;
    Ok(Ok(Answer::from(Message::from_octets(octets)?)))
}

/// Words between commas.
pub fn words(alloc: Global, text: &str) -> Result<ListWords, Trouble> {
    let mut words = WordList::new(alloc);
    for word in text.split(',') {
        words.push(word.parse::<u64>().map_err(|_| Trouble::Usage)?)?;
    }
    Ok(ListWords::new(words))
}

/// What questions get, one behind the other.
pub fn results(alloc: Global, text: &str) -> Option<Vec<Result<Answer, QueryFault>>> {
    let mut results = Vec::new(alloc);
    for digits in text.split(' ') {
        results.push(answer(alloc, digits).ok()?).ok()?;
    }
    Some(results)
}

/// The lines of the questions that a resolver was asked.
pub fn asked_text(alloc: Global, resolver: &ListResolver) -> Option<String> {
    let mut text = String::new(alloc);
    for asking in resolver.asked() {
        let (name, rtype) = (&asking.name, asking.rtype.0);
        let line = format!(in alloc; "asked {name} {rtype}\n").ok()?;
        text.push_str(line.as_str()).ok()?;
    }
    Some(text)
}
