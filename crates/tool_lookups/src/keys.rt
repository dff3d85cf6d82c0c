//! Keys of requests, under which a cache keeps results.

use crate::given::octets;
use crate::kept::message;
use cache_rules::{AdDo, Key, is_signing};
use dns_base::Header;
use std::alloc::Global;
use std::hash::{DefaultHasher, Hash, Hasher};

/// The header of a request with these flags, in four digits.
fn header(alloc: Global, digits: &str) -> Option<Header> {
    match octets(alloc, digits.as_bytes()).ok()?.as_slice() {
        [high, low] => Some(Header::from_octets([0, 7, *high, *low])),
        _ => None,
    }
}

/// The key of a request, if it has one: its flags, whether DO is set, and its message.
fn key_of(alloc: Global, text: &str) -> Option<Option<Key>> {
    let (flags, rest) = text.split_once(' ')?;
    let (dnssec, digits) = rest.split_once(' ')?;
    let message = message(alloc, digits)?;
    Key::of(alloc, &message, header(alloc, flags)?, dnssec == "do").ok()
}

/// The same, made of the question of its message, or of none for `-`.
fn asking_of(alloc: Global, text: &str) -> Option<Option<Key>> {
    let (flags, rest) = text.split_once(' ')?;
    let (dnssec, digits) = rest.split_once(' ')?;
    let header = header(alloc, flags)?;
    if digits == "-" {
        return Key::asking(alloc, None, header, dnssec == "do").ok();
    }
    let message = message(alloc, digits)?;
    let question = message.sole_question().ok();
    Key::asking(alloc, question, header, dnssec == "do").ok()
}

fn addo_word(addo: AdDo) -> &'static str {
    match addo {
        AdDo::Do => "do",
        AdDo::Ad => "ad",
        AdDo::None => "none",
    }
}

/// The line of a key: what is asked, and with which flags.
fn line_of(alloc: Global, key: Option<Key>) -> Option<String> {
    let Some(key) = key else {
        return String::from_str(alloc, "no key\n").ok();
    };
    let (name, qtype, qclass) = (key.qname(), key.qtype(), key.qclass().0);
    let (addo, cd, rd) = (addo_word(key.addo()), key.cd(), key.rd());
    let signs = is_signing(qtype);
    let qtype = qtype.0;
    format!(in alloc; "key {name} {qtype} {qclass} {addo} {cd} {rd} {signs}\n").ok()
}

pub fn key_text(alloc: Global, rest: &str) -> Option<String> {
    line_of(alloc, key_of(alloc, rest)?)
}

pub fn asking_text(alloc: Global, rest: &str) -> Option<String> {
    line_of(alloc, asking_of(alloc, rest)?)
}

fn hash_of(key: &Key) -> u64 {
    let mut state = DefaultHasher::new();
    key.hash(&mut state);
    state.finish()
}

/// Whether two keys are the same, and whether those that are hash alike.
fn compared(alloc: Global, first: &Key, second: &Key) -> Option<String> {
    let is_same = *first == second.try_clone(alloc).ok()?;
    let are_alike = !is_same || hash_of(first) == hash_of(second);
    format!(in alloc; "same {is_same} {are_alike}\n").ok()
}

/// The same of the keys of two requests.
pub fn same_text(alloc: Global, rest: &str) -> Option<String> {
    let (first, second) = rest.split_once('/')?;
    let (first, second) = (key_of(alloc, first)??, key_of(alloc, second)??);
    compared(alloc, &first, &second)
}

/// The same, where the first is changed to ask for DNSSEC records, and with recursion.
pub fn changed_text(alloc: Global, rest: &str) -> Option<String> {
    let (first, second) = rest.split_once('/')?;
    let (mut first, second) = (key_of(alloc, first)??, key_of(alloc, second)??);
    first.set_addo(AdDo::Do);
    first.set_rd(true);
    compared(alloc, &first, &second)
}
