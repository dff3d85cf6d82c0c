//! Texts of several lines on one line.

use crate::hex;
use std::alloc::Global;
use std::str;

/// What stands before an octet of an escaped text.
#[derive(Clone, Copy)]
enum Place {
    /// No escape.
    Plain,
    /// A backslash.
    Escape,
    /// A backslash and `x`.
    High,
    /// These and the first digit of an octet.
    Low(u8),
}

/// What an octet of an escaped text stands for, if it ends what it belongs to, and where the next one stands. None where it
/// can't stand there.
fn step(place: Place, octet: u8) -> Option<(Place, Option<u8>)> {
    match (place, octet) {
        (Place::Plain, b'\\') => Some((Place::Escape, None)),
        (Place::Plain, octet) => Some((Place::Plain, Some(octet))),
        (Place::Escape, b'n') => Some((Place::Plain, Some(b'\n'))),
        (Place::Escape, b'r') => Some((Place::Plain, Some(b'\r'))),
        (Place::Escape, b'\\') => Some((Place::Plain, Some(b'\\'))),
        (Place::Escape, b'x') => Some((Place::High, None)),
        (Place::Escape, _) => None,
        (Place::High, digit) => Some((Place::Low(digit), None)),
        (Place::Low(high), low) => Some((Place::Plain, Some(hex::octet(high, low)?))),
    }
}

/// The octets of a text in which `\n` is a line feed, `\r` a carriage return, `\\` a backslash, and `\x` with two digits any
/// octet.
pub fn octets(alloc: Global, text: &str) -> Option<Vec<u8>> {
    let mut octets = Vec::new(alloc);
    let mut place = Place::Plain;
    for octet in text.bytes() {
        let (next, stands) = step(place, octet)?;
        place = next;
        if let Some(octet) = stands {
            octets.push(octet).ok()?;
        }
    }
    match place {
        Place::Plain => Some(octets),
        _ => None,
    }
}

/// Such octets as text.
pub fn text(alloc: Global, text: &str) -> Option<String> {
    String::from_str(alloc, str::from_utf8(octets(alloc, text)?.as_slice()).ok()?).ok()
}
