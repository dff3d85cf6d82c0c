//! Octets as hexadecimal digits.

ghost use Rattle.std.specs.Prelude.{◌<◌, IfSome};

use dns_base::{Message, Octets};
use std::alloc::Global;
use std::fmt::{self, Display};

/// The value of a lower-case digit.
fn digit(octet: u8) -> Option<u8>
    ensures { IfSome result (λ d. d < 16) }
{
    match octet {
        b'0'..=b'9' => Some(octet - b'0'),
        b'a'..=b'f' => Some(octet - b'a' + 10),
        _ => None,
    }
}

/// The octet of two digits.
pub fn octet(high: u8, low: u8) -> Option<u8> {
    Some(digit(high)? * 16 + digit(low)?)
}

/// The octets of an even count of lower-case digits, and none of `-`.
pub fn octets(alloc: Global, digits: &str) -> Option<Vec<u8>> {
    let digits = if digits == "-" { "" } else { digits }.as_bytes();
    if digits.len() % 2 != 0 {
        return None;
    }
    let mut octets = Vec::new(alloc);
    for i in 0..digits.len() / 2 {
        octets.push(octet(digits[2 * i], digits[2 * i + 1])?).ok()?;
    }
    Some(octets)
}

/// The message of hexadecimal digits.
pub fn message(alloc: Global, digits: &str) -> Option<Message> {
    let octets = Octets::from_vec(octets(alloc, digits)?).ok()?;
    Message::from_octets(octets).ok()
}

/// Octets as digits, and none as `-`.
#[derive(Clone, Copy)]
pub struct Hex<'a>(pub &'a [u8]);

impl Display for Hex<'_> {
    fn fmt<W: fmt::Write>(&self, f: &mut fmt::Formatter<W>) -> fmt::Result {
        if self.0.is_empty() {
            return write!(f, "-");
        }
        for octet in self.0 {
            write!(f, "{octet:02x}")?;
        }
        Ok(())
    }
}
