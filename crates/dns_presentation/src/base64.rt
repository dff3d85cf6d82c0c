//! Octets in base 64 (RFC 4648 4), and in base 32 with extended hexadecimal digits (RFC 4648 7).

ghost use Rattle.std.specs.Prelude.{◌≡◌, ◌<◌, ◌≤◌, [], ◌∷◌, length, take, drop, Some};
ghost use Rattle.std.specs.Fmt.{WritesOnOk};
ghost use Rattle.dns_presentation.specs.Base64.{base64_digit, base64_text};

use std::fmt::{self, Display};

/// The digit of a number below 64.
fn base64_digit(number: u8) -> u8
    requires { number < 64 }
    ensures value { result ≡ base64_digit number }
    ensures ascii { result < 128 }
{
    if number < 26 {
        b'A' + number
    } else if number < 52 {
        b'a' + (number - 26)
    } else if number < 62 {
        b'0' + (number - 52)
    } else if number == 62 {
        b'+'
    } else {
        b'/'
    }
}

/// Two digits, the first for six bits and the second for two and four more.
fn write_pair<W: fmt::Write>(first: u8, second: u8, f: &mut fmt::Formatter<W>) -> fmt::Result
    requires first { first < 64 }
    requires second { second < 64 }
    ensures { WritesOnOk W.Write.write_str_gives f.old result (base64_digit first ∷ base64_digit second ∷ []) f.new }
{
    let first = char::from(base64_digit(first));
    let second = char::from(base64_digit(second));
    write!(f, "{first}{second}")
}

/// The digits of three octets.
fn write_quantum<W: fmt::Write>(a: u8, b: u8, c: u8, f: &mut fmt::Formatter<W>) -> fmt::Result
    ensures { WritesOnOk W.Write.write_str_gives f.old result (base64_text (a ∷ b ∷ c ∷ [])) f.new }
{
    write_pair(a / 4, a % 4 * 16 + b / 16, f)?;
    write_pair(b % 16 * 4 + c / 64, c % 64, f)
}

/// The digits of the first three octets.
fn write_three<W: fmt::Write>(octets: &[u8], f: &mut fmt::Formatter<W>) -> fmt::Result
    requires { 3 ≤ length octets.now }
    ensures { WritesOnOk W.Write.write_str_gives f.old result (base64_text (take 3 octets.now)) f.new }
{
    match octets {
        [a, b, c, ..] => write_quantum(*a, *b, *c, f),
        _ => Ok(()),
    }
}

/// The octets behind the first three.
fn behind_three(octets: &[u8]) -> &[u8]
    requires { 3 ≤ length octets.now }
    ensures { result.now ≡ drop 3 octets.now }
{
    octets.split_at(3).1
}

/// The digits of one or two octets at the end, which `=` fills, and none where there is none.
fn write_end<W: fmt::Write>(octets: &[u8], f: &mut fmt::Formatter<W>) -> fmt::Result
    requires { length octets.now < 3 }
    ensures { WritesOnOk W.Write.write_str_gives f.old result (base64_text octets.now) f.new }
{
    match octets {
        [a, b] => {
            write_pair(*a / 4, *a % 4 * 16 + *b / 16, f)?;
            let third = char::from(base64_digit(*b % 16 * 4));
            write!(f, "{third}=")
        }
        [a] => {
            write_pair(*a / 4, *a % 4 * 16, f)?;
            write!(f, "==")
        }
        _ => Ok(()),
    }
}

/// Octets in base 64, with `=` at the end where it isn't whole.
#[derive(Clone, Copy)]
pub(crate) struct Base64<'a>(pub(crate) &'a [u8]);

impl Display for Base64<'_> {
    ghost output = { λ b. Some (base64_text b.0.now) };

    fn fmt<W: fmt::Write>(&self, f: &mut fmt::Formatter<W>) -> fmt::Result {
        let mut rest = self.0;
        while rest.len() >= 3 {
            write_three(rest, f)?;
            rest = behind_three(rest);
        }
        write_end(rest, f)
    }
}

/// The digit of a number below 32.
fn digit_32(number: u64) -> char {
    let number = (number % 32) as u8;
    char::from(if number < 10 {
        b'0' + number
    } else {
        b'a' + (number - 10)
    })
}

/// The octet at a place, or 0 behind the last.
fn octet_at(octets: &[u8], at: usize) -> u64 {
    match octets.get(at) {
        Some(octet) => u64::from(*octet),
        None => 0,
    }
}

/// The digits of up to five octets, and none for the octets that lack.
fn write_five<W: fmt::Write>(octets: &[u8], f: &mut fmt::Formatter<W>) -> fmt::Result {
    let mut word: u64 = 0;
    for at in 0..5 {
        word = (word << 8) | octet_at(octets, at);
    }
    for at in 0..8 {
        if 5 * at < 8 * octets.len().min(5) {
            write!(f, "{}", digit_32(word >> (35 - 5 * at)))?;
        }
    }
    Ok(())
}

/// Octets in base 32, with lower-case letters and nothing to fill the end, as NSEC3 has them (RFC 5155 3.3).
#[derive(Clone, Copy)]
pub(crate) struct Base32<'a>(pub(crate) &'a [u8]);

impl Display for Base32<'_> {
    fn fmt<W: fmt::Write>(&self, f: &mut fmt::Formatter<W>) -> fmt::Result {
        for chunk in self.0.chunks(5) {
            write_five(chunk, f)?;
        }
        Ok(())
    }
}
