//! Numbers that have names: what they print, and what is read as one.

ghost use Rattle.std.specs.Prelude.{◌≡◌, ◌≤◌, length, IfSome, IsTrue, option_copied};
ghost use Rattle.std.specs.Fmt.{WritesOnOk};
ghost use Rattle.std.specs.Str.{str_eq_ignore_ascii_case};
ghost use Rattle.dns_values.specs.NumberNames.{are_within, name_of, number_of, begins_with, number_of_text, text_of_number};
ghost use Rattle.dns_values.specs.NameTable.{told};

use crate::decimal::decimal_number;
use std::fmt;

/// A number and its name.
pub(crate) type Named = (u16, &'static str);

/// The name of a number, if it has one.
fn name_of(names: &[Named], number: u16) -> Option<&'static str>
    ensures { option_copied result ≡ name_of (told names.now) number }
{
    for entry in names {
        if entry.0 == number {
            return Some(entry.1);
        }
    }
    None
}

/// Whether two texts are the same, but for case.
fn is_same_text(left: &str, right: &str) -> bool
    ensures { result ≡ str_eq_ignore_ascii_case left.now right.now }
{
    left.eq_ignore_ascii_case(right)
}

/// The number of a name, in any case.
fn number_of(names: &[Named], text: &str) -> Option<u16>
    ensures { result ≡ number_of (told names.now) text.now }
{
    for entry in names {
        if is_same_text(entry.1, text) {
            return Some(entry.0);
        }
    }
    None
}

/// Whether a text begins with a word, in any case.
fn begins_with(word: &str, text: &[u8]) -> bool
    ensures value { result ≡ begins_with word.now text.now }
    ensures within { IsTrue result → length word.now ≤ length text.now }
{
    text.len() >= word.len() && text[..word.len()].eq_ignore_ascii_case(word.as_bytes())
}

/// The number that a text stands for: that of a name, or the one behind a word.
#[tactic(auto, unfolding(crate::specs::NumberNames::number_of_text))]
pub(crate) fn number_of_text(names: &[Named], word: &str, greatest: u16, text: &str) -> Option<u16>
    ensures value { result ≡ number_of_text (told names.now) word.now greatest text.now }
    ensures within { IsTrue (are_within greatest (told names.now)) → IfSome result (λ n. n ≤ greatest) }
{
    let octets = text.as_bytes();
    if begins_with(word, octets) {
        let number = decimal_number(u64::from(greatest), &octets[word.len()..])?;
        Some(number as u16)
    } else {
        number_of(names, text)
    }
}

/// Writes the name of a number, or a word and the number where it has none.
#[tactic(auto, unfolding(crate::specs::NumberNames::text_of_number))]
pub(crate) fn write_number<W: fmt::Write>(
    names: &[Named],
    word: &str,
    number: u16,
    f: &mut fmt::Formatter<W>,
) -> fmt::Result
    ensures { WritesOnOk W.Write.write_str_gives f.old result (text_of_number (told names.now) word.now number) f.new }
{
    match name_of(names, number) {
        Some(name) => f.write_str(name),
        None => write!(f, "{word}{number}"),
    }
}
