//! The parts of a word.

ghost use Rattle.std.specs.Prelude.{◌≡◌, ◌==◌, ◌<◌, codes, nat_lt, option_copied};
ghost use Rattle.std.specs.List.{before_first, list_any};
ghost use Rattle.dns_values.specs.NumberNames.{begins_with};
ghost use Rattle.dns_lookup_words.specs.Words.{bare, behind, behind_first, is_localhost, lack_of, within};

use crate::lacking::Lack;

/// The text behind a sign of ASCII that stands first.
#[tactic(auto, using(std::proofs::lemmas::Str::Pattern::strip_prefix_char))]
pub(crate) fn behind(sign: char, word: &str) -> Option<&str>
    requires { sign < 128 }
    ensures { option_copied result ≡ behind sign word.now }
{
    word.strip_prefix(sign)
}

/// The text behind the `#` of a server.
#[tactic(auto, unfolding(crate::specs::Words::behind_first))]
pub(crate) fn port_text(text: &str) -> Option<&str>
    ensures { option_copied result ≡ behind_first 35 text.now }
{
    match text.split_once('#') {
        Some((_, port)) => Some(port),
        _ => None,
    }
}

/// The text before the `#` of a server.
fn before_port(text: &str) -> &str
    ensures { result.now ≡ before_first (λ c. c == 35) text.now }
{
    match text.split_once('#') {
        Some((address, _)) => address,
        None => text,
    }
}

/// The text within a closing bracket that stands last.
#[tactic(auto, unfolding(crate::specs::Words::within))]
fn within(text: &str) -> Option<&str>
    ensures { option_copied result ≡ within text.now }
{
    match text.split_once(']') {
        Some((inner, "")) => Some(inner),
        _ => None,
    }
}

/// An address without the brackets that stand around it.
fn bare(text: &str) -> &str
    ensures { result.now ≡ bare text.now }
{
    match behind('[', text) {
        Some(inner) => match within(inner) {
            Some(address) => address,
            None => text,
        },
        None => text,
    }
}

/// The address of a server.
pub(crate) fn address_text(text: &str) -> &str
    ensures { result.now ≡ bare (before_first (λ c. c == 35) text.now) }
{
    bare(before_port(text))
}

/// The name of an option, before an equals sign.
pub(crate) fn name_text(text: &str) -> &str
    ensures { result.now ≡ before_first (λ c. c == 61) text.now }
{
    match text.split_once('=') {
        Some((name, _)) => name,
        None => text,
    }
}

/// The value of an option, behind an equals sign.
#[tactic(auto, unfolding(crate::specs::Words::behind_first))]
pub(crate) fn value_text(text: &str) -> Option<&str>
    ensures { option_copied result ≡ behind_first 61 text.now }
{
    match text.split_once('=') {
        Some((_, value)) => Some(value),
        _ => None,
    }
}

/// Whether a text has a percent sign.
pub(crate) fn has_percent(text: &[u8]) -> bool
    ensures { result ≡ list_any (λ c. c == 37) text.now }
{
    text.iter().any(|c| *c == b'%')
}

/// Whether a text has octets past ASCII.
pub(crate) fn is_past_ascii(text: &[u8]) -> bool
    ensures { result ≡ list_any (λ c. nat_lt 127 c) text.now }
{
    text.iter().any(|c| *c > 127)
}

/// Whether a text names this host, in any case (RFC 6761 6.3).
pub(crate) fn is_localhost(text: &str) -> bool
    ensures { result ≡ is_localhost text.now }
{
    text.eq_ignore_ascii_case("localhost")
}

/// Whether a word asks for the changes of a zone since a serial.
pub(crate) fn is_transfer(text: &[u8]) -> bool
    ensures { result ≡ begins_with (codes "ixfr=") text.now }
{
    text.len() >= 5 && text[..5].eq_ignore_ascii_case(b"ixfr=")
}

/// What a letter asks for that is an option of dig and not to be had.
pub(crate) fn lack_of(text: &[u8]) -> Option<Lack>
    ensures { result ≡ lack_of text.now }
{
    match text {
        [b'b', ..] => Some(Lack::Source),
        [b'k' | b'y', ..] => Some(Lack::Signature),
        [b'f' | b'i' | b'm' | b'r' | b'u', ..] => Some(Lack::Program),
        _ => None,
    }
}
