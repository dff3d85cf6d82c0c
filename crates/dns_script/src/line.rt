//! The words of a line, and what they say.

ghost use Rattle.std.specs.Prelude.{◌≡◌, ◌≢◌, ◌↔◌, IsTrue, ◌==◌, MatchResult, ◌∷◌, [], MatchOption, IfOk, IfSome, length, ◌<◌, ◌≤◌};
ghost use Rattle.std.specs.List.{position};
ghost use Rattle.std.specs.Str.Lines.{lines, strip_carriage_return};
ghost use Rattle.dns_script.specs.declared.line.LineFault.TheVariants as line;
ghost use Rattle.dns_script.specs.Grammar.{header_of, u64_at, u32_at, u16_at, octets_at, message_at, fault_at, via_at};
ghost use Rattle.dns_script.specs.Reading.{cut, parts, words_of, number_of, octets_of, digit_of, octet_of, Gives, Reads, one_word, pairs};

use crate::names::{fault_named, via_named};
use crate::scan::place_of;
use client_request::{Fault, Via};
use dns_base::{Header, Message, NoMemory, Octets};
use dns_values::decimal_number;
use std::alloc::{AllocError, AllocFailed, Global};
use std::marker::Model;

/// Why a line was not read.
#[derive(Clone, Copy, Debug, PartialEq, Eq)]
pub(crate) enum LineFault {
    /// The line is not in the grammar.
    Refused,
    /// Memory ran out.
    NoMemory,
}

impl From<NoMemory> for LineFault {
    ghost from_gives = { λ _ e. e ≡ line.NoMemory };

    fn from(_error: NoMemory) -> LineFault {
        LineFault::NoMemory
    }
}

impl From<AllocError> for LineFault {
    ghost from_gives = { λ _ e. e ≡ line.NoMemory };

    fn from(_error: AllocError) -> LineFault {
        LineFault::NoMemory
    }
}

impl<T: Drop> From<AllocFailed<T>> for LineFault {
    ghost from_gives = { λ _ e. e ≡ line.NoMemory };

    fn from(_error: AllocFailed<T>) -> LineFault {
        LineFault::NoMemory
    }
}

/// The part before the first separator, and what stands behind that separator.
#[tactic(auto, using(crate::proofs::Parts::parts_none, crate::proofs::Parts::parts_some))]
pub(crate) fn split_first(octets: &[u8], separator: u8) -> Option<(&[u8], &[u8])>
    ensures parts { MatchOption result (parts separator octets.now ≡ octets.now ∷ []) (λ found. parts separator octets.now ≡ found.0.now ∷ parts separator found.1.now) }
    ensures cut { MatchOption result (cut separator octets.now ≡ None) (λ found. cut separator octets.now ≡ Some (found.0.now, found.1.now)) }
    ensures shorter { IfSome result (λ found. length found.1.now < length octets.now) }
{
    let at = place_of(octets, separator)?;
    Some((&octets[..at], &octets[at + 1..]))
}

/// A decimal number without sign or leading zeros that is at most the greatest, as scripts and traces have their numbers. `None` for
/// any other word.
#[inline(always)]
#[tactic(auto, unfolding(crate::specs::Reading::number_of))]
pub fn number_of(greatest: u64, word: &[u8]) -> Option<u64>
    ensures value { result ≡ number_of greatest word.now }
    ensures below { IfSome result (λ n. n ≤ greatest) }
{
    if word.len() > 1 && word[0] == b'0' {
        return None;
    }
    decimal_number(greatest, word)
}

/// The number that a lower-case hexadecimal digit stands for.
fn digit_of(digit: u8) -> Option<u8>
    ensures value { result ≡ digit_of digit }
    ensures small { IfSome result (λ n. n < 16) }
{
    if digit.is_ascii_digit() {
        Some(digit - b'0')
    } else if digit >= b'a' && digit < b'g' {
        Some(digit - b'a' + 10)
    } else {
        None
    }
}

fn octet_of(high: u8, low: u8) -> Option<u8>
    ensures { result ≡ octet_of high low }
{
    let high = digit_of(high)?;
    let low = digit_of(low)?;
    Some(16 * high + low)
}

/// An octet for each two digits.
fn pairs(alloc: Global, digits: &[u8]) -> Result<Vec<u8>, LineFault>
    ensures { Reads (λ v. v.items) result (pairs digits.now) }
{
    let mut octets = Vec::with_capacity(alloc, digits.len() / 2)?;
    let mut rest = digits;
    while let [high, low, behind @ ..] = rest {
        match octet_of(*high, *low) {
            None => return Err(LineFault::Refused),
            Some(octet) => octets.push_reserved(octet),
        }
        rest = behind;
    }
    match rest {
        [] => Ok(octets),
        _ => Err(LineFault::Refused),
    }
}

/// Octets as hexadecimal digits, and a hyphen for no octet.
#[tactic(auto, unfolding(crate::specs::Reading::octets_of))]
pub(crate) fn octets_of(alloc: Global, word: &[u8]) -> Result<Octets, LineFault>
    ensures { Reads (λ o. o) result (octets_of word.now) }
{
    if word == b"-".as_slice() {
        return Ok(Octets::from_slice(alloc, b"")?);
    }
    if word.len() == 0 {
        return Err(LineFault::Refused);
    }
    let octets = pairs(alloc, word)?;
    Ok(Octets::from_vec(octets)?)
}

/// The first four octets of a header.
#[tactic(auto, using(crate::proofs::Headers::header_long, crate::proofs::Headers::header_first, crate::proofs::Headers::header_second, crate::proofs::Headers::header_third, crate::proofs::Headers::header_fourth, crate::proofs::Headers::header_read))]
fn header_of(word: &[u8]) -> Option<[u8; 4]>
    ensures { result ≡ header_of word.now }
{
    let [a, b, c, d, e, f, g, h] = word else {
        return None;
    };
    let first = octet_of(*a, *b)?;
    let second = octet_of(*c, *d)?;
    let third = octet_of(*e, *f)?;
    let fourth = octet_of(*g, *h)?;
    Some([first, second, third, fourth])
}

/// The line without a carriage return at its end.
fn without_return(line: &[u8]) -> &[u8]
    ensures { result.now ≡ strip_carriage_return line.now }
{
    match line {
        [front @ .., b'\r'] => front,
        _ => line,
    }
}

/// The lines of a text that are left: those between its line feeds, each without one carriage return
/// before its line feed.
#[derive(Drop)]
pub(crate) struct Lines<'a> {
    pub rest: &'a [u8],
}

impl<'a> Lines<'a> {
    /// Takes the next line, where there is one.
    #[tactic(auto, using(crate::proofs::Parts::lines_more))]
    pub(crate) fn take(&mut self) -> Option<&'a [u8]>
        ensures lines { MatchOption result (lines self.old.rest.now ≡ []) (λ line. lines self.old.rest.now ≡ line.now ∷ lines self.new.rest.now) }
        ensures shorter { IfSome result (λ _. length self.new.rest.now < length self.old.rest.now) }
    {
        let rest = self.rest;
        match split_first(rest, b'\n') {
            Some((line, behind)) => {
                self.rest = behind;
                Some(without_return(line))
            }
            None if rest.len() == 0 => None,
            None => {
                self.rest = &rest[rest.len()..];
                Some(rest)
            }
        }
    }
}

/// The words of a line that are left, parted by single blanks.
#[derive(Drop)]
pub(crate) struct Words<'a> {
    /// What stands behind the blank after the last word taken, or None where that word ended the line.
    rest: Option<&'a [u8]>,
}

impl<'a> Model for Words<'a> {
    ghost use Rattle.std.specs.Prelude.{List, ℕ, option_map};
    ghost use Rattle.dns_script.specs.Grammar.{header_of, u64_at, u32_at, u16_at, octets_at, message_at, fault_at, via_at};
    ghost use Rattle.dns_script.specs.Reading.{words_left};

    ghost Value = { List (List ℕ) };

    ghost view = { λ w. words_left (option_map (λ rest. rest.now) w.rest) };
}

impl<'a> Words<'a> {
    pub(crate) fn of(line: &'a [u8]) -> Words<'a>
        ensures { result ≡ words_of line.now }
    {
        Words { rest: Some(line) }
    }

    /// Takes the first word.
    pub(crate) fn word(&mut self) -> Result<&'a [u8], LineFault>
        ensures { MatchResult result (λ word. self.old ≡ word.now ∷ self.new) (λ e. (e ≡ line.Refused) × (self.old ≡ [])) }
    {
        let Some(rest) = self.rest else {
            return Err(LineFault::Refused);
        };
        match split_first(rest, b' ') {
            None => {
                self.rest = None;
                Ok(rest)
            }
            Some((word, behind)) => {
                self.rest = Some(behind);
                Ok(word)
            }
        }
    }

    #[tactic(auto, using(crate::proofs::Parts::parts_not_nil))]
    pub(crate) fn is_empty(&self) -> bool
        ensures { IsTrue result ↔ (self.now ≡ []) }
    {
        self.rest.is_none()
    }

    /// Refuses words that are left.
    #[tactic(auto, using(crate::proofs::Parts::parts_not_nil))]
    pub(crate) fn end(&self) -> Result<(), LineFault>
        ensures { MatchResult result (λ _. self.now ≡ []) (λ e. (e ≡ line.Refused) × (self.now ≢ [])) }
    {
        match self.rest {
            None => Ok(()),
            Some(_) => Err(LineFault::Refused),
        }
    }
}

impl<'a> Words<'a> {
    #[inline(always)]
    pub(crate) fn number(&mut self, greatest: u64) -> Result<u64, LineFault>
        ensures read { Gives result self.new (one_word (number_of greatest) self.old) }
        ensures below { IfOk result (λ n. n ≤ greatest) }
    {
        match number_of(greatest, self.word()?) {
            None => Err(LineFault::Refused),
            Some(number) => Ok(number),
        }
    }

    #[inline(always)]
    pub(crate) fn u64(&mut self) -> Result<u64, LineFault>
        ensures { Gives result self.new (u64_at self.old) }
    {
        self.number(u64::MAX)
    }

    pub(crate) fn u32(&mut self) -> Result<u32, LineFault>
        ensures { Gives result self.new (u32_at self.old) }
    {
        Ok(self.number(u32::MAX as u64)? as u32)
    }

    pub(crate) fn u16(&mut self) -> Result<u16, LineFault>
        ensures { Gives result self.new (u16_at self.old) }
    {
        Ok(self.number(u16::MAX as u64)? as u16)
    }

    pub(crate) fn octets(&mut self, alloc: Global) -> Result<Octets, LineFault>
        ensures { Gives result self.new (octets_at self.old) }
    {
        octets_of(alloc, self.word()?)
    }

    pub(crate) fn message(&mut self, alloc: Global) -> Result<Message, LineFault>
        ensures { Gives result self.new (message_at self.old) }
    {
        match Message::from_octets(self.octets(alloc)?) {
            Ok(message) => Ok(message),
            Err(_) => Err(LineFault::Refused),
        }
    }

    /// The first four octets of a header.
    pub(crate) fn header(&mut self) -> Result<Header, LineFault>
        ensures { Gives result self.new (one_word header_of self.old) }
    {
        match header_of(self.word()?) {
            None => Err(LineFault::Refused),
            Some(octets) => Ok(Header::from_octets(octets)),
        }
    }

    pub(crate) fn fault(&mut self) -> Result<Fault, LineFault>
        ensures { Gives result self.new (fault_at self.old) }
    {
        match fault_named(self.word()?) {
            None => Err(LineFault::Refused),
            Some(fault) => Ok(fault),
        }
    }

    pub(crate) fn via(&mut self) -> Result<Via, LineFault>
        ensures { Gives result self.new (via_at self.old) }
    {
        match via_named(self.word()?) {
            None => Err(LineFault::Refused),
            Some(via) => Ok(via),
        }
    }
}
