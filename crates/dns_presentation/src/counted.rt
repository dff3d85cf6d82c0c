//! Data that is parts, one behind the other, each of which says how far it goes.

ghost use Rattle.std.specs.Prelude.{◌≡◌, ◌<◌, ◌≤◌, ◌&&◌, nat_le, length, option_map, is_some, MatchOption, IfSome, IsTrue, None, Some};
ghost use Rattle.std.specs.Fmt.{WritesOnOk};
ghost use Rattle.dns_presentation.specs.Counted.{cut, parts_of, part_size, part_text, part_limit, lead, led_text, led_parts, spaced_parts, strings_text};
ghost use Rattle.dns_presentation.specs.Generic.{or_generic};
ghost use Rattle.dns_presentation.specs.Strings.{counted_size, counted_text};

use crate::generic::Generic;
use crate::prefixes::{prefix_size, write_prefix};
use crate::strings::CharacterString;
use crate::types::{window_size, write_window};
use std::fmt::{self, Display};

/// What the parts are.
#[derive(Clone, Copy)]
pub(crate) enum PartKind {
    /// A string behind an octet that counts it (RFC 1035 3.3).
    Text,
    /// A window of types (RFC 4034 4.1.2).
    Window,
    /// An item of a list of prefixes (RFC 3123 4).
    Prefix,
}

/// How many octets the string at the front has, with the one that counts the others.
fn counted_size(whole: &[u8]) -> Option<usize>
    ensures value { result ≡ counted_size whole.now }
    ensures limit { IfSome result (λ n. n ≤ 256) }
{
    match whole {
        [count, ..] => Some(1 + *count as usize),
        [] => None,
    }
}

/// How many octets the part at the front says that it has, if one of the kind stands there.
fn part_size(kind: PartKind, whole: &[u8]) -> Option<usize>
    ensures value { result ≡ part_size kind whole.now }
    ensures limit { IfSome result (λ n. n ≤ part_limit kind) }
{
    match kind {
        PartKind::Text => counted_size(whole),
        PartKind::Window => window_size(whole),
        PartKind::Prefix => prefix_size(whole),
    }
}

/// The part at the front, and what is behind it.
fn part_front(kind: PartKind, whole: &[u8]) -> Option<(&[u8], &[u8])>
    ensures value { MatchOption result (cut (part_size kind) whole.now ≡ None) (λ r. cut (part_size kind) whole.now ≡ Some (r.0.now, r.1.now)) }
    ensures shorter { IfSome result (λ r. length r.1.now < length whole.now) }
    ensures limit { IfSome result (λ r. length r.0.now ≤ part_limit kind) }
{
    let count = part_size(kind, whole)?;
    if count == 0 || count > whole.len() {
        return None;
    }
    Some(whole.split_at(count))
}

/// How many parts fill the octets, if they do.
fn count_parts(kind: PartKind, whole: &[u8]) -> Option<usize>
    ensures { result ≡ option_map length (parts_of (part_size kind) whole.now) }
{
    let mut rest = whole;
    let mut count = 0;
    while let Some((_, behind)) = part_front(kind, rest) {
        rest = behind;
        count += 1;
    }
    if rest.is_empty() { Some(count) } else { None }
}

/// A string behind its count.
fn write_counted<W: fmt::Write>(part: &[u8], f: &mut fmt::Formatter<W>) -> fmt::Result
    ensures { WritesOnOk W.Write.write_str_gives f.old result (counted_text part.now) f.new }
{
    match part {
        [_, octets @ ..] => f.write(CharacterString(octets)),
        [] => Ok(()),
    }
}

/// A part's own text.
fn write_part<W: fmt::Write>(kind: PartKind, part: &[u8], f: &mut fmt::Formatter<W>) -> fmt::Result
    requires { length part.now ≤ part_limit kind }
    ensures { WritesOnOk W.Write.write_str_gives f.old result (part_text kind part.now) f.new }
{
    match kind {
        PartKind::Text => write_counted(part, f),
        PartKind::Window => write_window(part, f),
        PartKind::Prefix => write_prefix(part, f),
    }
}

/// What stands before a part: a blank, but for a window, each type of which has its own.
fn lead(kind: PartKind) -> &'static str
    ensures { result.now ≡ lead kind }
{
    match kind {
        PartKind::Window => "",
        _ => " ",
    }
}

/// A part behind others.
fn write_led<W: fmt::Write>(kind: PartKind, part: &[u8], f: &mut fmt::Formatter<W>) -> fmt::Result
    requires { length part.now ≤ part_limit kind }
    ensures { WritesOnOk W.Write.write_str_gives f.old result (led_text kind part.now) f.new }
{
    f.write_str(lead(kind))?;
    write_part(kind, part, f)
}

/// Parts behind others, each of which prints with a blank before it.
#[derive(Clone, Copy)]
pub(crate) struct Parts<'a> {
    pub(crate) kind: PartKind,
    pub(crate) octets: &'a [u8],
}

impl Parts<'_> {
    /// Whether parts of the kind fill the octets.
    pub(crate) fn are_whole(&self) -> bool
        ensures { result ≡ is_some (led_parts self.now.kind self.now.octets.now) }
    {
        count_parts(self.kind, self.octets).is_some()
    }

    /// The parts that fill octets, if they do.
    pub(crate) fn read(kind: PartKind, octets: &[u8]) -> Option<Parts<'_>> {
        let parts = Parts { kind, octets };
        if parts.are_whole() { Some(parts) } else { None }
    }
}

impl Display for Parts<'_> {
    ghost output = { λ p. led_parts p.kind p.octets.now };

    fn fmt<W: fmt::Write>(&self, f: &mut fmt::Formatter<W>) -> fmt::Result {
        let mut rest = self.octets;
        while let Some((part, behind)) = part_front(self.kind, rest) {
            write_led(self.kind, part, f)?;
            rest = behind;
        }
        Ok(())
    }
}

/// Parts with a blank between.
#[derive(Clone, Copy)]
pub(crate) struct Spaced<'a>(pub(crate) Parts<'a>);

impl Display for Spaced<'_> {
    ghost output = { λ s. spaced_parts s.0.kind s.0.octets.now };

    fn fmt<W: fmt::Write>(&self, f: &mut fmt::Formatter<W>) -> fmt::Result {
        let kind = self.0.kind;
        match part_front(kind, self.0.octets) {
            Some((first, octets)) => {
                write_part(kind, first, f)?;
                f.write(Parts { kind, octets })
            }
            None => Ok(()),
        }
    }
}

/// Whether a count is at least one and at most another.
fn is_between(count: usize, least: usize, most: usize) -> bool
    ensures { result ≡ (nat_le least count && nat_le count most) }
{
    least <= count && count <= most
}

/// Whether strings fill the octets, so many of them at least and at most.
fn are_strings(octets: &[u8], least: usize, most: usize) -> bool
    ensures { result ≡ is_some (strings_text least most octets.now) }
{
    match count_parts(PartKind::Text, octets) {
        Some(count) => is_between(count, least, most),
        None => false,
    }
}

/// Strings that fill octets, so many of them at least and at most, with a blank between, or else the whole data as generic.
pub(crate) fn write_strings<W: fmt::Write>(
    octets: &[u8],
    whole: &[u8],
    least: usize,
    most: usize,
    f: &mut fmt::Formatter<W>,
) -> fmt::Result
    ensures { WritesOnOk W.Write.write_str_gives f.old result (or_generic (strings_text least most octets.now) whole.now) f.new }
{
    if are_strings(octets, least, most) {
        let kind = PartKind::Text;
        f.write(Spaced(Parts { kind, octets }))
    } else {
        f.write(Generic(whole))
    }
}

/// Prefixes with a blank between (RFC 3123 5).
pub(crate) fn write_prefixes<W: fmt::Write>(octets: &[u8], f: &mut fmt::Formatter<W>) -> fmt::Result
    ensures { WritesOnOk W.Write.write_str_gives f.old result (or_generic (spaced_parts PartKind.Prefix octets.now) octets.now) f.new }
{
    let kind = PartKind::Prefix;
    let prefixes = Parts { kind, octets };
    if prefixes.are_whole() {
        f.write(Spaced(prefixes))
    } else {
        f.write(Generic(octets))
    }
}
