//! Data with names that may be compressed, of seven types that came after RFC 1035 (RFC 3597 4).

ghost use Rattle.std.specs.Prelude.{◌≡◌, ◌<◌, ◌≤◌, ◌∷◌, length, IsTrue};
ghost use Rattle.std.specs.Fmt.{DisplaysOnOk, WritesOnOk};
ghost use Rattle.dns_names.specs.Name.{octet_count, spelling};
ghost use Rattle.dns_base.specs.Forms.{named_size, second_size, second_spelling};
ghost use Rattle.dns_presentation.specs.Octets.{hex_text};
ghost use Rattle.dns_presentation.specs.Named.{parts_view, names_text, preferred_text, spelled_text, are_type_bits, has_named_form, named_text};

use crate::base64::Base64;
use crate::counted::{PartKind, Parts, Spaced};
use crate::names::Absolute;
use crate::octets::{Hex, HexOctet};
use crate::parts;
use crate::security::Signed;
use crate::types::write_bits;
use dns_base::{ParsedName, Rtype};
use std::fmt;

const RT: Rtype = Rtype(21);

const PX: Rtype = Rtype(26);

const NXT: Rtype = Rtype(30);

/// The parts of such data: octets, a name, a second one where the type has two, and octets behind.
#[derive(Clone, Copy)]
pub(crate) struct NamedParts<'s, 'a> {
    pub(crate) before: &'s [u8],
    pub(crate) first: &'s ParsedName<'a>,
    pub(crate) second: &'s Option<ParsedName<'a>>,
    pub(crate) behind: &'s [u8],
}

/// How many octets a name has spelled out.
pub(crate) fn name_size(name: &ParsedName<'_>) -> usize
    ensures all { result ≡ octet_count name.now }
    ensures few { result ≤ 255 }
{
    let mut count = 1;
    for label in name.labels() {
        count += 1 + label.len();
    }
    count
}

/// How many octets a second name has, if there is one.
fn second_name_size(second: &Option<ParsedName<'_>>) -> usize
    ensures all { result ≡ second_size second.now }
    ensures few { result ≤ 255 }
{
    match second {
        Some(name) => name_size(name),
        None => 0,
    }
}

/// The digits of a label, and before them those of the octet that counts it.
fn write_label<W: fmt::Write>(label: &[u8], f: &mut fmt::Formatter<W>) -> fmt::Result
    requires { length label.now < 256 }
    ensures { WritesOnOk W.Write.write_str_gives f.old result (hex_text (length label.now ∷ label.now)) f.new }
{
    write!(f, "{}{}", HexOctet(label.len() as u8), Hex(label))
}

/// The digits of a name that is spelled out.
fn write_digits<W: fmt::Write>(name: &ParsedName<'_>, f: &mut fmt::Formatter<W>) -> fmt::Result
    ensures { WritesOnOk W.Write.write_str_gives f.old result (hex_text (spelling name.now)) f.new }
{
    for label in name.labels() {
        write_label(label, f)?;
    }
    f.write(HexOctet(0))
}

/// The digits of a second name, if there is one.
fn write_second<W: fmt::Write>(
    second: &Option<ParsedName<'_>>,
    f: &mut fmt::Formatter<W>,
) -> fmt::Result
    ensures { WritesOnOk W.Write.write_str_gives f.old result (hex_text (second_spelling second.now)) f.new }
{
    match second {
        Some(name) => write_digits(name, f),
        None => Ok(()),
    }
}

/// Generic data with the names spelled out (RFC 3597 5).
fn write_spelled<W: fmt::Write>(
    named: &NamedParts<'_, '_>,
    f: &mut fmt::Formatter<W>,
) -> fmt::Result
    requires { named_size (parts_view named.now) < 65536 }
    ensures { WritesOnOk W.Write.write_str_gives f.old result (spelled_text (parts_view named.now)) f.new }
{
    let names = name_size(named.first) + second_name_size(named.second);
    let count = named.before.len() + names + named.behind.len();
    write!(f, "\\# {count} {}", Hex(named.before))?;
    write_digits(named.first, f)?;
    write_second(named.second, f)?;
    f.write(Hex(named.behind))
}

/// A name, and the second one behind a blank.
fn write_names<W: fmt::Write>(named: &NamedParts<'_, '_>, f: &mut fmt::Formatter<W>) -> fmt::Result
    ensures { WritesOnOk W.Write.write_str_gives f.old result (names_text named.now.first.now named.now.second.now) f.new }
{
    match named.second {
        Some(second) => write!(f, "{} {}", Absolute(named.first), Absolute(second)),
        None => f.write(Absolute(named.first)),
    }
}

/// A number and the names, of AFSDB and RT (RFC 1183 1 and 3.3) and of PX (RFC 2163 4).
fn write_preferred<W: fmt::Write>(
    named: &NamedParts<'_, '_>,
    f: &mut fmt::Formatter<W>,
) -> fmt::Result
    requires { named_size (parts_view named.now) < 65536 }
    ensures { WritesOnOk W.Write.write_str_gives f.old result (preferred_text named.now.before.now (parts_view named.now)) f.new }
{
    match named.before {
        [high, low] => {
            write!(f, "{} ", u16::from_be_bytes([*high, *low]))?;
            write_names(named, f)
        }
        _ => write_spelled(named, f),
    }
}

/// What is signed, by whom, and the signature (RFC 2535 7.2).
fn write_signature<W: fmt::Write>(
    named: &NamedParts<'_, '_>,
    f: &mut fmt::Formatter<W>,
) -> fmt::Result
    requires { named_size (parts_view named.now) < 65536 }
{
    match Signed::front(named.before) {
        Some((signed, _)) => {
            let signer = Absolute(named.first);
            write!(f, "{signed} {signer} {}", Base64(named.behind))
        }
        None => write_spelled(named, f),
    }
}

/// Two numbers, and the strings behind them.
fn rule_front(data: &[u8]) -> Option<(u16, u16, Spaced<'_>)> {
    let (order, rest) = parts::u16_front(data)?;
    let (preference, rest) = parts::u16_front(rest)?;
    let strings = Parts::read(PartKind::Text, rest)?;
    Some((order, preference, Spaced(strings)))
}

/// A rule that rewrites a name (RFC 3403 4.1).
fn write_rule<W: fmt::Write>(named: &NamedParts<'_, '_>, f: &mut fmt::Formatter<W>) -> fmt::Result
    requires { named_size (parts_view named.now) < 65536 }
{
    match rule_front(named.before) {
        Some((order, preference, strings)) => {
            let replacement = Absolute(named.first);
            write!(f, "{order} {preference} {strings} {replacement}")
        }
        None => write_spelled(named, f),
    }
}

/// Whether octets are the bits of types up to 127, of which there is none of type 0, up to the last octet with one (RFC
/// 2535 5.2).
fn are_type_bits(octets: &[u8]) -> bool
    ensures { result ≡ are_type_bits octets.now }
{
    let count = octets.len();
    count == 0 || (count <= 16 && octets[0] < 128 && octets[count - 1] != 0)
}

/// Whether the type has a form of its own, of which no part lacks.
fn has_named_form(rtype: Rtype, behind: &[u8]) -> bool
    ensures { result ≡ has_named_form rtype.0 behind.now }
{
    match rtype {
        Rtype::SIG => !behind.is_empty(),
        NXT => are_type_bits(behind),
        Rtype::NAPTR => true,
        _ => false,
    }
}

/// Data in the form of its type.
fn write_named_form<W: fmt::Write>(
    rtype: Rtype,
    named: &NamedParts<'_, '_>,
    f: &mut fmt::Formatter<W>,
) -> fmt::Result
    requires few { named_size (parts_view named.now) < 65536 }
    requires form { IsTrue (has_named_form rtype.0 named.now.behind.now) }
{
    match rtype {
        Rtype::SIG => write_signature(named, f),
        NXT => {
            write!(f, "{}", Absolute(named.first))?;
            write_bits(0, named.behind, f)
        }
        _ => write_rule(named, f),
    }
}

/// Data by its type, or generic where its type has no form here or a part lacks.
pub(crate) fn write_named<W: fmt::Write>(
    rtype: Rtype,
    named: &NamedParts<'_, '_>,
    f: &mut fmt::Formatter<W>,
) -> fmt::Result
    requires { named_size (parts_view named.now) < 65536 }
    ensures { DisplaysOnOk W.Write.write_str_gives f.old result (named_text rtype.0 (parts_view named.now)) f.new }
{
    match rtype {
        Rtype::RP => write_names(named, f),
        Rtype::AFSDB | RT | PX => write_preferred(named, f),
        _ => {
            if has_named_form(rtype, named.behind) {
                write_named_form(rtype, named, f)
            } else {
                write_spelled(named, f)
            }
        }
    }
}
