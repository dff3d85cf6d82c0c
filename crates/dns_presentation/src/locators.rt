//! Addresses and names of hosts and networks in other forms.

ghost use Rattle.std.specs.Prelude.{◌≡◌, ◌==◌, ◌&&◌, [], ◌∷◌, None, Some, if◌then◌else◌};
ghost use Rattle.std.specs.List.{flat_map};
ghost use Rattle.std.specs.Fmt.{WritesOnOk};
ghost use Rattle.dns_names.specs.Name.{octet_count};
ghost use Rattle.dns_presentation.specs.Generic.{or_generic};
ghost use Rattle.dns_presentation.specs.Octets.{hex_text};
ghost use Rattle.dns_presentation.specs.Locators.{nsap_text, dashed_octet, dashed, eui_text, groups_text, quad_text, sole_name, sole_name_text, behind_preference, locator_text};

use crate::generic::Generic;
use crate::named::name_size;
use crate::names::Absolute;
use crate::octets::{Hex, HexOctet};
use dns_base::{IpAddr, ParsedName, Rtype};
use std::fmt::{self, Display};

const NSAP: Rtype = Rtype(22);

const NID: Rtype = Rtype(104);

const L32: Rtype = Rtype(105);

const L64: Rtype = Rtype(106);

const LP: Rtype = Rtype(107);

const EUI48: Rtype = Rtype(108);

const EUI64: Rtype = Rtype(109);

/// A network's address (RFC 1706).
fn write_nsap<W: fmt::Write>(octets: &[u8], f: &mut fmt::Formatter<W>) -> fmt::Result
    ensures { WritesOnOk W.Write.write_str_gives f.old result (or_generic (nsap_text octets.now) octets.now) f.new }
{
    if octets.is_empty() {
        return f.write(Generic(octets));
    }
    write!(f, "0x{}", Hex(octets))
}

/// Octets with a `-` before each.
fn write_dashes<W: fmt::Write>(octets: &[u8], f: &mut fmt::Formatter<W>) -> fmt::Result
    ensures { WritesOnOk W.Write.write_str_gives f.old result (flat_map dashed_octet octets.now) f.new }
{
    for octet in octets {
        write!(f, "-{}", HexOctet(*octet))?;
    }
    Ok(())
}

/// Octets with a `-` between.
fn write_dashed<W: fmt::Write>(octets: &[u8], f: &mut fmt::Formatter<W>) -> fmt::Result
    ensures { WritesOnOk W.Write.write_str_gives f.old result (dashed octets.now) f.new }
{
    match octets {
        [first, others @ ..] => {
            f.write(HexOctet(*first))?;
            write_dashes(others, f)
        }
        [] => Ok(()),
    }
}

/// An address of so many octets (RFC 7043 3.2 and 4.2).
fn write_eui<W: fmt::Write>(count: usize, octets: &[u8], f: &mut fmt::Formatter<W>) -> fmt::Result
    ensures { WritesOnOk W.Write.write_str_gives f.old result (or_generic (eui_text count octets.now) octets.now) f.new }
{
    if octets.len() == count {
        write_dashed(octets, f)
    } else {
        f.write(Generic(octets))
    }
}

/// Two octets as four digits.
#[derive(Clone, Copy)]
struct Group(u8, u8);

impl Display for Group {
    ghost output = { λ p. Some (hex_text (p.0 ∷ p.1 ∷ [])) };

    fn fmt<W: fmt::Write>(&self, f: &mut fmt::Formatter<W>) -> fmt::Result {
        write!(f, "{}{}", HexOctet(self.0), HexOctet(self.1))
    }
}

/// A preference and four groups of digits (RFC 6742 2.1.2 and 2.3.2).
fn write_groups<W: fmt::Write>(octets: &[u8], f: &mut fmt::Formatter<W>) -> fmt::Result
    ensures { WritesOnOk W.Write.write_str_gives f.old result (or_generic (behind_preference groups_text octets.now) octets.now) f.new }
{
    match octets {
        [high, low, a, b, c, d, e, g, h, i] => {
            let preference = u16::from_be_bytes([*high, *low]);
            let first = Group(*a, *b);
            let second = Group(*c, *d);
            let third = Group(*e, *g);
            let fourth = Group(*h, *i);
            write!(f, "{preference} {first}:{second}:{third}:{fourth}")
        }
        _ => f.write(Generic(octets)),
    }
}

/// A preference and an IPv4 address (RFC 6742 2.2.2).
fn write_quad<W: fmt::Write>(octets: &[u8], f: &mut fmt::Formatter<W>) -> fmt::Result
    ensures { WritesOnOk W.Write.write_str_gives f.old result (or_generic (behind_preference quad_text octets.now) octets.now) f.new }
{
    match octets {
        [high, low, a, b, c, d] => {
            let preference = u16::from_be_bytes([*high, *low]);
            write!(f, "{preference} {}", IpAddr::V4([*a, *b, *c, *d]))
        }
        _ => f.write(Generic(octets)),
    }
}

/// A name that ends behind so many octets, if it has as many spelled out.
fn if_spelled(name: ParsedName<'_>, end: usize, count: usize) -> Option<ParsedName<'_>>
    ensures { result ≡ (if (end == count) && (octet_count name.entry == count) then Some name.entry else None) }
{
    if end == count && name_size(&name) == count {
        Some(name)
    } else {
        None
    }
}

/// The name that fills the octets, with no pointer in it.
fn sole_name(octets: &[u8]) -> Option<ParsedName<'_>>
    ensures { result ≡ sole_name octets.now }
{
    match ParsedName::parse(octets, 0) {
        Some((name, end)) => if_spelled(name, end, octets.len()),
        None => None,
    }
}

/// A preference and a name, of KX (RFC 2230 3) and LP (RFC 6742 2.4.2).
fn write_pointed<W: fmt::Write>(octets: &[u8], f: &mut fmt::Formatter<W>) -> fmt::Result
    ensures { WritesOnOk W.Write.write_str_gives f.old result (or_generic (behind_preference sole_name_text octets.now) octets.now) f.new }
{
    let [high, low, rest @ ..] = octets else {
        return f.write(Generic(octets));
    };
    match sole_name(rest) {
        Some(name) => {
            let preference = u16::from_be_bytes([*high, *low]);
            write!(f, "{preference} {}", Absolute(&name))
        }
        None => f.write(Generic(octets)),
    }
}

/// Octets of a type, which are generic where it isn't one of these or they aren't of its form.
pub(crate) fn write_locator<W: fmt::Write>(
    rtype: Rtype,
    octets: &[u8],
    f: &mut fmt::Formatter<W>,
) -> fmt::Result
    ensures { WritesOnOk W.Write.write_str_gives f.old result (or_generic (locator_text rtype.0 octets.now) octets.now) f.new }
{
    match rtype {
        NSAP => write_nsap(octets, f),
        NID | L64 => write_groups(octets, f),
        L32 => write_quad(octets, f),
        Rtype::KX | LP => write_pointed(octets, f),
        EUI48 => write_eui(6, octets, f),
        EUI64 => write_eui(8, octets, f),
        _ => f.write(Generic(octets)),
    }
}
