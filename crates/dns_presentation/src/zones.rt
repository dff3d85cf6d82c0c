//! What is said of a whole zone: its digest, and what its parent is to take from it.

ghost use Rattle.std.specs.Prelude.{◌∷◌, ◌++◌, decimal, option_map};
ghost use Rattle.std.specs.Fmt.{DisplaysOnOk, WritesOnOk};
ghost use Rattle.dns_presentation.specs.Counted.{led_parts};
ghost use Rattle.dns_presentation.specs.Generic.{or_generic};
ghost use Rattle.dns_presentation.specs.Zones.{zonemd_text, taken_text, csync_text};

use crate::counted::{PartKind, Parts};
use crate::generic::Generic;
use crate::octets::Hex;
use std::fmt;

/// The digest of a zone, which has an octet at least (RFC 8976 2.3).
pub(crate) fn write_zonemd<W: fmt::Write>(octets: &[u8], f: &mut fmt::Formatter<W>) -> fmt::Result
    ensures { WritesOnOk W.Write.write_str_gives f.old result (or_generic (zonemd_text octets.now) octets.now) f.new }
{
    let [a, b, c, d, scheme, algorithm, digest @ ..] = octets else {
        return f.write(Generic(octets));
    };
    if digest.is_empty() {
        return f.write(Generic(octets));
    }
    let serial = u32::from_be_bytes([*a, *b, *c, *d]);
    write!(f, "{serial} {scheme} {algorithm} {}", Hex(digest))
}

/// A serial, flags and types that are parts.
fn write_types<W: fmt::Write>(
    serial: u32,
    flags: u16,
    types: Parts<'_>,
    f: &mut fmt::Formatter<W>,
) -> fmt::Result
    ensures { DisplaysOnOk W.Write.write_str_gives f.old result (option_map (λ text. (decimal serial ++ 32 ∷ decimal flags) ++ text) (led_parts types.entry.kind types.entry.octets.now)) f.new }
{
    write!(f, "{serial} {flags}")?;
    f.write(types)
}

/// A serial, flags and types, or else the whole data as generic.
fn write_taken<W: fmt::Write>(
    serial: u32,
    flags: u16,
    octets: &[u8],
    whole: &[u8],
    f: &mut fmt::Formatter<W>,
) -> fmt::Result
    ensures { WritesOnOk W.Write.write_str_gives f.old result (or_generic (taken_text serial flags octets.now) whole.now) f.new }
{
    let kind = PartKind::Window;
    let types = Parts { kind, octets };
    if types.are_whole() {
        write_types(serial, flags, types, f)
    } else {
        f.write(Generic(whole))
    }
}

/// The types that a parent is to take from its child (RFC 7477 2.1).
pub(crate) fn write_csync<W: fmt::Write>(octets: &[u8], f: &mut fmt::Formatter<W>) -> fmt::Result
    ensures { WritesOnOk W.Write.write_str_gives f.old result (or_generic (csync_text octets.now) octets.now) f.new }
{
    let [a, b, c, d, high, low, types @ ..] = octets else {
        return f.write(Generic(octets));
    };
    let serial = u32::from_be_bytes([*a, *b, *c, *d]);
    let flags = u16::from_be_bytes([*high, *low]);
    write_taken(serial, flags, types, octets, f)
}
