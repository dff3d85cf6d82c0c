//! Types by bits (RFC 4034 4.1.2, RFC 2535 5.2).

ghost use Rattle.std.specs.Prelude.{◌≡◌, ◌+◌, ◌*◌, ◌≤◌, length, IfSome};
ghost use Rattle.std.specs.Fmt.{WritesOnOk};
ghost use Rattle.dns_presentation.specs.Types.{bit_text, half_types, octet_types, bits_text, window_size, window_text};

use dns_base::Rtype;
use std::fmt;

/// How many octets the window at the front has: its number, a count, and 1 to 32 octets of bits.
pub(crate) fn window_size(whole: &[u8]) -> Option<usize>
    ensures value { result ≡ window_size whole.now }
    ensures limit { IfSome result (λ n. n ≤ 34) }
{
    match whole {
        [_, count, ..] if 0 < *count && *count <= 32 => Some(2 + *count as usize),
        _ => None,
    }
}

/// A type behind a blank, where the lowest bit is set.
fn write_bit<W: fmt::Write>(rtype: u16, bits: u8, f: &mut fmt::Formatter<W>) -> fmt::Result
    ensures { WritesOnOk W.Write.write_str_gives f.old result (bit_text rtype bits) f.new }
{
    if bits % 2 == 1 {
        write!(f, " {}", Rtype(rtype))
    } else {
        Ok(())
    }
}

/// The types of the four low bits, the highest first, from a type on.
fn write_half<W: fmt::Write>(first: u16, bits: u8, f: &mut fmt::Formatter<W>) -> fmt::Result
    requires { first + 4 ≤ 65536 }
    ensures { WritesOnOk W.Write.write_str_gives f.old result (half_types first bits) f.new }
{
    write_bit(first, bits / 8, f)?;
    write_bit(first + 1, bits / 4, f)?;
    write_bit(first + 2, bits / 2, f)?;
    write_bit(first + 3, bits, f)
}

/// The types of an octet of bits, the highest first, from a type on.
fn write_octet<W: fmt::Write>(first: u16, octet: u8, f: &mut fmt::Formatter<W>) -> fmt::Result
    requires { first + 8 ≤ 65536 }
    ensures { WritesOnOk W.Write.write_str_gives f.old result (octet_types first octet) f.new }
{
    write_half(first, octet / 16, f)?;
    write_half(first + 4, octet, f)
}

/// The types of octets of bits, each behind a blank.
pub(crate) fn write_bits<W: fmt::Write>(
    first: u32,
    octets: &[u8],
    f: &mut fmt::Formatter<W>,
) -> fmt::Result
    requires { first + 8 * length octets.now ≤ 65536 }
    ensures { WritesOnOk W.Write.write_str_gives f.old result (bits_text first octets.now) f.new }
{
    let mut at = first;
    for octet in octets {
        write_octet(at as u16, *octet, f)?;
        at += 8;
    }
    Ok(())
}

/// The types of a window, each behind a blank.
pub(crate) fn write_window<W: fmt::Write>(part: &[u8], f: &mut fmt::Formatter<W>) -> fmt::Result
    requires { length part.now ≤ 34 }
    ensures { WritesOnOk W.Write.write_str_gives f.old result (window_text part.now) f.new }
{
    match part {
        [number, _, octets @ ..] => write_bits(256 * u32::from(*number), octets, f),
        _ => Ok(()),
    }
}
