//! Items of a list of prefixes (RFC 3123).

ghost use Rattle.std.specs.Prelude.{◌≡◌, ◌≤◌, length, slice_index, IfSome};
ghost use Rattle.std.specs.Fmt.{WritesOnOk};
ghost use Rattle.dns_presentation.specs.Prefixes.{fits_family, is_trimmed, prefix_size, filled, network_text, sign, item_text, prefix_text};

use dns_base::IpAddr;
use std::fmt;
use std::net::Ipv6Addr;

/// Whether an address of a family may have so many octets written, of which so many bits count.
fn fits_family(family: u16, bits: u8, count: usize) -> bool
    ensures { result ≡ fits_family family bits count }
{
    match family {
        1 => bits <= 32 && count <= 4,
        2 => bits <= 128 && count <= 16,
        _ => false,
    }
}

/// Whether the last octet isn't 0, if there is one.
fn is_trimmed(octets: &[u8]) -> bool
    ensures { result ≡ is_trimmed octets.now }
{
    let count = octets.len();
    count == 0 || octets[count - 1] != 0
}

/// How many octets the item at the front has, if one stands there.
pub(crate) fn prefix_size(whole: &[u8]) -> Option<usize>
    ensures value { result ≡ prefix_size whole.now }
    ensures limit { IfSome result (λ n. n ≤ 131) }
{
    let [high, low, bits, count, octets @ ..] = whole else {
        return None;
    };
    let size = *count as usize % 128;
    if size > octets.len() {
        return None;
    }
    let (address, _) = octets.split_at(size);
    let family = u16::from_be_bytes([*high, *low]);
    if fits_family(family, *bits, address.len()) && is_trimmed(address) {
        Some(4 + size)
    } else {
        None
    }
}

/// An octet, or 0 behind the last.
pub(crate) fn octet_at(octets: &[u8], at: usize) -> u8
    ensures { result ≡ slice_index octets.now at }
{
    match octets.get(at) {
        Some(octet) => *octet,
        None => 0,
    }
}

/// The address of which these are the first octets, and the others are 0.
fn long_address(octets: &[u8]) -> [u8; 16]
    ensures { result ≡ filled 16 octets.now }
{
    let mut all = [0; 16];
    for at in 0..16 {
        all[at] = octet_at(octets, at);
    }
    all
}

/// The same of an address of four octets.
fn short_address(octets: &[u8]) -> [u8; 4]
    ensures { result ≡ filled 4 octets.now }
{
    let first = octet_at(octets, 0);
    let second = octet_at(octets, 1);
    let third = octet_at(octets, 2);
    let fourth = octet_at(octets, 3);
    [first, second, third, fourth]
}

/// The address of a network.
fn write_network<W: fmt::Write>(
    family: u16,
    octets: &[u8],
    f: &mut fmt::Formatter<W>,
) -> fmt::Result
    ensures { WritesOnOk W.Write.write_str_gives f.old result (network_text family octets.now) f.new }
{
    if family == 1 {
        f.write(IpAddr::V4(short_address(octets)))
    } else {
        f.write(Ipv6Addr::from_octets(long_address(octets)))
    }
}

/// What stands before an item: `!` where it is an exception, as its fourth octet says.
fn sign(count: u8) -> &'static str
    ensures { result.now ≡ sign count }
{
    if count >= 128 { "!" } else { "" }
}

/// An item: `!` before an exception, the family, the address and how many bits of it count.
fn write_item<W: fmt::Write>(
    family: u16,
    bits: u8,
    count: u8,
    octets: &[u8],
    f: &mut fmt::Formatter<W>,
) -> fmt::Result
    ensures { WritesOnOk W.Write.write_str_gives f.old result (item_text family bits count octets.now) f.new }
{
    f.write_str(sign(count))?;
    write!(f, "{family}:")?;
    write_network(family, octets, f)?;
    write!(f, "/{bits}")
}

/// The item that some octets are.
pub(crate) fn write_prefix<W: fmt::Write>(part: &[u8], f: &mut fmt::Formatter<W>) -> fmt::Result
    ensures { WritesOnOk W.Write.write_str_gives f.old result (prefix_text part.now) f.new }
{
    match part {
        [high, low, bits, count, octets @ ..] => {
            let family = u16::from_be_bytes([*high, *low]);
            write_item(family, *bits, *count, octets, f)
        }
        _ => Ok(()),
    }
}
