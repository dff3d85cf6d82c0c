//! Names that map addresses to names (RFC 1035 3.5, RFC 3596 2.5).

ghost use Rattle.std.specs.Prelude.{◌≡◌, ◌<◌, ◌≤◌, ◌++◌, ◌∷◌, [], length, map, reverse, flat_map, codes, decimal, IfOk, OnOk};
ghost use Rattle.std.specs.Char.{digit_char};
ghost use Rattle.dns_names.specs.Draft.{written};
ghost use Rattle.dns_names.specs.Reverse.{digit_labels, reverse_labels, IsDecimal};

use crate::owned::{Name, push_label};
use dns_values::{IpAddr, NoMemory};
use std::alloc::{AllocError, Global};

impl Name {
    /// The name that maps an address to names: its octets in decimal under `in-addr.arpa`, or its
    /// hexadecimal digits under `ip6.arpa`, the last one first.
    pub fn reverse_from_addr(alloc: Global, addr: IpAddr) -> Result<Name, NoMemory>
        ensures { IfOk result (λ n. n ≡ reverse_labels addr) }
    {
        match addr {
            IpAddr::V4(mut octets) => {
                octets.reverse();
                decimal_name(alloc, &octets)
            }
            IpAddr::V6(mut groups) => {
                groups.reverse();
                digit_name(alloc, &groups)
            }
        }
    }
}

/// The name of an IPv4 address, whose octets come from the last to the first.
fn decimal_name(alloc: Global, octets: &[u8]) -> Result<Name, NoMemory>
    requires { length octets.now ≤ 4 }
    ensures { IfOk result (λ n. n ≡ map decimal octets.now ++ codes "in-addr" ∷ codes "arpa" ∷ []) }
{
    let mut name = Vec::new(alloc);
    for octet in octets {
        push_decimal(alloc, &mut name, *octet)?;
    }
    push_label(&mut name, b"in-addr")?;
    push_label(&mut name, b"arpa")?;
    name.push(0)?;
    Ok(Name::from_spelling(name))
}

/// The name of an IPv6 address, whose groups come from the last to the first.
fn digit_name(alloc: Global, groups: &[u16]) -> Result<Name, NoMemory>
    requires { length groups.now ≤ 8 }
    ensures { IfOk result (λ n. n ≡ flat_map digit_labels groups.now ++ codes "ip6" ∷ codes "arpa" ∷ []) }
{
    let mut name = Vec::new(alloc);
    for group in groups {
        push_digits(&mut name, *group)?;
    }
    push_label(&mut name, b"ip6")?;
    push_label(&mut name, b"arpa")?;
    name.push(0)?;
    Ok(Name::from_spelling(name))
}

/// Adds an octet's decimal label.
fn push_decimal(alloc: Global, name: &mut Vec<u8>, octet: u8) -> Result<(), AllocError>
    ensures added { OnOk result (name.new.items ≡ name.old.items ++ (length (decimal octet) ∷ decimal octet)) }
    ensures short { IsDecimal (decimal octet) }
{
    let text = octet.to_string(alloc)?;
    push_label(name, text.as_bytes())
}

/// Adds the labels of a group's four hexadecimal digits, the last one first.
fn push_digits(name: &mut Vec<u8>, group: u16) -> Result<(), AllocError>
    ensures { OnOk result (name.new.items ≡ name.old.items ++ written (digit_labels group)) }
{
    push_label(name, &[hex_digit(group % 16)])?;
    push_label(name, &[hex_digit(group / 16 % 16)])?;
    push_label(name, &[hex_digit(group / 256 % 16)])?;
    push_label(name, &[hex_digit(group / 4096)])
}

fn hex_digit(digit: u16) -> u8
    requires { digit < 16 }
    ensures { result ≡ digit_char digit }
{
    if digit < 10 {
        b'0' + digit as u8
    } else {
        b'a' + (digit - 10) as u8
    }
}
