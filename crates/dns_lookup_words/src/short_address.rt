//! Addresses of IPv4 whose last numbers may be left out.

ghost use Rattle.std.specs.Prelude.{◌≡◌, drop, IfOk, MatchOption};
ghost use Rattle.dns_lookup_words.specs.ShortAddress.{IsDottedText, IsNoAddress, IsShortAddress, short_labels};
ghost use Rattle.dns_values.specs.declared.address.IpAddr.{IpAddr};

use dns_names::Name;
use dns_values::{IpAddr, NoMemory};
use std::alloc::Global;

/// How many of the four numbers may be left out.
const MOST_MISSING: usize = 3;

/// An address, of which the last numbers may be left out.
#[derive(Clone, Copy)]
pub(crate) struct ShortAddress {
    /// The address, with zeros where they are left out.
    pub(crate) ip: IpAddr,
    /// How many are left out.
    pub(crate) missing: usize,
}

/// The address of IPv4 that a text writes.
fn dotted(text: &str) -> Option<IpAddr>
    ensures { MatchOption result ((ip : IpAddr) → ¬ (IsDottedText text.now ip)) (λ ip. IsDottedText text.now ip) }
{
    match IpAddr::from_text(text) {
        Ok(ip) => match ip {
            IpAddr::V4(_) => Some(ip),
            IpAddr::V6(_) => None,
        },
        Err(_) => None,
    }
}

/// The address that a text writes: an address, or one to three of the numbers of IPv4, with dots between.
pub(crate) fn short_address(alloc: Global, word: &str) -> Result<Option<ShortAddress>, NoMemory>
    ensures { IfOk result (λ found. MatchOption found (IsNoAddress word.now) (λ short. IsShortAddress word.now short.missing short.ip)) }
{
    if let Ok(ip) = IpAddr::from_text(word) {
        return Ok(Some(ShortAddress { ip, missing: 0 }));
    }
    let mut text = String::from_str(alloc, word)?;
    for fewer in 0..MOST_MISSING {
        text.push_str(".0")?;
        if let Some(ip) = dotted(text.as_str()) {
            return Ok(Some(ShortAddress {
                ip,
                missing: fewer + 1,
            }));
        }
    }
    Ok(None)
}

/// The name without its first label; the root stays.
fn above(alloc: Global, name: &Name) -> Result<Name, NoMemory>
    ensures { IfOk result (λ n. n ≡ drop 1 name.now) }
{
    let mut above = Name::root(alloc);
    if name.is_root() {
        return Ok(above);
    }
    let octets = name.as_octets();
    let behind = 1 + octets[0] as usize;
    above.respell(&octets[behind..])?;
    Ok(above)
}

impl ShortAddress {
    /// The name that maps the address to names (RFC 1035 3.5, RFC 3596 2.5), or, where numbers are left out, the one above those of all
    /// addresses that begin so.
    pub(crate) fn name(&self, alloc: Global) -> Result<Name, NoMemory>
        ensures { IfOk result (λ n. n ≡ short_labels self.now.missing self.now.ip) }
    {
        let mut name = Name::reverse_from_addr(alloc, self.ip)?;
        for _ in 0..self.missing {
            name = above(alloc, &name)?;
        }
        Ok(name)
    }
}
