//! Parts at the front of data, and what is behind them.

ghost use Rattle.std.specs.Prelude.{◌<◌, length, IfSome};

use dns_base::{IpAddr, ParsedName};

/// A number of two octets.
pub(crate) fn u16_front(whole: &[u8]) -> Option<(u16, &[u8])>
    ensures { IfSome result (λ r. length r.1.now < length whole.now) }
{
    match whole {
        [high, low, rest @ ..] => Some((u16::from_be_bytes([*high, *low]), rest)),
        _ => None,
    }
}

/// A number of four octets.
pub(crate) fn u32_front(data: &[u8]) -> Option<(u32, &[u8])> {
    match data {
        [a, b, c, d, rest @ ..] => Some((u32::from_be_bytes([*a, *b, *c, *d]), rest)),
        _ => None,
    }
}

/// Octets behind an octet that counts them (RFC 1035 3.3).
pub(crate) fn string_front(whole: &[u8]) -> Option<(&[u8], &[u8])>
    ensures short { IfSome result (λ r. length r.0.now < 256) }
    ensures shorter { IfSome result (λ r. length r.1.now < length whole.now) }
{
    match whole {
        [count, rest @ ..] if rest.len() >= *count as usize => Some(rest.split_at(*count as usize)),
        _ => None,
    }
}

/// A code, and octets behind two that count them: an option (RFC 6891 6.1.2) or a service parameter (RFC 9460 2.2).
pub(crate) fn option_front(whole: &[u8]) -> Option<(u16, &[u8], &[u8])>
    ensures { IfSome result (λ r. length r.2.now < length whole.now) }
{
    match whole {
        [a, b, high, low, rest @ ..] => {
            let count = *high as usize * 256 + *low as usize;
            if rest.len() < count {
                return None;
            }
            let (octets, behind) = rest.split_at(count);
            Some((u16::from_be_bytes([*a, *b]), octets, behind))
        }
        _ => None,
    }
}

/// Whether labels stand at the front, up to the root's, with no pointer among them.
fn is_uncompressed(data: &[u8]) -> bool {
    let mut rest = data;
    'labels: loop {
        match rest {
            [0, ..] => return true,
            [count, others @ ..] if *count < 64 && others.len() >= *count as usize => {
                rest = &others[*count as usize..];
            }
            _ => return false,
        }
    }
}

/// A name without pointers, as the data of later types has them (RFC 3597 4).
pub(crate) fn name_front(data: &[u8]) -> Option<(ParsedName<'_>, &[u8])> {
    if !is_uncompressed(data) {
        return None;
    }
    let (name, end) = ParsedName::parse(data, 0)?;
    Some((name, &data[end..]))
}

/// The IPv6 address of sixteen octets; what lacks is 0.
pub(crate) fn long_address(octets: &[u8]) -> IpAddr {
    let mut groups = [0; 8];
    let mut at = 0;
    for pair in octets.chunks(2) {
        if at < 8 {
            if let [high, low] = pair {
                groups[at] = u16::from_be_bytes([*high, *low]);
            }
            at += 1;
        }
    }
    IpAddr::V6(groups)
}
