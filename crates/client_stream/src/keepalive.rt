//! The idle time that a server tells.

ghost use Rattle.std.specs.Prelude.{◌≡◌};
ghost use Rattle.client_stream.specs.Keepalive.{told_by, tenths_told, idle_time_told};

use dns_base::{Duration, Message};

/// The code of the option edns-tcp-keepalive (RFC 7828 3.1).
pub(crate) const KEEPALIVE: u16 = 11;

const MICROS_IN_TENTH: u64 = 100_000;

/// What is told by then, after one option with a code, a count of octets and what stands behind its head.
fn told_by(code: u16, count: usize, octets: &[u8], told: Option<u16>) -> Option<u16>
    ensures { result ≡ told_by code count octets.now told }
{
    if code == KEEPALIVE && count == 2 && octets.len() >= 2 {
        Some(octets[0] as u16 * 256 + octets[1] as u16)
    } else {
        told
    }
}

/// The tenths of a second that options tell: the last option with the code and two octets counts.
fn tenths_told(options: &[u8]) -> Option<u16>
    ensures { result ≡ tenths_told options.now }
{
    let mut told = None;
    let mut rest = options;
    'options: loop {
        match rest {
            [first, second, high, low, others @ ..] => {
                let code = *first as u16 * 256 + *second as u16;
                let count = *high as usize * 256 + *low as usize;
                told = told_by(code, count, others, told);
                if others.len() < count {
                    return told;
                }
                rest = &others[count..];
            }
            _ => return told,
        }
    }
}

/// The idle time that a message tells, if it does.
pub(crate) fn idle_time_told(message: &Message) -> Option<Duration>
    ensures { result ≡ idle_time_told message.now }
{
    let opt = message.opt()?;
    let tenths = tenths_told(opt.data())?;
    Some(Duration::from_micros(u64::from(tenths) * MICROS_IN_TENTH))
}
