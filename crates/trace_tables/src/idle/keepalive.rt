//! The idle time that a server tells (RFC 7828 3.1).

ghost use Rattle.std.specs.Prelude.{◌≡◌, length, drop, None, IfOk};
ghost use Rattle.right_trace.specs.Messages.{keepalive_option, keepalive_in};
ghost use Rattle.trace_tables.specs.idle.Keepalive as spec;

use dns_base::{Duration, Message, NoMemory, Octets};

/// The code of the option edns-tcp-keepalive.
const KEEPALIVE: usize = 11;

/// What is told by then, after one option with a code, a count of octets and what stands behind its head.
fn told_by_option(code: usize, count: usize, octets: &[u8], found: Option<u64>) -> Option<u64>
    ensures { result ≡ keepalive_option code count octets.now found }
{
    match octets {
        [a, b, ..] if code == KEEPALIVE && count == 2 => {
            Some(100_000 * (256 * u64::from(*a) + u64::from(*b)))
        }
        _ => found,
    }
}

/// Octets without the first ones; none where there are no more.
fn behind(count: usize, octets: &[u8]) -> &[u8]
    ensures { result.now ≡ drop count octets.now }
{
    if octets.len() < count {
        return &[];
    }
    &octets[count..]
}

/// The time that options tell, in microseconds: the last option with the code and two octets counts.
fn told_by_options(options: &[u8]) -> Option<u64>
    ensures { result ≡ keepalive_in (length options.now) options.now None }
{
    let mut found = None;
    let mut rest = options;
    let mut fuel = options.len();
    while fuel > 0 {
        fuel -= 1;
        match rest {
            [a, b, c, d, others @ ..] => {
                let code = 256 * (*a as usize) + *b as usize;
                let count = 256 * (*c as usize) + *d as usize;
                found = told_by_option(code, count, others, found);
                rest = behind(count, others);
            }
            _ => return found,
        }
    }
    found
}

/// The time that a message tells, in microseconds.
fn told_by(message: &Message) -> Option<u64>
    ensures { result ≡ spec.told_by message.now }
{
    let opt = message.opt()?;
    told_by_options(opt.data())
}

/// The time that a frame tells, in microseconds; one without a whole header tells none.
pub fn told_in(frame: &Octets) -> Result<Option<u64>, NoMemory>
    ensures { IfOk result (λ t. t ≡ spec.told_in frame.now) }
{
    match Message::from_octets(frame.try_clone()?) {
        Ok(message) => Ok(told_by(&message)),
        Err(_) => Ok(None),
    }
}

/// The last that frames tell, or what was told before.
pub fn last_told(frames: &[Octets], before: Duration) -> Result<Duration, NoMemory>
    ensures { IfOk result (λ t. t ≡ spec.last_told frames.now before) }
{
    let mut last = before;
    for frame in frames {
        if let Some(told) = told_in(frame)? {
            last = Duration::from_micros(told);
        }
    }
    Ok(last)
}
