//! Decimal numbers.

ghost use Rattle.std.specs.Prelude.{◌≡◌, ◌<◌, ◌≤◌, length, IfSome};
ghost use Rattle.dns_values.specs.Decimal.{decimal_number};

/// The number that many digits write.
#[inline(never)]
fn long_number(digits: &[u8]) -> Option<u64>
    ensures { result ≡ decimal_number 18446744073709551615 digits.now }
{
    if digits.is_empty() {
        return None;
    }
    let mut number: u64 = 0;
    for digit in digits {
        if !digit.is_ascii_digit() {
            return None;
        }
        number = number.checked_mul(10)?.checked_add((*digit - b'0') as u64)?;
    }
    Some(number)
}

/// The number that so few digits write that no number of them is too great.
#[inline(always)]
fn short_number(digits: &[u8]) -> Option<u64>
    requires { length digits.now < 19 }
    ensures { result ≡ decimal_number 18446744073709551615 digits.now }
{
    if digits.is_empty() {
        return None;
    }
    let mut number = 0;
    for digit in digits {
        if !digit.is_ascii_digit() {
            return None;
        }
        number = 10 * number + (*digit - b'0') as u64;
    }
    Some(number)
}

/// The number of 64 bits that digits write.
#[inline(always)]
fn any_number(digits: &[u8]) -> Option<u64>
    ensures { result ≡ decimal_number 18446744073709551615 digits.now }
{
    if digits.len() < 19 {
        short_number(digits)
    } else {
        long_number(digits)
    }
}

/// The number that ASCII digits alone write, one or more, where it is at most the greatest. Zeros may stand first.
/// `None` for no octets, for an octet that is no digit, as a sign or a blank, and for a number past the greatest.
#[inline(always)]
#[tactic(auto, using(crate::proofs::Decimals::within_none))]
pub fn decimal_number(greatest: u64, digits: &[u8]) -> Option<u64>
    ensures value { result ≡ decimal_number greatest digits.now }
    ensures within { IfSome result (λ n. n ≤ greatest) }
{
    let number = any_number(digits)?;
    if number > greatest {
        None
    } else {
        Some(number)
    }
}
