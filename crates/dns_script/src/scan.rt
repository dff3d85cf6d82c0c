//! Searches of octets, sixteen at a time.

ghost use Rattle.std.specs.Prelude.{◌≡◌, ◌==◌, ◌+◌, ◌<◌, ◌≤◌, ℕ, IsTrue, length, slice_index};
ghost use Rattle.std.specs.List.{position};
ghost use Rattle.std.specs.Str.{IsAscii};
ghost use Rattle.dns_script.specs.Scan.{IsRunAt};

use std::simd::prelude::*;

/// How many of the sixteen octets at a place stand before the first separator.
#[inline(always)]
fn run_at(octets: &[u8], from: usize, separator: u8) -> usize
    requires { from + 16 ≤ length octets.now }
    ensures { IsRunAt (λ octet. octet == separator) octets.now from 16 result }
{
    let marks = u8x16::from_slice(&octets[from..])
        .simd_eq(u8x16::splat(separator))
        .to_bitmask();
    if marks == 0 {
        16
    } else {
        marks.trailing_zeros() as usize
    }
}

/// The place of the first separator.
pub(crate) fn place_of(octets: &[u8], separator: u8) -> Option<usize>
    ensures { result ≡ position (λ octet. octet == separator) octets.now }
{
    let mut from = 0;
    while octets.len() - from >= 16 {
        let run = run_at(octets, from, separator);
        if run < 16 {
            return Some(from + run);
        }
        from += 16;
    }
    while from < octets.len() {
        if octets[from] == separator {
            return Some(from);
        }
        from += 1;
    }
    None
}

/// Whether sixteen octets at a place are ASCII.
#[inline(always)]
fn is_ascii_at(octets: &[u8], at: usize) -> bool
    requires { at + 16 ≤ length octets.now }
    ensures { IsTrue result → (k : ℕ) → at ≤ k → k < at + 16 → slice_index octets.now k < 128 }
{
    u8x16::from_slice(&octets[at..])
        .simd_ge(u8x16::splat(128))
        .to_bitmask()
        == 0
}

/// Whether each octet is ASCII; the last sixteen may be among those that were tested before.
pub(crate) fn is_ascii(octets: &[u8]) -> bool
    ensures { IsTrue result → IsAscii octets.now }
{
    if octets.len() < 16 {
        return octets.is_ascii();
    }
    let last = octets.len() - 16;
    let mut from = 0;
    while from < last {
        if !is_ascii_at(octets, from) {
            return false;
        }
        from += 16;
    }
    is_ascii_at(octets, last)
}
