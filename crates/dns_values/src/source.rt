//! Where octets are read from.

ghost use Rattle.std.specs.Prelude.{◌≡◌, ℕ, ◌+◌, ◌-◌, ◌<◌, ◌≤◌, min, List, [], ◌++◌, take, drop, length, Option, Some, None, true, false, IsOk, IfOk, IfErr, OnOk, OnErr, IfSome, MatchResult, if◌then◌else◌};
ghost use Rattle.dns_values.specs.Source.{Rose, one_more, is_listed, after_octets, SourceInMemory};

use crate::error::{Failed, NoMemory};
use crate::octets::Octets;
use std::alloc::{AllocError, Global};
use std::marker::Model;

/// A stream of octets that is read in pieces.
///
/// Where a source knows its octets it tells what is left of them. Its count of faults never
/// falls, so whoever hands a source in sees from the count that a fault was the source's own.
pub trait Source {
    ghost left: { Self → Option (List ℕ) };

    ghost faults: { Self → ℕ };

    /// Reads some octets into the front of `buf` and answers how many; 0 for a nonempty buffer
    /// is the end. `Failed` is a fault of the source: the count rose, and no octet is lost.
    fn read(&mut self, buf: &mut [u8]) -> Result<usize, Failed>
        ensures within { IfOk result (λ n. n ≤ length buf.old) }
        ensures rest { MatchResult result (λ n. left self.new ≡ after_octets n (left self.old))
            (λ _. left self.new ≡ left self.old) }
        ensures front { IfOk result (λ n. IfSome (left self.old) (λ xs. (n ≤ length xs) × (buf.new ≡ take n xs ++ drop n buf.old))) }
        ensures end { IfOk result (λ n. IfSome (left self.old) (λ xs. n ≡ 0 → 0 < length buf.old → xs ≡ [])) }
        ensures count { faults self.old ≤ faults self.new }
        ensures failed { OnErr result (Rose (faults self.old) (faults self.new)) };
}

/// Octets in memory, with a list of the calls that fail.
#[derive(Drop)]
pub struct MemSource {
    octets: Octets,
    at: usize,
    fails: Vec<u64>,
    calls: u64,
    faults: u64,
}

impl Model for MemSource {
    ghost Value = { SourceInMemory };

    ghost view = { λ s. record { rest = drop s.at s.octets; fails = s.fails.items; calls = s.calls; faults = s.faults } };

    ghost invariant = { λ s. s.at ≤ length s.octets };
}

impl MemSource {
    /// A source of these octets. Its calls are numbered from 0, and those in `fails` fail.
    pub fn new(octets: Octets, fails: Vec<u64>) -> MemSource
        ensures { result ≡ record { rest = octets; fails = fails.items; calls = 0; faults = 0 } }
    {
        MemSource {
            octets,
            at: 0,
            fails,
            calls: 0,
            faults: 0,
        }
    }
}

impl Source for MemSource {
    ghost left = { λ s. Some s.rest };

    ghost faults = { λ s. s.faults };

    fn read(&mut self, buf: &mut [u8]) -> Result<usize, Failed>
        ensures within { IfOk result (λ n. n ≤ length buf.old) }
        ensures rest { MatchResult result (λ n. self.new.rest ≡ drop n self.old.rest) (λ _. self.new.rest ≡ self.old.rest) }
        ensures front { IfOk result (λ n. (n ≤ length self.old.rest) × (buf.new ≡ take n self.old.rest ++ drop n buf.old)) }
        ensures end { IfOk result (λ n. n ≡ 0 → 0 < length buf.old → self.old.rest ≡ []) }
        ensures count { self.old.faults ≤ self.new.faults }
        ensures failed { OnErr result (Rose self.old.faults self.new.faults) }
        ensures fails { MatchResult result (λ _. is_listed self.old.calls self.old.fails ≡ false)
            (λ _. is_listed self.old.calls self.old.fails ≡ true) }
        ensures full { IfOk result (λ n. n ≡ min (length buf.old) (length self.old.rest)) }
        ensures counted { self.new.faults ≡ (if is_listed self.old.calls self.old.fails then one_more self.old.faults else self.old.faults) }
        ensures calls { self.new.calls ≡ one_more self.old.calls }
        ensures same { self.new.fails ≡ self.old.fails }
    {
        let call = self.calls;
        self.calls = call.saturating_add(1);
        if self.fails.contains(&call) {
            self.faults = self.faults.saturating_add(1);
            return Err(Failed);
        }
        let n = copy_front(&self.octets.as_slice()[self.at..], buf);
        self.at += n;
        Ok(n)
    }
}

/// Octets in memory that are always read without fault.
#[derive(Drop)]
pub struct SureSource {
    octets: Octets,
    at: usize,
}

impl Model for SureSource {
    ghost Value = { List ℕ };

    ghost view = { λ s. drop s.at s.octets };

    ghost invariant = { λ s. s.at ≤ length s.octets };
}

impl SureSource {
    /// A source that gives these octets.
    pub fn new(octets: Octets) -> SureSource
        ensures { result ≡ octets }
    {
        SureSource { octets, at: 0 }
    }
}

impl Source for SureSource {
    ghost left = { λ s. Some s };

    ghost faults = { λ _. 0 };

    fn read(&mut self, buf: &mut [u8]) -> Result<usize, Failed>
        ensures within { IfOk result (λ n. n ≤ length buf.old) }
        ensures rest { IfOk result (λ n. self.new ≡ drop n self.old) }
        ensures front { IfOk result (λ n. (n ≤ length self.old) × (buf.new ≡ take n self.old ++ drop n buf.old)) }
        ensures end { IfOk result (λ n. n ≡ 0 → 0 < length buf.old → self.old ≡ []) }
        ensures sure { IsOk result }
        ensures full { IfOk result (λ n. n ≡ min (length buf.old) (length self.old)) }
    {
        let n = copy_front(&self.octets.as_slice()[self.at..], buf);
        self.at += n;
        Ok(n)
    }
}

/// Copies as many octets as both have, to the front, and answers how many.
pub fn copy_front(from: &[u8], to: &mut [u8]) -> usize
    ensures count { result ≡ min (length to.old) (length from.now) }
    ensures copied { to.new ≡ take result from.now ++ drop result to.old }
{
    let n = to.len().min(from.len());
    to[..n].copy_from_slice(&from[..n]);
    n
}
