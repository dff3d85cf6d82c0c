//! Where octets are written to.

ghost use Rattle.std.specs.Prelude.{◌≡◌, ℕ, ◌<◌, ◌≤◌, List, [], ◌++◌, take, length, Option, None, Some, true, false, IfOk, IfErr, OnOk, OnErr, MatchResult, IsOk, if◌then◌else◌, ◌||◌};
ghost use Rattle.dns_values.specs.Source.{Rose, one_more, is_listed};
ghost use Rattle.dns_values.specs.Sink.{with_octets, IsFlushed, SinkInMemory};

use crate::error::{Failed, NoMemory};
use std::alloc::{AllocError, Global};
use std::marker::Model;

/// Why octets were not written.
#[derive(Clone, Copy, Debug, PartialEq, Eq)]
pub enum SinkFault {
    /// The sink failed.
    Failed,
    /// Memory ran out.
    NoMemory,
}

impl From<Failed> for SinkFault {
    ghost use Rattle.dns_values.specs.declared.sink.SinkFault.{SinkFault};

    ghost from_gives = { λ _ r. r ≡ SinkFault.Failed };

    fn from(_e: Failed) -> SinkFault {
        SinkFault::Failed
    }
}

impl From<AllocError> for SinkFault {
    ghost use Rattle.dns_values.specs.declared.sink.SinkFault.{SinkFault};

    ghost from_gives = { λ _ r. r ≡ SinkFault.NoMemory };

    fn from(_e: AllocError) -> SinkFault {
        SinkFault::NoMemory
    }
}

/// A stream of octets that is written in pieces.
///
/// Where a sink knows what it holds it tells it, and where it knows what it handed on it tells that.
/// Its count of faults never falls, so whoever hands a sink in sees from the count that a fault was
/// the sink's own.
pub trait Sink {
    ghost held: { Self → Option (List ℕ) };

    ghost flushed: { Self → Option (List ℕ) } = { λ _. None };

    ghost faults: { Self → ℕ };

    /// Writes some octets from the front of `buf` and answers how many. An error takes none.
    /// The count rises at `SinkFault::Failed`, and where nothing is taken of a nonempty buffer.
    fn write(&mut self, buf: &[u8]) -> Result<usize, SinkFault>
        ensures within { IfOk result (λ n. n ≤ length buf.now) }
        ensures held { MatchResult result (λ n. held self.new ≡ with_octets (take n buf.now) (held self.old))
            (λ _. held self.new ≡ held self.old) }
        ensures count { faults self.old ≤ faults self.new }
        ensures failed { IfErr result (λ e. e ≡ SinkFault.Failed → Rose (faults self.old) (faults self.new)) }
        ensures nothing_taken { IfOk result (λ n. n ≡ 0 → 0 < length buf.now → Rose (faults self.old) (faults self.new)) };

    /// Hands on what was written. `Failed` is a fault of the sink: the count rose.
    fn flush(&mut self) -> Result<(), Failed>
        ensures held { held self.new ≡ held self.old }
        ensures flushed { OnOk result (IsFlushed (held self.new) (flushed self.new)) }
        ensures count { faults self.old ≤ faults self.new }
        ensures failed { OnErr result (Rose (faults self.old) (faults self.new)) };
}

/// What was written, in memory, with a list of the calls that fail or take nothing.
#[derive(Drop)]
pub struct MemSink {
    octets: Vec<u8>,
    /// How many of them were handed on.
    flushed: usize,
    fails: Vec<u64>,
    takes_nothing: Vec<u64>,
    calls: u64,
    faults: u64,
}

impl Model for MemSink {
    ghost Value = { SinkInMemory };

    ghost view = { λ s. record { octets = s.octets.items; flushed = s.flushed; fails = s.fails.items; takes_nothing = s.takes_nothing.items; calls = s.calls; faults = s.faults } };
}

impl MemSink {
    /// An empty sink. Its calls, `write` and `flush` together, are numbered from 0: those in
    /// `fails` fail, and a `write` in `takes_nothing` alone takes no octet.
    pub fn new(alloc: Global, fails: Vec<u64>, takes_nothing: Vec<u64>) -> MemSink
        ensures { result ≡ record { octets = []; flushed = 0; fails = fails.items; takes_nothing = takes_nothing.items; calls = 0; faults = 0 } }
    {
        MemSink {
            octets: Vec::new(alloc),
            flushed: 0,
            fails,
            takes_nothing,
            calls: 0,
            faults: 0,
        }
    }

    /// What was written.
    pub fn as_slice(&self) -> &[u8]
        ensures { result.now ≡ self.now.octets }
    {
        self.octets.as_slice()
    }
}

impl Sink for MemSink {
    ghost held = { λ s. Some s.octets };

    ghost flushed = { λ s. Some (take s.flushed s.octets) };

    ghost faults = { λ s. s.faults };

    fn write(&mut self, buf: &[u8]) -> Result<usize, SinkFault>
        ensures within { IfOk result (λ n. n ≤ length buf.now) }
        ensures held { MatchResult result (λ n. self.new.octets ≡ self.old.octets ++ take n buf.now)
            (λ _. self.new.octets ≡ self.old.octets) }
        ensures flushed { self.new.flushed ≡ self.old.flushed }
        ensures count { self.old.faults ≤ self.new.faults }
        ensures failed { IfErr result (λ e. e ≡ SinkFault.Failed → Rose self.old.faults self.new.faults) }
        ensures nothing_taken { IfOk result (λ n. n ≡ 0 → 0 < length buf.now → Rose self.old.faults self.new.faults) }
        ensures fails { MatchResult result (λ _. is_listed self.old.calls self.old.fails ≡ false)
            (λ e. e ≡ SinkFault.Failed → is_listed self.old.calls self.old.fails ≡ true) }
        ensures whole { IfOk result (λ n. n ≡ (if is_listed self.old.calls self.old.takes_nothing then 0 else length buf.now)) }
        ensures counted { self.new.faults ≡ (if is_listed self.old.calls self.old.fails || is_listed self.old.calls self.old.takes_nothing then one_more self.old.faults else self.old.faults) }
        ensures calls { self.new.calls ≡ one_more self.old.calls }
        ensures same_fails { self.new.fails ≡ self.old.fails }
        ensures same_takes_nothing { self.new.takes_nothing ≡ self.old.takes_nothing }
    {
        let call = self.calls;
        self.calls = call.saturating_add(1);
        if self.fails.contains(&call) {
            self.faults = self.faults.saturating_add(1);
            return Err(SinkFault::Failed);
        }
        if self.takes_nothing.contains(&call) {
            self.faults = self.faults.saturating_add(1);
            return Ok(0);
        }
        self.octets.extend_from_slice(buf)?;
        Ok(buf.len())
    }

    fn flush(&mut self) -> Result<(), Failed>
        ensures held { self.new.octets ≡ self.old.octets }
        ensures flushed { MatchResult result (λ _. self.new.flushed ≡ length self.old.octets) (λ _. self.new.flushed ≡ self.old.flushed) }
        ensures count { self.old.faults ≤ self.new.faults }
        ensures failed { OnErr result (Rose self.old.faults self.new.faults) }
        ensures fails { MatchResult result (λ _. is_listed self.old.calls self.old.fails ≡ false)
            (λ _. is_listed self.old.calls self.old.fails ≡ true) }
        ensures counted { self.new.faults ≡ (if is_listed self.old.calls self.old.fails then one_more self.old.faults else self.old.faults) }
        ensures calls { self.new.calls ≡ one_more self.old.calls }
        ensures same_fails { self.new.fails ≡ self.old.fails }
        ensures same_takes_nothing { self.new.takes_nothing ≡ self.old.takes_nothing }
    {
        let call = self.calls;
        self.calls = call.saturating_add(1);
        if self.fails.contains(&call) {
            self.faults = self.faults.saturating_add(1);
            return Err(Failed);
        }
        self.flushed = self.octets.len();
        Ok(())
    }
}

/// What was written, in memory, without fault.
#[derive(Drop)]
pub struct SureSink {
    octets: Vec<u8>,
}

impl Model for SureSink {
    ghost Value = { List ℕ };

    ghost view = { λ s. s.octets.items };
}

impl SureSink {
    /// An empty sink.
    pub fn new(alloc: Global) -> SureSink
        ensures { result ≡ [] }
    {
        SureSink {
            octets: Vec::new(alloc),
        }
    }

    /// What was written.
    pub fn as_slice(&self) -> &[u8]
        ensures { result.now ≡ self.now }
    {
        self.octets.as_slice()
    }
}

impl Sink for SureSink {
    ghost held = { λ s. Some s };

    ghost flushed = { λ s. Some s };

    ghost faults = { λ _. 0 };

    fn write(&mut self, buf: &[u8]) -> Result<usize, SinkFault>
        ensures within { IfOk result (λ n. n ≤ length buf.now) }
        ensures held { MatchResult result (λ n. self.new ≡ self.old ++ take n buf.now) (λ _. self.new ≡ self.old) }
        ensures sure { IfErr result (λ e. e ≡ SinkFault.NoMemory) }
        ensures whole { IfOk result (λ n. n ≡ length buf.now) }
    {
        self.octets.extend_from_slice(buf)?;
        Ok(buf.len())
    }

    fn flush(&mut self) -> Result<(), Failed>
        ensures held { self.new ≡ self.old }
        ensures sure { IsOk result }
    {
        Ok(())
    }
}
