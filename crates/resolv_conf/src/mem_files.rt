//! Files in memory.

ghost use Rattle.std.specs.Prelude.{◌≡◌, ◌<◌, ◌≤◌, ◌++◌, ◌-◌, min, position, take, drop, length, [], Some, None, true, false, IsSome, IfOk, OnOk, OnErr, MatchResult, IfSome, IfNone, OnSome, string_bytes, if◌then◌else◌, is_ok};
ghost use Rattle.std.specs.Str.{bytes_eq};
ghost use Rattle.dns_values.specs.Source.{Rose, one_more, is_listed};
ghost use Rattle.resolv_conf.specs.MemFiles.{FilesInMemory, IsShut, file_at, octets_at, octets_of, paths_of};

use crate::file::OpenFile;
use dns_values::{Failed, Octets, Source, copy_front};
use std::collections::BTreeMap;
use std::marker::Model;

/// Files in memory, each at its path, with a list of the calls that fail. No call takes memory.
#[derive(Drop)]
pub struct MemFiles {
    files: BTreeMap<String, Octets>,
    /// Where the open file stands among them, in the order of their paths.
    place: Option<usize>,
    /// How many of its octets were read.
    at: usize,
    fails: Vec<u64>,
    calls: u64,
    faults: u64,
}

impl Model for MemFiles {
    ghost Value = { FilesInMemory };

    ghost view = { λ s. record { paths = paths_of s.files.entries; rest = drop s.at (octets_of s.files.entries s.place); fails = s.fails.items; calls = s.calls; faults = s.faults } };

    ghost invariant = { λ s. s.at ≤ length (octets_of s.files.entries s.place) };
}

impl MemFiles {
    /// These files, none of them open. The calls, `open_file` and `read` together, are numbered
    /// from 0, and those in `fails` fail.
    pub fn new(files: BTreeMap<String, Octets>, fails: Vec<u64>) -> MemFiles
        ensures { result ≡ record { paths = paths_of files.entries; rest = []; fails = fails.items; calls = 0; faults = 0 } }
    {
        MemFiles {
            files,
            place: None,
            at: 0,
            fails,
            calls: 0,
            faults: 0,
        }
    }
}

/// Where the file at a path stands among the files.
fn place_of(files: &BTreeMap<String, Octets>, path: &str) -> Option<usize>
    ensures { result ≡ position (λ f. bytes_eq path.now (string_bytes f.0)) files.now.entries }
{
    files.iter().position(|(key, _)| path == key.as_str())
}

/// Where the file stands that a call opens, if it opens one.
fn place_opened(
    files: &BTreeMap<String, Octets>,
    fails: &[u64],
    call: u64,
    path: &str,
) -> Option<usize>
    ensures not_listed { OnSome result (is_listed call fails.now ≡ false) }
    ensures found { IfSome result (λ place. file_at (paths_of files.now.entries) path.now ≡ Some (octets_at files.now.entries place)) }
    ensures shut { IfNone result (IsShut call fails.now (file_at (paths_of files.now.entries) path.now)) }
{
    if fails.contains(&call) {
        return None;
    }
    place_of(files, path)
}

/// The octets of the file that stands at a place.
fn octets_at(files: &BTreeMap<String, Octets>, place: usize) -> &[u8]
    ensures { result.now ≡ octets_at files.now.entries place }
{
    match files.values().nth(place) {
        Some(octets) => octets.as_slice(),
        None => &[],
    }
}

/// The octets of the open file; none where no file is open.
fn octets_of(files: &BTreeMap<String, Octets>, place: Option<usize>) -> &[u8]
    ensures { result.now ≡ octets_of files.now.entries place }
{
    match place {
        Some(place) => octets_at(files, place),
        None => &[],
    }
}

impl Source for MemFiles {
    ghost left = { λ s. Some s.rest };

    ghost faults = { λ s. s.faults };

    fn read(&mut self, buf: &mut [u8]) -> Result<usize, Failed>
        ensures within { IfOk result (λ n. n ≤ length buf.old) }
        ensures rest { MatchResult result (λ n. self.new.rest ≡ drop n self.old.rest) (λ _. self.new.rest ≡ self.old.rest) }
        ensures front { IfOk result (λ n. (n ≤ length self.old.rest) × (buf.new ≡ take n self.old.rest ++ drop n buf.old)) }
        ensures end { IfOk result (λ n. n ≡ 0 → 0 < length buf.old → self.old.rest ≡ []) }
        ensures count { self.old.faults ≤ self.new.faults }
        ensures failed { OnErr result (Rose self.old.faults self.new.faults) }
        ensures fails { MatchResult result (λ _. is_listed self.old.calls self.old.fails ≡ false)
            (λ _. is_listed self.old.calls self.old.fails ≡ true) }
        ensures full { IfOk result (λ n. n ≡ min (length buf.old) (length self.old.rest)) }
        ensures counted { self.new.faults ≡ (if is_listed self.old.calls self.old.fails then one_more self.old.faults else self.old.faults) }
        ensures calls { self.new.calls ≡ one_more self.old.calls }
        ensures same { self.new.fails ≡ self.old.fails }
        ensures files { self.new.paths ≡ self.old.paths }
    {
        let call = self.calls;
        self.calls = call.saturating_add(1);
        if self.fails.contains(&call) {
            self.faults = self.faults.saturating_add(1);
            return Err(Failed);
        }
        let n = copy_front(&octets_of(&self.files, self.place)[self.at..], buf);
        self.at += n;
        Ok(n)
    }
}

impl OpenFile for MemFiles {
    ghost files = { λ s. Some (file_at s.paths) };

    fn open_file(&mut self, path: &str) -> Result<(), Failed>
        ensures same { self.new.paths ≡ self.old.paths }
        ensures opened { OnOk result (file_at self.old.paths path.now ≡ Some self.new.rest) }
        ensures count { self.old.faults ≤ self.new.faults }
        ensures failed { OnErr result (Rose self.old.faults self.new.faults) }
        ensures not_listed { OnOk result (is_listed self.old.calls self.old.fails ≡ false) }
        ensures shut { OnErr result (IsShut self.old.calls self.old.fails (file_at self.old.paths path.now)) }
        ensures stays { OnErr result (self.new.rest ≡ self.old.rest) }
        ensures counted { self.new.faults ≡ (if is_ok result then self.old.faults else one_more self.old.faults) }
        ensures calls { self.new.calls ≡ one_more self.old.calls }
        ensures same_fails { self.new.fails ≡ self.old.fails }
    {
        let call = self.calls;
        self.calls = call.saturating_add(1);
        match place_opened(&self.files, &self.fails, call, path) {
            Some(place) => {
                self.place = Some(place);
                self.at = 0;
                Ok(())
            }
            None => {
                self.faults = self.faults.saturating_add(1);
                Err(Failed)
            }
        }
    }
}
