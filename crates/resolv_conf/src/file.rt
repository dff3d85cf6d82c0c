//! Reading a configuration from a file.

ghost use Rattle.std.specs.Prelude.{◌≡◌, ◌≢◌, ℕ, ◌≤◌, List, Option, Err, IsSome, OnOk, OnErr, IfOk, MatchResult, IfSome};
ghost use Rattle.dns_values.specs.Source.{Rose};
ghost use Rattle.resolv_conf.specs.Files.{FileAnswers, IsDefaultOf, system_file};

use crate::conf::ResolvConf;
use crate::error::{Error, IoFault};
use dns_values::{Failed, NoMemory, Source};
use std::alloc::Global;

/// The file of the system's configuration.
const SYSTEM_FILE: &str = "/etc/resolv.conf";

/// What opens a file, and then gives its octets.
///
/// One file is open at a time: after `open_file`, `read` reads that file from its start. The
/// count of faults is that of the `Source`. Where it knows its files it tells the octets at each
/// path; no call changes them.
pub trait OpenFile: Source {
    ghost files: { Self → Option (List ℕ → Option (List ℕ)) };

    /// Opens the file at a path. `Failed` only where the count of faults rose, and always where
    /// there is no such file.
    fn open_file(&mut self, path: &str) -> Result<(), Failed>
        ensures same { files self.new ≡ files self.old }
        ensures opened { OnOk result (IfSome (files self.old) (λ file_at. IsSome (file_at path.now)
            × (Self.left self.new ≡ file_at path.now))) }
        ensures count { Self.faults self.old ≤ Self.faults self.new }
        ensures failed { OnErr result (Rose (Self.faults self.old) (Self.faults self.new)) };
}

impl ResolvConf {
    /// Reads the file at a path as `parse` reads a source. A file that isn't opened is `Io(Read)`.
    pub fn parse_file<O: OpenFile>(
        &mut self,
        alloc: Global,
        opener: &mut O,
        path: &str,
    ) -> Result<(), Error>
        ensures answer { IfSome (O.files opener.old) (λ file_at. FileAnswers (file_at path.now) self.old result self.new) }
        ensures too_long { result ≡ Err (Error.TooLong) → self.new ≡ self.old }
        ensures not_read { result ≡ Err (Error.Io IoFault.Read) → self.new ≡ self.old }
        ensures failed { result ≡ Err (Error.Io IoFault.Read) → Rose (O.faults opener.old) (O.faults opener.new) }
        ensures count { O.faults opener.old ≤ O.faults opener.new }
    {
        match opener.open_file(path) {
            Ok(()) => self.parse(alloc, opener),
            Err(Failed) => Err(Error::Io(IoFault::Read)),
        }
    }

    /// What `/etc/resolv.conf` says, finalized. Any fault but want of memory is dropped, with what
    /// `parse_file` leaves after it.
    pub fn default<O: OpenFile>(alloc: Global, opener: &mut O) -> Result<ResolvConf, NoMemory>
        ensures read { IfOk result (λ conf. IfSome (O.files opener.old) (λ file_at.
            IsDefaultOf (file_at system_file) (O.faults opener.old) (O.faults opener.new) conf)) }
        ensures count { O.faults opener.old ≤ O.faults opener.new }
    {
        let mut conf = ResolvConf::new(alloc);
        had_memory(conf.parse_file(alloc, opener, SYSTEM_FILE))?;
        conf.finalize(alloc)?;
        Ok(conf)
    }
}

/// Drops any fault but want of memory.
fn had_memory(answer: Result<(), Error>) -> Result<(), NoMemory>
    ensures { MatchResult result (λ _. answer ≢ Err (Error.NoMemory)) (λ _. answer ≡ Err (Error.NoMemory)) }
{
    match answer {
        Err(Error::NoMemory) => Err(NoMemory),
        _ => Ok(()),
    }
}
