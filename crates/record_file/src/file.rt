//! A file that is written from its beginning on.

ghost use Rattle.std.specs.Prelude.{◌≡◌, ◌≤◌, ◌<◌, None, length, IfOk, IfErr, OnOk, OnErr};
ghost use Rattle.dns_values.specs.Source.{Rose, one_more};
ghost use Rattle.dns_values.specs.declared.sink.SinkFault.{SinkFault};

use dns_values::{Failed, Sink, SinkFault, StdSink};
use std::fs::OpenOptions;
use std::marker::Model;
use std::os::unix::fs::OpenOptionsExt;
use std::rt::Files;

/// Its owner may read and write it, and nobody else.
const OWNERS_ALONE: u32 = 0o600;

/// A file that is made at the first write, for its owner alone. A write fails where there is a file of that name, or none can be made.
/// What contracts see is the count of its faults.
#[derive(Drop)]
pub struct RecordFile<R: Files + Drop> {
    rt: R,
    path: String,
    file: Option<StdSink<R::File>>,
    faults: u64,
}

impl<R: Files + Drop> Model for RecordFile<R> {
    ghost use Rattle.std.specs.Prelude.{ℕ};

    ghost Value = { ℕ };

    ghost view = { λ f. f.faults };
}

impl<R: Files + Drop> RecordFile<R> {
    /// A file of this name, which is not made yet.
    pub fn new(rt: R, path: String) -> RecordFile<R>
        ensures { result ≡ 0 }
    {
        RecordFile {
            rt,
            path,
            file: None,
            faults: 0,
        }
    }

    fn count_fault(&mut self)
        ensures count { self.new ≡ one_more self.old }
        ensures rose { Rose self.old self.new }
    {
        self.faults = self.faults.saturating_add(1);
    }

    /// Makes the file, unless that was done.
    fn make(&mut self) -> Result<(), Failed>
        ensures same { OnOk result (self.new ≡ self.old) }
        ensures count { self.old ≤ self.new }
        ensures rose { OnErr result (Rose self.old self.new) }
    {
        if self.file.is_some() {
            return Ok(());
        }
        let mut how = OpenOptions::new();
        how.write(true);
        how.create_new(true);
        how.mode(OWNERS_ALONE);
        match how.open(&self.rt, self.path.as_str()) {
            Ok(file) => {
                self.file = Some(StdSink::new(file));
                Ok(())
            }
            Err(_) => {
                self.count_fault();
                Err(Failed)
            }
        }
    }
}

impl<R: Files + Drop> Sink for RecordFile<R> {
    ghost held = { λ _. None };

    ghost faults = { λ f. f };

    fn write(&mut self, buf: &[u8]) -> Result<usize, SinkFault>
        ensures within { IfOk result (λ n. n ≤ length buf.now) }
        ensures count { self.old ≤ self.new }
        ensures failed { IfErr result (λ e. e ≡ SinkFault.Failed → Rose self.old self.new) }
        ensures nothing_taken { IfOk result (λ n. n ≡ 0 → 0 < length buf.now → Rose self.old self.new) }
    {
        self.make()?;
        let answer = match &mut self.file {
            Some(file) => file.write(buf),
            None => Err(SinkFault::Failed),
        };
        match answer {
            Ok(n) => {
                if n == 0 {
                    self.count_fault();
                }
                Ok(n)
            }
            Err(fault) => {
                self.count_fault();
                Err(fault)
            }
        }
    }

    fn flush(&mut self) -> Result<(), Failed>
        ensures count { self.old ≤ self.new }
        ensures failed { OnErr result (Rose self.old self.new) }
    {
        let answer = match &mut self.file {
            Some(file) => file.flush(),
            None => Ok(()),
        };
        if answer.is_err() {
            self.count_fault();
        }
        answer
    }
}
