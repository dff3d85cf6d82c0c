//! Files of the system that are put in the place of others.

ghost use Rattle.std.specs.Prelude.{◌≡◌, ◌≢◌, ◌≤◌, ◌<◌, None, length, IfOk, IfErr, IfSome, OnOk, OnErr};
ghost use Rattle.dns_values.specs.Source.{Rose, one_more};
ghost use Rattle.dns_values.specs.declared.sink.SinkFault.{SinkFault};

use dns_values::{Failed, Sink, SinkFault, StdSink};
use std::alloc::Global;
use std::fs;
use std::marker::Model;
use std::rt::Files;
use zone_fetch_run::Replacing;

/// A file that is written beside another. What contracts see is the count of its faults.
#[derive(Drop)]
pub struct NewFile<R: Files + Drop> {
    file: StdSink<R::File>,
    faults: u64,
}

impl<R: Files + Drop> Model for NewFile<R> {
    ghost use Rattle.std.specs.Prelude.{ℕ};

    ghost Value = { ℕ };

    ghost view = { λ f. f.faults };
}

impl<R: Files + Drop> Sink for NewFile<R> {
    ghost held = { λ _. None };

    ghost faults = { λ f. f };

    fn write(&mut self, buf: &[u8]) -> Result<usize, SinkFault>
        ensures within { IfOk result (λ n. n ≤ length buf.now) }
        ensures count { self.old ≤ self.new }
        ensures failed { IfErr result (λ e. e ≡ SinkFault.Failed → Rose self.old self.new) }
        ensures nothing_taken { IfOk result (λ n. n ≡ 0 → 0 < length buf.now → Rose self.old self.new) }
    {
        match self.file.write(buf) {
            Ok(n) => {
                if n == 0 {
                    self.faults = self.faults.saturating_add(1);
                }
                Ok(n)
            }
            Err(fault) => {
                self.faults = self.faults.saturating_add(1);
                Err(fault)
            }
        }
    }

    fn flush(&mut self) -> Result<(), Failed>
        ensures count { self.old ≤ self.new }
        ensures failed { OnErr result (Rose self.old self.new) }
    {
        let answer = self.file.flush();
        if answer.is_err() {
            self.faults = self.faults.saturating_add(1);
        }
        answer
    }
}

/// Writes files of the system beside others, under the name of the other, a dot and a number, and puts each in the place of that one by
/// one rename. What contracts see is the count of its faults. Where the program is killed before that, the file beside stays.
#[derive(Drop)]
pub struct FilesBeside<R: Files + Drop> {
    rt: R,
    alloc: Global,
    /// What tells the file's name from those of other runs.
    number: u64,
    /// The name of the file that was begun last.
    beside: Option<String>,
    faults: u64,
}

impl<R: Files + Drop> Model for FilesBeside<R> {
    ghost use Rattle.std.specs.Prelude.{ℕ};

    ghost Value = { ℕ };

    ghost view = { λ f. f.faults };
}

impl<R: Files + Drop> FilesBeside<R> {
    /// Files whose names end with this number.
    pub fn new(rt: R, alloc: Global, number: u64) -> FilesBeside<R>
        ensures { result ≡ 0 }
    {
        FilesBeside {
            rt,
            alloc,
            number,
            beside: None,
            faults: 0,
        }
    }

    fn count_fault(&mut self)
        ensures count { self.new ≡ one_more self.old }
        ensures rose { Rose self.old self.new }
    {
        self.faults = self.faults.saturating_add(1);
    }

    /// Takes the file that was begun last away, as far as the system lets it.
    fn remove(&mut self)
        ensures { self.new ≡ self.old }
    {
        if let Some(beside) = &self.beside {
            let _ = fs::remove_file(&self.rt, beside.as_str());
        }
        self.beside = None;
    }

    /// Makes the file beside the one at a path.
    fn make(&mut self, path: &str) -> Option<NewFile<R>>
        ensures same { self.new ≡ self.old }
        ensures unhurt { IfSome result (λ file. file ≡ 0) }
    {
        let number = self.number;
        let beside = format!(in self.alloc; "{path}.{number}").ok()?;
        let file = fs::File::create_new(&self.rt, beside.as_str()).ok()?;
        self.beside = Some(beside);
        Some(NewFile {
            file: StdSink::new(file),
            faults: 0,
        })
    }

    /// Gives the file that was begun last the name of another.
    fn rename(&mut self, path: &str) -> bool
        ensures { self.new ≡ self.old }
    {
        match &self.beside {
            Some(beside) => fs::rename(&self.rt, beside.as_str(), path).is_ok(),
            None => false,
        }
    }
}

impl<R: Files + Drop> Replacing for FilesBeside<R> {
    type File = NewFile<R>;

    ghost placed = { λ _. None };

    ghost faults = { λ f. f };

    fn begin(&mut self, path: &str) -> Result<NewFile<R>, Failed>
        ensures unhurt { IfOk result (λ file. file ≡ 0) }
        ensures count { self.old ≤ self.new }
        ensures failed { OnErr result (Rose self.old self.new) }
    {
        match self.make(path) {
            Some(file) => Ok(file),
            None => {
                self.count_fault();
                Err(Failed)
            }
        }
    }

    fn place(&mut self, file: NewFile<R>, path: &str) -> Result<(), Failed>
        ensures count { self.old ≤ self.new }
        ensures failed { OnErr result (Rose self.old self.new) }
    {
        drop(file);
        if self.rename(path) {
            return Ok(());
        }
        self.remove();
        self.count_fault();
        Err(Failed)
    }

    fn abandon(&mut self, file: NewFile<R>)
        ensures count { self.old ≤ self.new }
        ensures failed { file ≢ 0 → Rose self.old self.new }
    {
        let has_failed = file.faults != 0;
        drop(file);
        self.remove();
        if has_failed {
            self.count_fault();
        }
    }
}
