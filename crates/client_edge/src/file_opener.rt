//! Files of the system.

ghost use Rattle.std.specs.Prelude.{◌≡◌, ◌≤◌, None, length, IfOk, OnErr, if◌then◌else◌, is_ok};
ghost use Rattle.dns_values.specs.Source.{Rose, one_more};

use dns_values::{Failed, Source, StdSource};
use resolv_conf::OpenFile;
use std::fs;
use std::marker::Model;
use std::rt::Files;

/// Opens files of the system, and reads the one that was opened last. What contracts see is the count of its faults.
///
/// Before a file is opened there is nothing to read. After a refused opening the file that was open stays so.
#[derive(Drop)]
pub struct FileOpener<R: Files + Drop> {
    rt: R,
    file: Option<StdSource<R::File>>,
    faults: u64,
}

impl<R: Files + Drop> Model for FileOpener<R> {
    ghost use Rattle.std.specs.Prelude.{ℕ};

    ghost Value = { ℕ };

    ghost view = { λ o. o.faults };
}

impl<R: Files + Drop> FileOpener<R> {
    /// An opener that has opened no file.
    pub fn new(rt: R) -> FileOpener<R>
        ensures { result ≡ 0 }
    {
        FileOpener {
            rt,
            file: None,
            faults: 0,
        }
    }
}

impl<R: Files + Drop> Source for FileOpener<R> {
    ghost left = { λ _. None };

    ghost faults = { λ o. o };

    fn read(&mut self, buf: &mut [u8]) -> Result<usize, Failed>
        ensures within { IfOk result (λ n. n ≤ length buf.old) }
        ensures count { self.old ≤ self.new }
        ensures failed { OnErr result (Rose self.old self.new) }
        ensures counted { self.new ≡ (if is_ok result then self.old else one_more self.old) }
    {
        let answer = match &mut self.file {
            Some(file) => file.read(buf),
            None => Ok(0),
        };
        if answer.is_err() {
            self.faults = self.faults.saturating_add(1);
        }
        answer
    }
}

impl<R: Files + Drop> OpenFile for FileOpener<R> {
    ghost files = { λ _. None };

    fn open_file(&mut self, path: &str) -> Result<(), Failed>
        ensures count { self.old ≤ self.new }
        ensures failed { OnErr result (Rose self.old self.new) }
        ensures counted { self.new ≡ (if is_ok result then self.old else one_more self.old) }
    {
        match fs::File::open(&self.rt, path) {
            Ok(file) => {
                self.file = Some(StdSource::new(file));
                Ok(())
            }
            Err(_) => {
                self.faults = self.faults.saturating_add(1);
                Err(Failed)
            }
        }
    }
}
