//! A file of the system, by its path.

ghost use Rattle.std.specs.Prelude.{◌≡◌, None};

use client_edge::FileOpener;
use dns_values::{Failed, Source};
use resolv_conf::OpenFile;
use std::marker::Model;
use std::rt::Files;

/// A source of the octets of a file, which is opened at the first read. Where it can't be opened, that read fails. What contracts see is
/// the count of its faults.
#[derive(Drop)]
pub struct NamedFile<'a, R: Files + Drop> {
    opener: FileOpener<R>,
    path: &'a str,
    is_open: bool,
}

impl<'a, R: Files + Drop> Model for NamedFile<'a, R> {
    ghost use Rattle.std.specs.Prelude.{ℕ};

    ghost Value = { ℕ };

    ghost view = { λ f. f.opener };
}

impl<'a, R: Files + Drop> NamedFile<'a, R> {
    /// The file at a path, which is not open yet.
    pub fn new(opener: FileOpener<R>, path: &'a str) -> NamedFile<'a, R>
        ensures { result ≡ opener }
    {
        NamedFile {
            opener,
            path,
            is_open: false,
        }
    }
}

impl<R: Files + Drop> Source for NamedFile<'_, R> {
    ghost left = { λ _. None };

    ghost faults = { λ f. f };

    fn read(&mut self, buf: &mut [u8]) -> Result<usize, Failed> {
        if !self.is_open {
            self.opener.open_file(self.path)?;
            self.is_open = true;
        }
        self.opener.read(buf)
    }
}
