//! The file that says which servers are asked.

ghost use Rattle.std.specs.Prelude.{◌≡◌, ◌≤◌, None, length, IfOk, OnErr, if◌then◌else◌, is_ok};
ghost use Rattle.dns_values.specs.Source.{Rose, one_more};

use crate::file_opener::FileOpener;
use dns_values::{Failed, Source};
use resolv_conf::OpenFile;
use std::marker::Model;
use std::rt::Files;

/// The file of the system's configuration.
const RESOLV_CONF: &str = "/etc/resolv.conf";

/// A source of the octets of `/etc/resolv.conf`, which is opened at the first read. Where it can't be opened, that read fails. What
/// contracts see is the count of its faults.
#[derive(Drop)]
pub struct ConfFile<R: Files + Drop> {
    opener: FileOpener<R>,
    is_open: bool,
}

impl<R: Files + Drop> Model for ConfFile<R> {
    ghost use Rattle.std.specs.Prelude.{ℕ};

    ghost Value = { ℕ };

    ghost view = { λ f. f.opener };
}

impl<R: Files + Drop> ConfFile<R> {
    /// The file, which is not open yet.
    pub fn new(opener: FileOpener<R>) -> ConfFile<R>
        ensures { result ≡ opener }
    {
        ConfFile {
            opener,
            is_open: false,
        }
    }
}

impl<R: Files + Drop> Source for ConfFile<R> {
    ghost left = { λ _. None };

    ghost faults = { λ f. f };

    fn read(&mut self, buf: &mut [u8]) -> Result<usize, Failed>
        ensures within { IfOk result (λ n. n ≤ length buf.old) }
        ensures count { self.old ≤ self.new }
        ensures failed { OnErr result (Rose self.old self.new) }
        ensures counted { self.new ≡ (if is_ok result then self.old else one_more self.old) }
    {
        if !self.is_open {
            self.opener.open_file(RESOLV_CONF)?;
            self.is_open = true;
        }
        self.opener.read(buf)
    }
}
