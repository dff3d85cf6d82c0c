//! A zone of a list.

ghost use Rattle.std.specs.Prelude.{◌≡◌, IfOk};
ghost use Rattle.std.specs.String.{string_bytes};

use dns_base::{Name, NoMemory, SocketAddr};
use dns_values::Seq;
use std::alloc::Global;
use std::marker::Model;

/// The path of a file. A contract sees its octets.
#[derive(Debug)]
pub struct FilePath {
    path: String,
}

impl Drop for FilePath {
    fn drop(self) {
        let FilePath { path: _ } = self;
    }
}

impl Model for FilePath {
    ghost use Rattle.std.specs.Prelude.{ℕ, List};
    ghost use Rattle.std.specs.String.{string_bytes};

    ghost Value = { List ℕ };

    ghost view = { λ p. string_bytes p.path };
}

impl FilePath {
    /// The path that a text is, copied.
    pub(crate) fn new(alloc: Global, text: &str) -> Result<FilePath, NoMemory>
        ensures { IfOk result (λ p. p ≡ text.now) }
    {
        let path = String::from_str(alloc, text)?;
        Ok(FilePath { path })
    }

    /// The text, where it lies.
    pub fn as_str(&self) -> &str
        ensures { result.now ≡ self.now }
    {
        self.path.as_str()
    }
}

/// A zone that is kept.
#[derive(Debug)]
pub struct Listed {
    pub zone: Name,
    /// The file that has the zone.
    pub file: FilePath,
    /// One at least, in the order in which they are asked.
    pub primaries: Seq<SocketAddr>,
}

impl Drop for Listed {
    fn drop(self) {
        let Listed {
            zone: _,
            file: _,
            primaries: _,
        } = self;
    }
}

impl Listed {
    /// The zone, its file and its primaries, each to be owned alone.
    pub fn into_parts(self) -> (Name, FilePath, Seq<SocketAddr>)
        ensures { result ≡ (self.zone, self.file, self.primaries) }
    {
        let Listed {
            zone,
            file,
            primaries,
        } = self;
        (zone, file, primaries)
    }
}
