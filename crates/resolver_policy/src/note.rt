//! What is told of a configuration.

ghost use Rattle.std.specs.Prelude.{Some};

use dns_values::Seq;
use std::fmt::{self, Display};

/// What is told of a line.
#[derive(Clone, Copy, Debug, PartialEq, Eq)]
pub enum Why {
    /// It is not UTF-8, its comment aside, and was skipped.
    NotUtf8,
    /// What stands behind `nameserver` is not one address. An address that stands first is taken.
    Server,
    /// A zone identifier stands behind its address (RFC 4007 11). The address alone is asked, and the rest of the line is dropped.
    Zone,
    /// What stands behind `domain` is not one name. A name that stands first is taken.
    Domain,
    /// What stands behind `search` is not names, and none of them is taken.
    Search,
    /// An option has no number behind its colon, and was skipped. The others are taken.
    Option,
    /// Its first word is none that is known, and it was skipped.
    Keyword,
}

/// What is told of the line of a number, counted from 1.
#[derive(Clone, Copy, Debug, PartialEq, Eq)]
pub struct Note {
    /// The line's number.
    pub line: u64,
    /// What is told of it.
    pub why: Why,
}

/// What is told of the lines of a file, in their order.
pub type Notes = Seq<Note>;

impl Display for Why {
    ghost use Rattle.resolver_policy.specs.Notes.{why_text};

    ghost output = { λ why. Some (why_text why) };

    fn fmt<W: fmt::Write>(&self, f: &mut fmt::Formatter<W>) -> fmt::Result {
        f.write_str(match self {
            Why::NotUtf8 => "skipped, since it is not UTF-8",
            Why::Server => "has something else than one address behind nameserver",
            Why::Zone => "has a zone identifier, which is dropped with what stands behind it",
            Why::Domain => "has something else than one name behind domain",
            Why::Search => "skipped, since it has something else than names behind search",
            Why::Option => "has an option without its number, which is skipped",
            Why::Keyword => "skipped, since its first word is not known",
        })
    }
}

impl Display for Note {
    ghost use Rattle.resolver_policy.specs.Notes.{note_text};

    ghost output = { λ note. Some (note_text note) };

    fn fmt<W: fmt::Write>(&self, f: &mut fmt::Formatter<W>) -> fmt::Result {
        write!(f, "line {} {}", self.line, self.why)
    }
}
