//! Names as text that stands among other text.

ghost use Rattle.std.specs.Prelude.{Some};
ghost use Rattle.std.specs.Fmt.{WritesOnOk};
ghost use Rattle.dns_presentation.specs.Names.{name_octet, ended_label, ended_labels, absolute_text};

use crate::octets::Numbered;
use dns_base::ParsedName;
use std::fmt::{self, Display};

/// An octet of a label.
#[derive(Clone, Copy)]
struct NameOctet(u8);

impl Display for NameOctet {
    ghost output = { λ o. Some (name_octet o.0) };

    fn fmt<W: fmt::Write>(&self, f: &mut fmt::Formatter<W>) -> fmt::Result {
        let c = char::from(self.0);
        match self.0 {
            b'a'..=b'z' | b'A'..=b'Z' | b'0'..=b'9' | b'-' | b'_' | b'*' | b'/' => write!(f, "{c}"),
            b'#' => f.write(Numbered(self.0)),
            b'!'..=b'~' => write!(f, "\\{c}"),
            _ => f.write(Numbered(self.0)),
        }
    }
}

/// The octets of a label, and the dot behind it.
#[derive(Clone, Copy)]
struct EndedLabel<'a>(&'a [u8]);

impl Display for EndedLabel<'_> {
    ghost output = { λ l. Some (ended_label l.0.now) };

    fn fmt<W: fmt::Write>(&self, f: &mut fmt::Formatter<W>) -> fmt::Result {
        for octet in self.0 {
            f.write(NameOctet(*octet))?;
        }
        write!(f, ".")
    }
}

/// Labels with a dot behind each.
fn write_labels<W: fmt::Write>(name: &ParsedName<'_>, f: &mut fmt::Formatter<W>) -> fmt::Result
    ensures { WritesOnOk W.Write.write_str_gives f.old result (ended_labels name.now) f.new }
{
    let mut labels = name.labels();
    let Some(first) = labels.next() else {
        return Ok(());
    };
    f.write(EndedLabel(first))?;
    for label in labels {
        f.write(EndedLabel(label))?;
    }
    Ok(())
}

/// A name as it stands among other text: each label with a dot behind it, a dot alone for the root. Letters, digits and
/// `-`, `_`, `*`, `/` stand for themselves, other printable characters stand behind a backslash, and `#`, the blank
/// and what isn't printable ASCII are `\DDD` (RFC 1035 5.1).
#[derive(Clone, Copy)]
pub struct Absolute<'s, 'a>(pub &'s ParsedName<'a>);

impl Display for Absolute<'_, '_> {
    ghost output = { λ n. Some (absolute_text n.0.now) };

    fn fmt<W: fmt::Write>(&self, f: &mut fmt::Formatter<W>) -> fmt::Result {
        if self.0.is_root() {
            return write!(f, ".");
        }
        write_labels(self.0, f)
    }
}
