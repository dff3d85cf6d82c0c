//! Names as text.

ghost use Rattle.std.specs.Prelude.{◌≡◌, Some};
ghost use Rattle.std.specs.Fmt.{WritesOnOk};
ghost use Rattle.dns_names.specs.Text.{octet_text, label_text, relative_text, name_text};

use crate::name::ParsedName;
use crate::owned::{Name, ToName};
use crate::relative::RelativeName;
use std::fmt::{self, Display};

/// An octet of a label.
#[derive(Clone, Copy)]
struct Octet(u8);

impl Display for Octet {
    ghost output = { λ o. Some (octet_text o.0) };

    fn fmt<W: fmt::Write>(&self, f: &mut fmt::Formatter<W>) -> fmt::Result {
        let octet = self.0;
        let c = char::from(octet);
        match octet {
            b'.' | b'\\' => write!(f, "\\{c}"),
            b'!'..=b'~' => write!(f, "{c}"),
            _ => {
                let hundreds = octet / 100;
                let tens = octet / 10 % 10;
                let ones = octet % 10;
                write!(f, "\\{hundreds}{tens}{ones}")
            }
        }
    }
}

/// The octets of a label.
#[derive(Clone, Copy)]
struct Label<'a>(&'a [u8]);

impl Display for Label<'_> {
    ghost output = { λ l. Some (label_text l.0.now) };

    fn fmt<W: fmt::Write>(&self, f: &mut fmt::Formatter<W>) -> fmt::Result {
        for octet in self.0 {
            f.write(Octet(*octet))?;
        }
        Ok(())
    }
}

/// Labels with dots between.
fn write_labels<W: fmt::Write>(name: &ParsedName<'_>, f: &mut fmt::Formatter<W>) -> fmt::Result
    ensures { WritesOnOk W.Write.write_str_gives f.old result (relative_text name.now) f.new }
{
    let mut labels = name.labels();
    let Some(first) = labels.next() else {
        return Ok(());
    };
    f.write(Label(first))?;
    for label in labels {
        write!(f, ".{}", Label(label))?;
    }
    Ok(())
}

/// Labels with dots between, and no final dot; a dot for the root. A dot or a backslash in a label
/// stands behind a backslash, and the blank and what isn't printable ASCII are `\DDD`.
impl Display for ParsedName<'_> {
    ghost output = { λ n. Some (name_text n) };

    fn fmt<W: fmt::Write>(&self, f: &mut fmt::Formatter<W>) -> fmt::Result {
        if self.is_root() {
            return f.write_str(".");
        }
        write_labels(self, f)
    }
}

/// As a `ParsedName` prints.
impl Display for Name {
    ghost output = { λ n. Some (name_text n) };

    fn fmt<W: fmt::Write>(&self, f: &mut fmt::Formatter<W>) -> fmt::Result {
        Display::fmt(&self.parsed(), f)
    }
}

/// As a `Name` prints; no labels are the empty text.
impl Display for RelativeName {
    ghost output = { λ n. Some (relative_text n) };

    fn fmt<W: fmt::Write>(&self, f: &mut fmt::Formatter<W>) -> fmt::Result {
        write_labels(&self.as_absolute().parsed(), f)
    }
}
