//! Character strings as text.

ghost use Rattle.std.specs.Prelude.{Some};
ghost use Rattle.std.specs.List.{flat_map};
ghost use Rattle.dns_presentation.specs.Strings.{string_octet, string_text};

use crate::octets::Numbered;
use std::fmt::{self, Display};

/// An octet of a string.
#[derive(Clone, Copy)]
struct StringOctet(u8);

impl Display for StringOctet {
    ghost output = { λ o. Some (string_octet o.0) };

    fn fmt<W: fmt::Write>(&self, f: &mut fmt::Formatter<W>) -> fmt::Result {
        let c = char::from(self.0);
        match self.0 {
            b'"' | b'\\' => write!(f, "\\{c}"),
            b' '..=b'~' => write!(f, "{c}"),
            _ => f.write(Numbered(self.0)),
        }
    }
}

/// The octets of a string without its quotes: a quote and a backslash stand behind a backslash, and what isn't
/// printable ASCII is `\DDD`.
#[derive(Clone, Copy)]
pub(crate) struct Unquoted<'a>(pub(crate) &'a [u8]);

impl Display for Unquoted<'_> {
    ghost output = { λ s. Some (flat_map string_octet s.0.now) };

    fn fmt<W: fmt::Write>(&self, f: &mut fmt::Formatter<W>) -> fmt::Result {
        for octet in self.0 {
            f.write(StringOctet(*octet))?;
        }
        Ok(())
    }
}

/// The octets of a character string, which prints between quotes. A quote or a backslash in it stands behind a
/// backslash, and what isn't printable ASCII is `\DDD` (RFC 1035 5.1).
#[derive(Clone, Copy)]
pub struct CharacterString<'a>(pub &'a [u8]);

impl Display for CharacterString<'_> {
    ghost output = { λ s. Some (string_text s.0.now) };

    fn fmt<W: fmt::Write>(&self, f: &mut fmt::Formatter<W>) -> fmt::Result {
        let octets = Unquoted(self.0);
        write!(f, "\"{octets}\"")
    }
}
