//! Data of any type as text.

ghost use Rattle.std.specs.Prelude.{Some};
ghost use Rattle.dns_presentation.specs.Generic.{generic_text};

use crate::octets::Hex;
use std::fmt::{self, Display};

/// Octets of data that aren't looked into: `\#`, how many there are, and two hexadecimal digits for each (RFC 3597 5).
#[derive(Clone, Copy)]
pub struct Generic<'a>(pub &'a [u8]);

impl Display for Generic<'_> {
    ghost output = { λ g. Some (generic_text g.0.now) };

    fn fmt<W: fmt::Write>(&self, f: &mut fmt::Formatter<W>) -> fmt::Result {
        let count = self.0.len();
        if count == 0 {
            return write!(f, "\\# {count}");
        }
        let digits = Hex(self.0);
        write!(f, "\\# {count} {digits}")
    }
}
