//! Octets as hexadecimal digits.

use std::fmt::{self, Display};

/// Octets as digits, and none as `-`.
#[derive(Clone, Copy)]
pub struct Hex<'a>(pub &'a [u8]);

impl Display for Hex<'_> {
    fn fmt<W: fmt::Write>(&self, f: &mut fmt::Formatter<W>) -> fmt::Result {
        if self.0.is_empty() {
            return write!(f, "-");
        }
        for octet in self.0 {
            write!(f, "{octet:02x}")?;
        }
        Ok(())
    }
}
