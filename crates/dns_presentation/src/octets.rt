//! Octets as digits.

ghost use Rattle.std.specs.Prelude.{◌≡◌, ◌<◌, Some};
ghost use Rattle.dns_presentation.specs.Octets.{hex_digit, hex_octet, hex_text, numbered_octet};

use std::fmt::{self, Display};

/// The digit of a number below 16.
fn hex_digit(number: u8) -> u8
    requires { number < 16 }
    ensures value { result ≡ hex_digit number }
    ensures ascii { result < 128 }
{
    if number < 10 {
        48 + number
    } else {
        55 + number
    }
}

/// An octet as two hexadecimal digits.
#[derive(Clone, Copy)]
pub(crate) struct HexOctet(pub(crate) u8);

impl Display for HexOctet {
    ghost output = { λ o. Some (hex_octet o.0) };

    fn fmt<W: fmt::Write>(&self, f: &mut fmt::Formatter<W>) -> fmt::Result {
        let high = char::from(hex_digit(self.0 / 16));
        let low = char::from(hex_digit(self.0 % 16));
        write!(f, "{high}{low}")
    }
}

/// Octets as hexadecimal digits, two for each, in upper case.
#[derive(Clone, Copy)]
pub(crate) struct Hex<'a>(pub(crate) &'a [u8]);

impl Display for Hex<'_> {
    ghost output = { λ h. Some (hex_text h.0.now) };

    fn fmt<W: fmt::Write>(&self, f: &mut fmt::Formatter<W>) -> fmt::Result {
        for octet in self.0 {
            f.write(HexOctet(*octet))?;
        }
        Ok(())
    }
}

/// An octet as a backslash and three decimal digits.
#[derive(Clone, Copy)]
pub(crate) struct Numbered(pub(crate) u8);

impl Display for Numbered {
    ghost output = { λ o. Some (numbered_octet o.0) };

    fn fmt<W: fmt::Write>(&self, f: &mut fmt::Formatter<W>) -> fmt::Result {
        let hundreds = self.0 / 100;
        let tens = self.0 / 10 % 10;
        let ones = self.0 % 10;
        write!(f, "\\{hundreds}{tens}{ones}")
    }
}
