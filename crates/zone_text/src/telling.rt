//! What is told of octets that have no zone.

ghost use Rattle.std.specs.Prelude.{◌≡◌, Some};
ghost use Rattle.zone_text.specs.Telling.{flaw_text, part_text};

use crate::fault::LinePart;
use crate::zone::Flaw;
use std::fmt::{self, Display};

fn part_text(part: LinePart) -> &'static str
    ensures { result.now ≡ part_text part }
{
    match part {
        LinePart::End => "no line feed behind it",
        LinePart::Words => "fewer than five words",
        LinePart::Owner => "the owner is no name",
        LinePart::Ttl => "the TTL is no number of 32 bits",
        LinePart::Class => "the class has no such name, and is no number of 16 bits",
        LinePart::Type => "the type has no such name, and is no number of 16 bits",
        LinePart::Data => "the data is not in pairs of hexadecimal digits",
        LinePart::Apex => "an SOA of another zone",
        LinePart::SecondSoa => "a second SOA",
        LinePart::Serial => "an SOA without a serial",
    }
}

/// The line that is wrong and why, or what the whole lacks.
impl Display for Flaw {
    ghost output = { λ flaw. Some (flaw_text flaw) };

    fn fmt<W: fmt::Write>(&self, f: &mut fmt::Formatter<W>) -> fmt::Result {
        match self {
            Flaw::Text => f.write_str("the file is no text"),
            Flaw::Soa => f.write_str("no SOA"),
            Flaw::Line(at) => {
                let line = at.line;
                let wrong = part_text(at.part);
                write!(f, "line {line}: {wrong}")
            }
        }
    }
}
