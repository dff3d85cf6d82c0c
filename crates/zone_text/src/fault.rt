//! Why a text is not read.

ghost use Rattle.std.specs.Prelude.{◌≡◌};
ghost use Rattle.zone_text.specs.Saying.{wrong};
ghost use Rattle.zone_text.specs.declared.fault.PartFault.TheVariants as faults;

use dns_base::NoMemory;

/// What is wrong with a line.
#[derive(Clone, Copy, Debug, PartialEq, Eq)]
pub enum LinePart {
    /// No line feed ends it.
    End,
    /// It has fewer than five words.
    Words,
    /// The owner is no name.
    Owner,
    /// The TTL is no number of 32 bits.
    Ttl,
    /// The class has no such name, and is no number of 16 bits.
    Class,
    /// The type has no such name, and is no number of 16 bits.
    Type,
    /// The data is not in pairs of hexadecimal digits.
    Data,
    /// It is an SOA of another zone.
    Apex,
    /// It is an SOA, and not the first.
    SecondSoa,
    /// It is an SOA whose data is too short for a serial.
    Serial,
}

/// A line that is no record, or an SOA that is not the zone's.
#[derive(Clone, Copy, Debug, PartialEq, Eq)]
pub struct WrongLine {
    /// Its number, counted from 1.
    pub line: usize,
    pub part: LinePart,
}

/// Why the lines of a text are not read.
#[derive(Clone, Copy)]
pub(crate) enum TextFault {
    Wrong(WrongLine),
    NoMemory,
}

/// Why a part of a line is not read.
#[derive(Clone, Copy)]
pub(crate) enum PartFault {
    Wrong(LinePart),
    NoMemory,
}

impl From<NoMemory> for PartFault {
    ghost from_gives = { λ _ e. e ≡ faults.NoMemory };

    fn from(_e: NoMemory) -> PartFault {
        PartFault::NoMemory
    }
}
