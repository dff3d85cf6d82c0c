//! Why a line was not taken.

ghost use Rattle.std.specs.Prelude.{◌≡◌, Some};

use dns_names::NameFault;
use dns_values::NoMemory;
use std::error::Error;
use std::fmt::{self, Display};

/// Why a line was not taken.
#[derive(Clone, Copy, Debug, PartialEq, Eq)]
pub enum LineFault {
    /// The line is outside the grammar.
    Parse,
    /// Memory ran out.
    NoMemory,
}

impl Display for LineFault {
    ghost use Rattle.resolv_conf.specs.Fault.{line_fault_text};

    ghost output = { λ fault. Some (line_fault_text fault) };

    fn fmt<W: fmt::Write>(&self, f: &mut fmt::Formatter<W>) -> fmt::Result {
        match self {
            LineFault::Parse => f.write_str("the line is outside the grammar"),
            LineFault::NoMemory => f.write_str("out of memory"),
        }
    }
}

impl Error for LineFault {}

impl From<NoMemory> for LineFault {
    ghost use Rattle.resolv_conf.specs.declared.fault.LineFault.{LineFault};

    ghost from_gives = { λ _ e. e ≡ LineFault.NoMemory };

    fn from(_e: NoMemory) -> LineFault {
        LineFault::NoMemory
    }
}

impl From<NameFault> for LineFault {
    ghost use Rattle.resolv_conf.specs.Fault.{line_fault};

    ghost from_gives = { λ fault e. e ≡ line_fault fault };

    fn from(fault: NameFault) -> LineFault {
        match fault {
            NameFault::Parse | NameFault::Long => LineFault::Parse,
            NameFault::NoMemory => LineFault::NoMemory,
        }
    }
}
