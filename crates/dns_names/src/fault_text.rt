//! What faults say when they are printed.

ghost use Rattle.std.specs.Prelude.{Some};
ghost use Rattle.dns_names.specs.FaultText.{chain_fault_text, name_fault_text};

use crate::fault::{ChainFault, NameFault};
use std::error::Error;
use std::fmt::{self, Display};

impl Display for NameFault {
    ghost output = { λ fault. Some (name_fault_text fault) };

    fn fmt<W: fmt::Write>(&self, f: &mut fmt::Formatter<W>) -> fmt::Result {
        match self {
            NameFault::Parse => f.write_str("the text is no name"),
            NameFault::Long => f.write_str("the name is too long"),
            NameFault::NoMemory => f.write_str("out of memory"),
        }
    }
}

impl Error for NameFault {}

impl Display for ChainFault {
    ghost output = { λ fault. Some (chain_fault_text fault) };

    fn fmt<W: fmt::Write>(&self, f: &mut fmt::Formatter<W>) -> fmt::Result {
        match self {
            ChainFault::Long => f.write_str("the name is too long"),
            ChainFault::NoMemory => f.write_str("out of memory"),
        }
    }
}

impl Error for ChainFault {}
