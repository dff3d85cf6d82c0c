//! Why a configuration was not read.

ghost use Rattle.std.specs.Prelude.{◌≡◌, Some, codes};

use dns_values::{NoMemory, ReadFault};
use std::fmt::{self, Display};

/// Why octets were not read as lines.
#[derive(Clone, Copy, Debug, PartialEq, Eq)]
pub enum IoFault {
    /// Reading or opening failed.
    Read,
    /// This line, counted from 1, isn't UTF-8.
    NotUtf8(u64),
}

/// Why a configuration was not read.
#[derive(Clone, Copy, Debug, PartialEq, Eq)]
pub enum Error {
    /// This line, counted from 1, is outside the grammar.
    ParseError(u64),
    /// The octets were not read, or are no text.
    Io(IoFault),
    /// There are more than 16777216 octets.
    TooLong,
    /// Memory ran out.
    NoMemory,
}

impl Display for IoFault {
    ghost use Rattle.resolv_conf.specs.Error.{io_text};

    ghost output = { λ fault. Some (io_text fault) };

    fn fmt<W: fmt::Write>(&self, f: &mut fmt::Formatter<W>) -> fmt::Result {
        match self {
            IoFault::Read => f.write_str("read failed"),
            IoFault::NotUtf8(_) => f.write_str("line is not UTF-8"),
        }
    }
}

impl std::error::Error for IoFault {}

impl Display for Error {
    ghost use Rattle.resolv_conf.specs.Error.{error_text};

    ghost output = { λ e. Some (error_text e) };

    fn fmt<W: fmt::Write>(&self, f: &mut fmt::Formatter<W>) -> fmt::Result {
        match self {
            Error::ParseError(_) => write!(f, "error parsing configuration"),
            Error::Io(fault) => write!(f, "{fault}"),
            Error::TooLong => write!(f, "input too long"),
            Error::NoMemory => write!(f, "out of memory"),
        }
    }
}

impl std::error::Error for Error {}

impl From<ReadFault> for Error {
    ghost use Rattle.resolv_conf.specs.Error.{read_error};

    ghost from_gives = { λ fault e. e ≡ read_error fault };

    fn from(fault: ReadFault) -> Error {
        match fault {
            ReadFault::Failed => Error::Io(IoFault::Read),
            ReadFault::TooLong => Error::TooLong,
            ReadFault::NoMemory => Error::NoMemory,
        }
    }
}

impl From<NoMemory> for Error {
    ghost use Rattle.resolv_conf.specs.declared.error.Error.TheVariants as Error;

    ghost from_gives = { λ _ e. e ≡ Error.NoMemory };

    fn from(_e: NoMemory) -> Error {
        Error::NoMemory
    }
}
