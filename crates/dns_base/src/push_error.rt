//! Why an entry was not written.

ghost use Rattle.std.specs.Prelude.{◌≡◌, Some};
ghost use Rattle.dns_base.specs.ErrorText.{push_error_text};
ghost use Rattle.dns_base.specs.declared.push_error.PushError.TheVariants as refusals;

use dns_values::NoMemory;
use std::alloc::AllocError;
use std::error::Error;
use std::fmt::{self, Display};

/// Why a push was refused. The builder is then as it was.
#[derive(Clone, Copy, Debug, PartialEq, Eq)]
pub enum PushError {
    /// The section has 65535 entries.
    Count,
    /// The message would pass its limit of octets.
    Limit,
    /// Memory ran out.
    NoMemory,
}

impl From<NoMemory> for PushError {
    ghost from_gives = { λ _ e. e ≡ refusals.NoMemory };

    fn from(_e: NoMemory) -> PushError {
        PushError::NoMemory
    }
}

impl From<AllocError> for PushError {
    ghost from_gives = { λ _ e. e ≡ refusals.NoMemory };

    fn from(_e: AllocError) -> PushError {
        PushError::NoMemory
    }
}

impl Display for PushError {
    ghost output = { λ error. Some (push_error_text error) };

    fn fmt<W: fmt::Write>(&self, f: &mut fmt::Formatter<W>) -> fmt::Result {
        match self {
            PushError::Count => f.write_str("the section is full"),
            PushError::Limit => f.write_str("the message would pass its limit"),
            PushError::NoMemory => f.write_str("out of memory"),
        }
    }
}

impl Error for PushError {}
