//! Why a name was not made.

ghost use Rattle.std.specs.Prelude.{◌≡◌};
ghost use Rattle.dns_names.specs.declared.fault.NameFault.TheVariants as NameFault;
ghost use Rattle.dns_names.specs.declared.fault.ChainFault.TheVariants as ChainFault;

use dns_values::NoMemory;
use std::alloc::{AllocError, AllocFailed};

/// Why a text was not read as a name.
#[derive(Clone, Copy, Debug, PartialEq, Eq)]
pub enum NameFault {
    /// The text is outside the grammar.
    Parse,
    /// The text is in the grammar, and a label passes 63 octets or the name its greatest length.
    Long,
    /// Memory ran out.
    NoMemory,
}

/// Why two names were not chained.
#[derive(Clone, Copy, Debug, PartialEq, Eq)]
pub enum ChainFault {
    /// The name would pass 255 octets.
    Long,
    /// Memory ran out.
    NoMemory,
}

impl From<NoMemory> for NameFault {
    ghost from_gives = { λ _ e. e ≡ NameFault.NoMemory };

    fn from(_e: NoMemory) -> NameFault {
        NameFault::NoMemory
    }
}

impl From<AllocError> for NameFault {
    ghost from_gives = { λ _ e. e ≡ NameFault.NoMemory };

    fn from(_e: AllocError) -> NameFault {
        NameFault::NoMemory
    }
}

impl<T: Drop> From<AllocFailed<T>> for NameFault {
    ghost from_gives = { λ _ e. e ≡ NameFault.NoMemory };

    fn from(_e: AllocFailed<T>) -> NameFault {
        NameFault::NoMemory
    }
}

impl From<NoMemory> for ChainFault {
    ghost from_gives = { λ _ e. e ≡ ChainFault.NoMemory };

    fn from(_e: NoMemory) -> ChainFault {
        ChainFault::NoMemory
    }
}

impl From<AllocError> for ChainFault {
    ghost from_gives = { λ _ e. e ≡ ChainFault.NoMemory };

    fn from(_e: AllocError) -> ChainFault {
        ChainFault::NoMemory
    }
}

impl<T: Drop> From<AllocFailed<T>> for ChainFault {
    ghost from_gives = { λ _ e. e ≡ ChainFault.NoMemory };

    fn from(_e: AllocFailed<T>) -> ChainFault {
        ChainFault::NoMemory
    }
}
