//! How a command ends before its output is written.

ghost use Rattle.std.specs.Prelude.{◌≡◌};

use crate::statuses::NO_MEMORY;
use dns_base::{NoMemory, Status};
use std::alloc::AllocError;

/// Why a command ends before its output is written: a line is written and the status stands whatever
/// becomes of it, or nothing is written.
#[derive(Drop)]
pub enum Ending {
    /// This status, and a line that says why.
    Says(Status, Vec<u8>),
    /// This status, with nothing written.
    Silent(Status),
}

impl From<AllocError> for Ending {
    ghost use Rattle.command_parts.specs.declared.ending.Ending.{Ending};

    ghost from_gives = { λ _ e. e ≡ Ending.Silent (record { 0 = 6 }) };

    fn from(_error: AllocError) -> Ending {
        Ending::Silent(NO_MEMORY)
    }
}

impl From<NoMemory> for Ending {
    ghost use Rattle.command_parts.specs.declared.ending.Ending.{Ending};

    ghost from_gives = { λ _ e. e ≡ Ending.Silent (record { 0 = 6 }) };

    fn from(_error: NoMemory) -> Ending {
        Ending::Silent(NO_MEMORY)
    }
}
