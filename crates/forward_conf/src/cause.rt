//! Why the program ends without a line of answers.

ghost use Rattle.std.specs.Prelude.{◌≡◌};

use client_request::Fault;
use dns_base::{IpAddr, NoMemory};
use dns_values::SocketAddr;
use std::alloc::AllocError;

/// Why the program ends without a line of answers.
#[derive(Drop)]
pub enum Cause {
    /// The configuration is refused, and this line says why.
    Refused(Vec<u8>),
    /// The source failed.
    SourceFault,
    /// This server of the configuration is the forwarder itself.
    Itself(SocketAddr),
    /// It can't be listened, by this fault: at this address, or at one that the front doesn't know.
    Deaf { at: Option<IpAddr>, fault: Fault },
    /// Memory ran out.
    NoMemory,
    /// Numbers are used up.
    NumbersUsed,
}

impl From<AllocError> for Cause {
    ghost use Rattle.forward_conf.specs.declared.cause.Cause.{Cause};

    ghost from_gives = { λ _ c. c ≡ Cause.NoMemory };

    fn from(_error: AllocError) -> Cause {
        Cause::NoMemory
    }
}

impl From<NoMemory> for Cause {
    ghost use Rattle.forward_conf.specs.declared.cause.Cause.{Cause};

    ghost from_gives = { λ _ c. c ≡ Cause.NoMemory };

    fn from(_error: NoMemory) -> Cause {
        Cause::NoMemory
    }
}
