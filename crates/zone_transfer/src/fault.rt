//! Why a zone was not fetched.

ghost use Rattle.std.specs.Prelude.{◌≡◌};
ghost use Rattle.zone_transfer.specs.Reading.{fault_of, refusal_of};

use client_request::{Error, Fault};
use dns_base::{NoMemory, Rcode};
use zone_records::{ApplyFault, XfrFault};

/// Why a zone was not fetched. The zone is as it was.
#[derive(Clone, Copy, Debug)]
pub enum FetchFault {
    /// The stream could not be opened.
    Connect(Fault),
    /// The stream failed, or what came on it is no answer.
    Transport(Error),
    /// The server answered with this response code.
    Refused(Rcode),
    /// The messages are no transfer of the zone, or there are no changes: `SingleSoa` with the zone's own serial means that
    /// nothing is new, and with another that the whole zone is to be asked for.
    Xfr(XfrFault),
    /// The changes are those of a zone with another serial.
    Apply(ApplyFault),
    /// The records of the transfer take more than was allowed.
    TooLarge,
    /// The server was silent for a million turns.
    NoReply,
    NoMemory,
}

impl From<NoMemory> for FetchFault {
    ghost use Rattle.zone_transfer.specs.declared.fault.FetchFault.TheVariants as fault;

    ghost from_gives = { λ _ e. e ≡ fault.NoMemory };

    fn from(_e: NoMemory) -> FetchFault {
        FetchFault::NoMemory
    }
}

/// The fault that an error of the stream is.
pub(crate) fn fault_of(error: Error) -> FetchFault
    ensures { result ≡ fault_of error }
{
    match error {
        Error::NoMemory => FetchFault::NoMemory,
        error => FetchFault::Transport(error),
    }
}

/// The fault that a refusal of a message is.
pub(crate) fn refusal_of(fault: XfrFault) -> FetchFault
    ensures { result ≡ refusal_of fault }
{
    match fault {
        XfrFault::NoMemory => FetchFault::NoMemory,
        fault => FetchFault::Xfr(fault),
    }
}
