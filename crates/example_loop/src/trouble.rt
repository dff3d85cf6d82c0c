//! What can go wrong in this program.

use client_request::Error;
use dns_base::{NameFault, NoMemory, ParseError, PushError, ShortMessage};
use dns_record::Refused;
use std::io;
use std::num::TryFromIntError;

/// Why the program stops early.
#[derive(Debug, Drop)]
pub(crate) enum Trouble {
    Name(NameFault),
    Message(PushError),
    Client(Error),
    System(io::Error),
    Record(Refused),
    /// The client sent nothing when its place opened.
    NothingSent,
    /// The clock has counted more microseconds than a moment has.
    Late,
}

impl From<NameFault> for Trouble {
    fn from(fault: NameFault) -> Trouble {
        Trouble::Name(fault)
    }
}

impl From<PushError> for Trouble {
    fn from(error: PushError) -> Trouble {
        Trouble::Message(error)
    }
}

impl From<Error> for Trouble {
    fn from(error: Error) -> Trouble {
        Trouble::Client(error)
    }
}

impl From<NoMemory> for Trouble {
    fn from(error: NoMemory) -> Trouble {
        Trouble::Client(error.into())
    }
}

impl From<ParseError> for Trouble {
    fn from(error: ParseError) -> Trouble {
        Trouble::Client(error.into())
    }
}

impl From<ShortMessage> for Trouble {
    fn from(error: ShortMessage) -> Trouble {
        Trouble::Client(error.into())
    }
}

impl From<io::Error> for Trouble {
    fn from(error: io::Error) -> Trouble {
        Trouble::System(error)
    }
}

impl From<Refused> for Trouble {
    fn from(refused: Refused) -> Trouble {
        Trouble::Record(refused)
    }
}

impl From<TryFromIntError> for Trouble {
    fn from(_: TryFromIntError) -> Trouble {
        Trouble::Late
    }
}
