//! Why a record ends, or does not begin.

ghost use Rattle.std.specs.Prelude.{◌≡◌, Some};
ghost use Rattle.dns_record.specs.Sentences.{ended_text, refused_text};

use dns_base::NoMemory;
use std::fmt::{self, Display};

/// Why a record ended.
#[derive(Clone, Copy, Debug, PartialEq, Eq)]
pub enum Ended {
    /// With one line more it would have more than 16777216 octets, which no script has.
    Full,
    /// Few words are left of those that were written.
    WordsUsed,
    /// The sink failed, perhaps in the middle of a line.
    SinkFailed,
    /// A server was added, which a script can't tell.
    ServerAdded,
    /// An event has a fault that the client finds itself.
    Untold,
    /// Memory ran out for a line.
    NoMemory,
}

impl From<NoMemory> for Ended {
    ghost use Rattle.dns_record.specs.declared.ended.Ended.{Ended};

    ghost from_gives = { λ _ r. r ≡ Ended.NoMemory };

    fn from(_e: NoMemory) -> Ended {
        Ended::NoMemory
    }
}

impl Display for Ended {
    ghost output = { λ ended. Some (ended_text ended) };

    fn fmt<W: fmt::Write>(&self, f: &mut fmt::Formatter<W>) -> fmt::Result {
        match self {
            Ended::Full => f.write_str("it is full"),
            Ended::WordsUsed => f.write_str("few of the words that were written ahead are left"),
            Ended::SinkFailed => f.write_str("it could not be written"),
            Ended::ServerAdded => f.write_str("a server was added"),
            Ended::Untold => f.write_str("an event can't be told"),
            Ended::NoMemory => f.write_str("memory ran out"),
        }
    }
}

/// Why a record does not begin.
#[derive(Clone, Copy, Debug, PartialEq, Eq)]
pub enum Refused {
    /// A server is asked by streams alone and the configuration does not say so of all.
    Server,
    /// The time for a request is no whole number of seconds.
    Timeout,
    /// A setting of the cache is outside its limits, or a time among them is no whole number of seconds.
    Settings,
    /// A setting of transports is outside its limits, a time among them is no whole number of thousandths of a second, or
    /// messages of transfers have another time than other frames.
    Transports,
    /// What stands before the first event has more than 16777216 octets.
    Full,
    /// The sink failed.
    SinkFailed,
    /// Memory ran out.
    NoMemory,
}

impl From<NoMemory> for Refused {
    ghost use Rattle.dns_record.specs.declared.ended.Refused.{Refused};

    ghost from_gives = { λ _ r. r ≡ Refused.NoMemory };

    fn from(_e: NoMemory) -> Refused {
        Refused::NoMemory
    }
}

impl Display for Refused {
    ghost output = { λ refused. Some (refused_text refused) };

    fn fmt<W: fmt::Write>(&self, f: &mut fmt::Formatter<W>) -> fmt::Result {
        match self {
            Refused::Server => f.write_str(
                "one server is asked by streams alone, and another is not",
            ),
            Refused::Timeout => f.write_str("the time for a request is no whole number of seconds"),
            Refused::Settings => f.write_str("a setting of the cache is outside its limits"),
            Refused::Transports => f.write_str("a setting of transports is outside its limits"),
            Refused::Full => f.write_str("there is no room for what stands before the first event"),
            Refused::SinkFailed => f.write_str("it could not be made or written"),
            Refused::NoMemory => f.write_str("memory ran out"),
        }
    }
}
