//! What a server's answer means to a walk.

ghost use Rattle.std.specs.Prelude.{◌≡◌};
ghost use Rattle.dns_lookup_walk.specs.Verdicts.{fails};

use dns_base::{Name, Rcode};

/// What an answer ends a walk with.
#[derive(Clone, Copy, Debug, PartialEq, Eq)]
pub enum Ending {
    /// There are records in the answer.
    Answered,
    /// There is no such name (RFC 2308 2.1).
    NoName,
    /// The name has no such data (RFC 2308 2.2): the start of a zone stands in the authority, or the answer is authoritative and empty.
    NoData,
}

/// Why the next server is asked.
#[derive(Clone, Copy, Debug, PartialEq, Eq)]
pub enum Failure {
    /// No message came.
    Silent,
    /// It has another response code than NOERROR and NXDOMAIN, or, where the root's servers are asked for, than NOERROR.
    Refuses(Rcode),
    /// It names servers, of no zone that is below the present one and at or above the name.
    Misleads,
    /// It says nothing, and without authority.
    Lame,
}

/// What a server's answer means.
#[derive(Debug, Drop)]
pub enum Verdict {
    /// The walk ends.
    Ends(Ending),
    /// The servers of this zone are to be asked (RFC 1034 4.3.2).
    Refers(Name),
    /// Another server is to be asked.
    Fails(Failure),
}

impl Verdict {
    /// Whether the next server is to be asked.
    pub fn fails(&self) -> bool
        ensures { result ≡ fails self.now }
    {
        match self {
            Verdict::Fails(_) => true,
            Verdict::Ends(_) | Verdict::Refers(_) => false,
        }
    }
}
