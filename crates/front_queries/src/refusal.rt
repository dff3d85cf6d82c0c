//! Why a query is refused.

ghost use Rattle.std.specs.Prelude.{◌≡◌};
ghost use Rattle.front_queries.specs.Refusals.{code_of};

use dns_base::Rcode;

/// Why a query is refused.
#[derive(Clone, Copy, Debug, PartialEq, Eq)]
pub enum Refusal {
    /// Its opcode isn't QUERY.
    NotImplemented,
    /// It asks for a zone: its first question is of type AXFR or IXFR.
    ZoneRefused,
    /// It can't be read, it doesn't have just one question, it has a record that is not one OPT record of the root, or it
    /// asks for a type of which there is no data.
    FormatError,
    /// Its OPT record is of a version above 0.
    BadVersion,
}

impl Refusal {
    /// The four low bits of the response code that tells it; BADVERS has none (RFC 6891 9).
    pub fn rcode(self) -> Rcode
        ensures { result.0 ≡ code_of self }
    {
        match self {
            Refusal::NotImplemented => Rcode::NOTIMP,
            Refusal::ZoneRefused => Rcode::REFUSED,
            Refusal::FormatError => Rcode::FORMERR,
            Refusal::BadVersion => Rcode::NOERROR,
        }
    }
}
