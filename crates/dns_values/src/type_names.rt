//! The names of types and classes.

ghost use Rattle.std.specs.Prelude.{◌≡◌, Some, option_map};
ghost use Rattle.std.specs.Result.{result_ok};
ghost use Rattle.dns_values.specs.NumberNames.{class_of_text, class_text, type_of_text, type_text};

use crate::error::ParseError;
use crate::number_names::{Named, number_of_text, write_number};
use crate::numbers::{Class, Rtype};
use std::fmt::{self, Display};

/// The types that print by a name.
const TYPE_NAMES: [Named; 55] = [
    (1, "A"),
    (2, "NS"),
    (3, "MD"),
    (4, "MF"),
    (5, "CNAME"),
    (6, "SOA"),
    (7, "MB"),
    (8, "MG"),
    (9, "MR"),
    (10, "NULL"),
    (11, "WKS"),
    (12, "PTR"),
    (13, "HINFO"),
    (14, "MINFO"),
    (15, "MX"),
    (16, "TXT"),
    (17, "RP"),
    (18, "AFSDB"),
    (24, "SIG"),
    (25, "KEY"),
    (28, "AAAA"),
    (29, "LOC"),
    (33, "SRV"),
    (35, "NAPTR"),
    (36, "KX"),
    (37, "CERT"),
    (39, "DNAME"),
    (41, "OPT"),
    (42, "APL"),
    (43, "DS"),
    (44, "SSHFP"),
    (45, "IPSECKEY"),
    (46, "RRSIG"),
    (47, "NSEC"),
    (48, "DNSKEY"),
    (49, "DHCID"),
    (50, "NSEC3"),
    (51, "NSEC3PARAM"),
    (52, "TLSA"),
    (53, "SMIMEA"),
    (59, "CDS"),
    (60, "CDNSKEY"),
    (61, "OPENPGPKEY"),
    (62, "CSYNC"),
    (63, "ZONEMD"),
    (64, "SVCB"),
    (65, "HTTPS"),
    (99, "SPF"),
    (249, "TKEY"),
    (250, "TSIG"),
    (251, "IXFR"),
    (252, "AXFR"),
    (255, "ANY"),
    (256, "URI"),
    (257, "CAA"),
];

impl Rtype {
    /// Reads the registered name of a type, as `AAAA`, or `TYPE` and a decimal number below 65536 (RFC
    /// 3597 section 5), as `TYPE28`, in any case. Any other text is a `ParseError`.
    #[tactic(auto, unfolding(crate::specs::NumberNames::type_names))]
    pub fn from_text(text: &str) -> Result<Rtype, ParseError>
        ensures { option_map (λ t. t.0) (result_ok result) ≡ type_of_text text.now }
    {
        match number_of_text(&TYPE_NAMES, "TYPE", 65535, text) {
            Some(number) => Ok(Rtype(number)),
            None => Err(ParseError),
        }
    }
}

/// The registered name, or `TYPE123` for a type without one (RFC 3597 section 5).
impl Display for Rtype {
    ghost output = { λ t. Some (type_text t.0) };

    #[tactic(auto, unfolding(crate::specs::NumberNames::type_names))]
    fn fmt<W: fmt::Write>(&self, f: &mut fmt::Formatter<W>) -> fmt::Result {
        write_number(&TYPE_NAMES, "TYPE", self.0, f)
    }
}

/// The classes that print by a name.
const CLASS_NAMES: [Named; 5] = [(1, "IN"), (3, "CH"), (4, "HS"), (254, "NONE"), (255, "ANY")];

impl Class {
    /// Reads the registered name of a class, as `IN`, or `CLASS` and a decimal number below 65536 (RFC
    /// 3597 section 5), as `CLASS1`, in any case. Any other text is a `ParseError`.
    #[tactic(auto, unfolding(crate::specs::NumberNames::class_names))]
    pub fn from_text(text: &str) -> Result<Class, ParseError>
        ensures { option_map (λ c. c.0) (result_ok result) ≡ class_of_text text.now }
    {
        match number_of_text(&CLASS_NAMES, "CLASS", 65535, text) {
            Some(number) => Ok(Class(number)),
            None => Err(ParseError),
        }
    }
}

/// The registered name, or `CLASS123` for a class without one (RFC 3597 section 5).
impl Display for Class {
    ghost output = { λ c. Some (class_text c.0) };

    #[tactic(auto, unfolding(crate::specs::NumberNames::class_names))]
    fn fmt<W: fmt::Write>(&self, f: &mut fmt::Formatter<W>) -> fmt::Result {
        write_number(&CLASS_NAMES, "CLASS", self.0, f)
    }
}
