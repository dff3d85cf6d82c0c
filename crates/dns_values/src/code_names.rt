//! The names of the codes of a header.

ghost use Rattle.std.specs.Prelude.{◌≡◌, Some, option_map};
ghost use Rattle.std.specs.Result.{result_ok};
ghost use Rattle.dns_values.specs.NumberNames.{extended_rcode_of_text, extended_rcode_text, opcode_of_text, opcode_text, rcode_of_text, rcode_text};

use crate::error::ParseError;
use crate::number_names::{Named, number_of_text, write_number};
use crate::numbers::{Opcode, OptRcode, Rcode};
use std::fmt::{self, Display};

/// The kinds of query that print by a name.
const OPCODE_NAMES: [Named; 5] = [
    (0, "QUERY"),
    (1, "IQUERY"),
    (2, "STATUS"),
    (4, "NOTIFY"),
    (5, "UPDATE"),
];

impl Opcode {
    /// Reads the registered name of a kind of query, as `QUERY`, or `OPCODE` and a decimal number below 16,
    /// as `OPCODE9`, in any case. Any other text is a `ParseError`.
    #[tactic(auto, unfolding(crate::specs::NumberNames::opcode_names))]
    pub fn from_text(text: &str) -> Result<Opcode, ParseError>
        ensures { option_map (λ c. c.0) (result_ok result) ≡ opcode_of_text text.now }
    {
        match number_of_text(&OPCODE_NAMES, "OPCODE", 15, text) {
            Some(number) => Ok(Opcode(number as u8)),
            None => Err(ParseError),
        }
    }
}

/// The registered name, or `OPCODE9` for a code without one.
impl Display for Opcode {
    ghost output = { λ c. Some (opcode_text c.0) };

    #[tactic(auto, unfolding(crate::specs::NumberNames::opcode_names))]
    fn fmt<W: fmt::Write>(&self, f: &mut fmt::Formatter<W>) -> fmt::Result {
        write_number(&OPCODE_NAMES, "OPCODE", self.0 as u16, f)
    }
}

/// The response codes of a header that print by a name.
const RCODE_NAMES: [Named; 11] = [
    (0, "NOERROR"),
    (1, "FORMERR"),
    (2, "SERVFAIL"),
    (3, "NXDOMAIN"),
    (4, "NOTIMP"),
    (5, "REFUSED"),
    (6, "YXDOMAIN"),
    (7, "YXRRSET"),
    (8, "NXRRSET"),
    (9, "NOTAUTH"),
    (10, "NOTZONE"),
];

impl Rcode {
    /// Reads the registered name of a response code, as `NXDOMAIN`, or `RCODE` and a decimal number below 16,
    /// as `RCODE12`, in any case. Any other text is a `ParseError`.
    #[tactic(auto, unfolding(crate::specs::NumberNames::rcode_names))]
    pub fn from_text(text: &str) -> Result<Rcode, ParseError>
        ensures { option_map (λ c. c.0) (result_ok result) ≡ rcode_of_text text.now }
    {
        match number_of_text(&RCODE_NAMES, "RCODE", 15, text) {
            Some(number) => Ok(Rcode(number as u8)),
            None => Err(ParseError),
        }
    }
}

/// The registered name, or `RCODE12` for a code without one.
impl Display for Rcode {
    ghost output = { λ c. Some (rcode_text c.0) };

    #[tactic(auto, unfolding(crate::specs::NumberNames::rcode_names))]
    fn fmt<W: fmt::Write>(&self, f: &mut fmt::Formatter<W>) -> fmt::Result {
        write_number(&RCODE_NAMES, "RCODE", self.0 as u16, f)
    }
}

/// The response codes of twelve bits that print by a name.
const EXTENDED_RCODE_NAMES: [Named; 13] = [
    (0, "NOERROR"),
    (1, "FORMERR"),
    (2, "SERVFAIL"),
    (3, "NXDOMAIN"),
    (4, "NOTIMP"),
    (5, "REFUSED"),
    (6, "YXDOMAIN"),
    (7, "YXRRSET"),
    (8, "NXRRSET"),
    (9, "NOTAUTH"),
    (10, "NOTZONE"),
    (16, "BADVERS"),
    (23, "BADCOOKIE"),
];

impl OptRcode {
    /// Reads the registered name of a response code, as `BADVERS`, or `RCODE` and a decimal number below 4096,
    /// as `RCODE17`, in any case. Any other text is a `ParseError`.
    #[tactic(auto, unfolding(crate::specs::NumberNames::extended_rcode_names))]
    pub fn from_text(text: &str) -> Result<OptRcode, ParseError>
        ensures { option_map (λ c. c.0) (result_ok result) ≡ extended_rcode_of_text text.now }
    {
        match number_of_text(&EXTENDED_RCODE_NAMES, "RCODE", 4095, text) {
            Some(number) => Ok(OptRcode(number)),
            None => Err(ParseError),
        }
    }
}

/// The registered name, or `RCODE17` for a code without one.
impl Display for OptRcode {
    ghost output = { λ c. Some (extended_rcode_text c.0) };

    #[tactic(auto, unfolding(crate::specs::NumberNames::extended_rcode_names))]
    fn fmt<W: fmt::Write>(&self, f: &mut fmt::Formatter<W>) -> fmt::Result {
        write_number(&EXTENDED_RCODE_NAMES, "RCODE", self.0, f)
    }
}
