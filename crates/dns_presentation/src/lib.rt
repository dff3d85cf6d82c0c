//! DNS data as people read it: the presentation form of names, data, records and messages (RFC 1035 5.1).
//!
//! Character strings with their escapes, names among other text, and generic data `\# LENGTH HEX` are printed exactly, and
//! so that they are read back as the same octets; so are questions, and records of addresses, names and numbers; data of an
//! unknown type, or that can't be read by its type, is generic, and generic data of a type whose names are read out has
//! them spelled out. That the other texts (strings in data, types with forms of their own, messages) are as `kdig` prints
//! them is only tested. By `CharacterString`, `Absolute`, `Generic`, `ShownData`, `Presentation`, `presentation_laws`.
//!
//! - `CharacterString`, `Absolute` (a name) and `Generic` print exactly `string_text`, `absolute_text` and `generic_text`;
//!   what they print is read back as the same octets or labels (`presentation_laws`).
//! - `ShownData` prints `known_text` of its record where that is some text: of A, AAAA, of each type whose data is names,
//!   of MX, AFSDB, RT, PX, SOA and SRV, of TXT, SPF, HINFO, KX, X25, ISDN, NSAP, GPOS, APL, CERT, CSYNC, ZONEMD, NID, L32,
//!   L64, LP, EUI48 and EUI64, and generic data of each other type but those of `has_form`, and where data can't be read by
//!   its type. Of SIG, NXT, NAPTR and the types of `has_form` it says nothing (of SIG and NXT that they are generic where
//!   they have no form, the names spelled out): `tests/compare_presentation.py` holds these to kdig, and the stored run of
//!   `tool_texts` SIG and NXT to BIND.
//! - `presentation` lends what it is called on. A `Question` then prints exactly `question_text`, and a `Record` its owner,
//!   seconds, class and type exactly, whatever its data is told as (`record_text`). Nothing is said of what a `Message`
//!   prints.
//!
//! # Why it is so
//!
//! - **Presentation form is kdig's.** Where RFCs leave a choice, what is printed is what `kdig` prints of it, up to blanks,
//!   so that one can be held to the other: each printable character but letters, digits, `-`, `_`, `*` and `/` stands
//!   behind a backslash in a name; digits of hashes are upper case, those of base 32 lower case; base 64 has no blanks; a
//!   parameter of SVCB whose form is not known stands between quotes; an OPT record is a section of its own. A label that
//!   begins with `#` is `\035`, since `\#` begins generic data. Codes and types print by their IANA names, where kdig has
//!   some of its own.
//! - **Where kdig has no form or prints numbers, dig's stands**: X25, ISDN, NSAP, PX and GPOS, and the mnemonics of CERT,
//!   whose algorithms 6, 7 and 12 stay numbers, since readers name them otherwise. So do the decimals of LOC and the quotes
//!   around `alpn`, by which whole zones and lookups are compared with dig's. Data that doesn't fit its form is generic: APL
//!   with a last octet of 0 or an unknown family, a bit map's window of no octet or more than 32, CERT or ZONEMD without an
//!   octet behind the numbers.
//! - **What can't be read is still printed**: data that its type doesn't fit as generic data, and a message up to the first
//!   entry that can't be read, with a line that says so.
#![tactic(auto)]

mod base64;
mod certificates;
mod counted;
mod data;
mod generic;
mod laws;
mod location;
mod locators;
mod message;
mod named;
mod names;
mod octets;
mod options;
mod parts;
mod plain;
mod prefixes;
mod security;
mod service;
mod shown;
mod strings;
mod time;
mod types;
mod zones;

pub use data::ShownData;
pub use generic::Generic;
pub use laws::presentation_laws;
pub use names::Absolute;
pub use shown::{Presentation, Shown};
pub use strings::CharacterString;
