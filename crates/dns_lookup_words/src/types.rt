//! The types and classes that words name.

ghost use Rattle.std.specs.Prelude.{◌≡◌, option_map};
ghost use Rattle.std.specs.Str.{str_eq_ignore_ascii_case};
ghost use Rattle.dns_values.specs.NameTable.{told};
ghost use Rattle.dns_values.specs.NumberNames.{class_of_text, number_of};
ghost use Rattle.dns_lookup_words.specs.Types.{more_types, type_number};

use dns_values::{Class, Rtype};

/// Registered types that are printed by their numbers, and two that have a second name.
const MORE_TYPES: [(u16, &'static str); 43] = [
    (19, "X25"),
    (20, "ISDN"),
    (21, "RT"),
    (22, "NSAP"),
    (23, "NSAP-PTR"),
    (26, "PX"),
    (27, "GPOS"),
    (30, "NXT"),
    (31, "EID"),
    (32, "NIMLOC"),
    (34, "ATMA"),
    (38, "A6"),
    (40, "SINK"),
    (55, "HIP"),
    (56, "NINFO"),
    (57, "RKEY"),
    (58, "TALINK"),
    (66, "DSYNC"),
    (67, "HHIT"),
    (68, "BRID"),
    (100, "UINFO"),
    (101, "UID"),
    (102, "GID"),
    (103, "UNSPEC"),
    (104, "NID"),
    (105, "L32"),
    (106, "L64"),
    (107, "LP"),
    (108, "EUI48"),
    (109, "EUI64"),
    (128, "NXNAME"),
    (253, "MAILB"),
    (254, "MAILA"),
    (255, "*"),
    (258, "AVC"),
    (259, "DOA"),
    (260, "AMTRELAY"),
    (261, "RESINFO"),
    (262, "WALLET"),
    (263, "CLA"),
    (264, "IPN"),
    (32768, "TA"),
    (32769, "DLV"),
];

/// Whether two texts are the same, but for case.
fn is_same_text(left: &str, right: &str) -> bool
    ensures { result ≡ str_eq_ignore_ascii_case left.now right.now }
{
    left.eq_ignore_ascii_case(right)
}

/// The number of a name, in any case.
fn number_of(names: &[(u16, &'static str)], text: &str) -> Option<u16>
    ensures { result ≡ number_of (told names.now) text.now }
{
    for entry in names {
        if is_same_text(entry.1, text) {
            return Some(entry.0);
        }
    }
    None
}

/// The type that a word names.
#[tactic(auto, unfolding(crate::specs::Types::more_types))]
pub(crate) fn type_in(word: &str) -> Option<Rtype>
    ensures { option_map (λ t. t.0) result ≡ type_number word.now }
{
    match Rtype::from_text(word) {
        Ok(rtype) => Some(rtype),
        Err(_) => match number_of(&MORE_TYPES, word) {
            Some(number) => Some(Rtype(number)),
            None => None,
        },
    }
}

/// The class that a word names.
pub(crate) fn class_in(word: &str) -> Option<Class>
    ensures { option_map (λ c. c.0) result ≡ class_of_text word.now }
{
    match Class::from_text(word) {
        Ok(class) => Some(class),
        Err(_) => None,
    }
}
