//! The data of CERT: certificates (RFC 4398).

ghost use Rattle.std.specs.Prelude.{◌≡◌, [], option_copied};
ghost use Rattle.std.specs.Fmt.{WritesOnOk};
ghost use Rattle.dns_values.specs.NameTable.{told};
ghost use Rattle.dns_values.specs.NumberNames.{name_of, text_of_number};
ghost use Rattle.dns_presentation.specs.Certificates.{kind_text, algorithm_text, fields_text, certificate_text};
ghost use Rattle.dns_presentation.specs.Generic.{or_generic};

use crate::base64::Base64;
use crate::generic::Generic;
use std::fmt;

/// A number and its name.
type Named = (u16, &'static str);

/// The kinds of certificates (RFC 4398 2.1).
const KIND_NAMES: [Named; 10] = [
    (1, "PKIX"),
    (2, "SPKI"),
    (3, "PGP"),
    (4, "IPKIX"),
    (5, "ISPKI"),
    (6, "IPGP"),
    (7, "ACPKIX"),
    (8, "IACPKIX"),
    (253, "URI"),
    (254, "OID"),
];

/// The algorithms of keys (RFC 4034 A.1 and later), but for three that are named otherwise by some readers.
const ALGORITHM_NAMES: [Named; 13] = [
    (1, "RSAMD5"),
    (2, "DH"),
    (3, "DSA"),
    (5, "RSASHA1"),
    (8, "RSASHA256"),
    (10, "RSASHA512"),
    (13, "ECDSAP256SHA256"),
    (14, "ECDSAP384SHA384"),
    (15, "ED25519"),
    (16, "ED448"),
    (252, "INDIRECT"),
    (253, "PRIVATEDNS"),
    (254, "PRIVATEOID"),
];

/// The name of a number, if it has one.
fn name_of(names: &[Named], number: u16) -> Option<&'static str>
    ensures { option_copied result ≡ name_of (told names.now) number }
{
    for entry in names {
        if entry.0 == number {
            return Some(entry.1);
        }
    }
    None
}

/// The name of a number, or the number where it has none.
#[tactic(auto, unfolding(dns_values::specs::NumberNames::text_of_number))]
fn write_name<W: fmt::Write>(names: &[Named], number: u16, f: &mut fmt::Formatter<W>) -> fmt::Result
    ensures { WritesOnOk W.Write.write_str_gives f.old result (text_of_number (told names.now) [] number) f.new }
{
    match name_of(names, number) {
        Some(name) => f.write_str(name),
        None => write!(f, "{number}"),
    }
}

#[tactic(auto, unfolding(crate::specs::Certificates::kind_names))]
fn write_kind<W: fmt::Write>(kind: u16, f: &mut fmt::Formatter<W>) -> fmt::Result
    ensures { WritesOnOk W.Write.write_str_gives f.old result (kind_text kind) f.new }
{
    write_name(&KIND_NAMES, kind, f)
}

#[tactic(auto, unfolding(crate::specs::Certificates::algorithm_names))]
fn write_algorithm<W: fmt::Write>(algorithm: u8, f: &mut fmt::Formatter<W>) -> fmt::Result
    ensures { WritesOnOk W.Write.write_str_gives f.old result (algorithm_text algorithm) f.new }
{
    write_name(&ALGORITHM_NAMES, u16::from(algorithm), f)
}

/// A kind, the tag and the algorithm of a key, and a certificate.
fn write_fields<W: fmt::Write>(
    kind: u16,
    tag: u16,
    algorithm: u8,
    certificate: &[u8],
    f: &mut fmt::Formatter<W>,
) -> fmt::Result
    ensures { WritesOnOk W.Write.write_str_gives f.old result (fields_text kind tag algorithm certificate.now) f.new }
{
    write_kind(kind, f)?;
    write!(f, " {tag} ")?;
    write_algorithm(algorithm, f)?;
    write!(f, " {}", Base64(certificate))
}

/// The same of data, whose certificate has an octet at least (RFC 4398 2.2).
pub(crate) fn write_certificate<W: fmt::Write>(
    octets: &[u8],
    f: &mut fmt::Formatter<W>,
) -> fmt::Result
    ensures { WritesOnOk W.Write.write_str_gives f.old result (or_generic (certificate_text octets.now) octets.now) f.new }
{
    let [a, b, c, d, algorithm, certificate @ ..] = octets else {
        return f.write(Generic(octets));
    };
    if certificate.is_empty() {
        return f.write(Generic(octets));
    }
    let kind = u16::from_be_bytes([*a, *b]);
    let tag = u16::from_be_bytes([*c, *d]);
    write_fields(kind, tag, *algorithm, certificate, f)
}
