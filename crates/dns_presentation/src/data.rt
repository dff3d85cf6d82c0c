//! The data of records as text, by its type.

ghost use Rattle.std.specs.Prelude.{◌≡◌, ◌<◌};
ghost use Rattle.std.specs.Fmt.{DisplaysOnOk, WritesOnOk};
ghost use Rattle.dns_base.specs.Data.{data_size};
ghost use Rattle.dns_base.specs.RecordData.{data_view};
ghost use Rattle.dns_presentation.specs.Forms.{form_text};
ghost use Rattle.dns_presentation.specs.Generic.{or_generic};
ghost use Rattle.dns_presentation.specs.Records.{has_form, octets_text, numbered_text, typed_text, data_text, known_text};

use crate::base64::Base64;
use crate::certificates::write_certificate;
use crate::counted::{write_prefixes, write_strings};
use crate::generic::Generic;
use crate::location::Location;
use crate::locators::write_locator;
use crate::named::{NamedParts, write_named};
use crate::names::Absolute;
use crate::plain::{Caa, Sshfp, Tlsa, Uri};
use crate::security::{Dnskey, Ds, Hashing, Nsec, Nsec3, Rrsig};
use crate::service::Service;
use crate::zones::{write_csync, write_zonemd};
use dns_base::{IpAddr, Record, RecordData, Rtype};
use std::fmt::{self, Display};
use std::net::Ipv6Addr;

const X25: Rtype = Rtype(19);

const ISDN: Rtype = Rtype(20);

const GPOS: Rtype = Rtype(27);

/// What was read of data, or generic data where it wasn't.
fn write_read<D: Display + Drop, W: fmt::Write>(
    read: Option<D>,
    data: &[u8],
    f: &mut fmt::Formatter<W>,
) -> fmt::Result {
    match read {
        Some(known) => f.write(known),
        None => f.write(Generic(data)),
    }
}

/// The data of types that signatures need, and of others generic data.
fn write_security<W: fmt::Write>(
    rtype: Rtype,
    octets: &[u8],
    f: &mut fmt::Formatter<W>,
) -> fmt::Result {
    match rtype {
        Rtype::DS | Rtype::CDS => write_read(Ds::read(octets), octets, f),
        Rtype::DNSKEY | Rtype::CDNSKEY => write_read(Dnskey::read(octets), octets, f),
        Rtype::RRSIG => write_read(Rrsig::read(octets), octets, f),
        Rtype::NSEC => write_read(Nsec::read(octets), octets, f),
        Rtype::NSEC3 => write_read(Nsec3::read(octets), octets, f),
        Rtype::NSEC3PARAM => write_read(Hashing::read(octets), octets, f),
        _ => f.write(Generic(octets)),
    }
}

/// Whether octets of a type have a form here of which no contract tells.
fn has_form(rtype: Rtype) -> bool
    ensures { result ≡ has_form rtype.0 }
{
    match rtype {
        Rtype::LOC | Rtype::DS | Rtype::SSHFP | Rtype::RRSIG | Rtype::NSEC | Rtype::DNSKEY => true,
        Rtype::NSEC3 | Rtype::NSEC3PARAM | Rtype::TLSA | Rtype::SMIMEA | Rtype::CDS => true,
        Rtype::CDNSKEY | Rtype::OPENPGPKEY | Rtype::SVCB | Rtype::HTTPS => true,
        Rtype::URI | Rtype::CAA => true,
        _ => false,
    }
}

/// Octets of a type that has such a form.
fn write_form<W: fmt::Write>(
    rtype: Rtype,
    octets: &[u8],
    f: &mut fmt::Formatter<W>,
) -> fmt::Result {
    match rtype {
        Rtype::LOC => write_read(Location::read(octets), octets, f),
        Rtype::SSHFP => write_read(Sshfp::read(octets), octets, f),
        Rtype::TLSA | Rtype::SMIMEA => write_read(Tlsa::read(octets), octets, f),
        Rtype::OPENPGPKEY if !octets.is_empty() => f.write(Base64(octets)),
        Rtype::SVCB | Rtype::HTTPS => write_read(Service::read(octets), octets, f),
        Rtype::URI => write_read(Uri::read(octets), octets, f),
        Rtype::CAA => write_read(Caa::read(octets), octets, f),
        _ => write_security(rtype, octets, f),
    }
}

/// Octets in the form of their type, or generic data where it has none or they aren't of it.
fn write_told<W: fmt::Write>(rtype: Rtype, octets: &[u8], f: &mut fmt::Formatter<W>) -> fmt::Result
    ensures { WritesOnOk W.Write.write_str_gives f.old result (or_generic (form_text rtype.0 octets.now) octets.now) f.new }
{
    match rtype {
        Rtype::HINFO => write_strings(octets, octets, 2, 2, f),
        X25 => write_strings(octets, octets, 1, 1, f),
        ISDN => write_strings(octets, octets, 1, 2, f),
        GPOS => write_strings(octets, octets, 3, 3, f),
        Rtype::SPF => write_strings(octets, octets, 1, 65535, f),
        Rtype::CERT => write_certificate(octets, f),
        Rtype::APL => write_prefixes(octets, f),
        Rtype::CSYNC => write_csync(octets, f),
        Rtype::ZONEMD => write_zonemd(octets, f),
        _ => write_locator(rtype, octets, f),
    }
}

/// Octets that a message's reader doesn't look into.
fn write_octets<W: fmt::Write>(
    rtype: Rtype,
    octets: &[u8],
    f: &mut fmt::Formatter<W>,
) -> fmt::Result
    ensures { DisplaysOnOk W.Write.write_str_gives f.old result (octets_text rtype.0 octets.now) f.new }
{
    if has_form(rtype) {
        write_form(rtype, octets, f)
    } else {
        write_told(rtype, octets, f)
    }
}

/// The start of a zone (RFC 1035 3.3.13) or where a service is (RFC 2782), and of other data generic data.
fn write_numbered<W: fmt::Write>(
    numbered: &RecordData<'_>,
    whole: &[u8],
    f: &mut fmt::Formatter<W>,
) -> fmt::Result
    ensures { DisplaysOnOk W.Write.write_str_gives f.old result (numbered_text whole.now (data_view numbered.now)) f.new }
{
    match numbered {
        RecordData::Soa {
            mname,
            rname,
            serial,
            refresh,
            retry,
            expire,
            minimum,
        } => {
            write!(f, "{} {}", Absolute(mname), Absolute(rname))?;
            write!(f, " {} {} {}", serial.0, refresh.0, retry.0)?;
            write!(f, " {} {}", expire.0, minimum.0)
        }
        RecordData::Srv {
            priority,
            weight,
            port,
            target,
        } => { write!(f, "{priority} {weight} {port} {}", Absolute(target)) }
        _ => f.write(Generic(whole)),
    }
}

/// Data with names of seven types more, strings, octets that aren't looked into, and data of types with numbers.
#[tactic(auto, unfolding(dns_base::specs::Data::data_size))]
fn write_typed<W: fmt::Write>(
    rtype: Rtype,
    known: &RecordData<'_>,
    whole: &[u8],
    f: &mut fmt::Formatter<W>,
) -> fmt::Result
    requires { data_size (data_view known.now) < 65536 }
    ensures { DisplaysOnOk W.Write.write_str_gives f.old result (typed_text rtype.0 whole.now (data_view known.now)) f.new }
{
    match known {
        RecordData::Named {
            before,
            first,
            second,
            behind,
        } => {
            let named = NamedParts {
                before,
                first,
                second,
                behind,
            };
            write_named(rtype, &named, f)
        }
        RecordData::Txt(strings) => write_strings(strings, whole, 1, 65535, f),
        RecordData::Other(octets) => write_octets(rtype, octets, f),
        _ => write_numbered(known, whole, f),
    }
}

/// The data of a type.
fn write_known<W: fmt::Write>(
    rtype: Rtype,
    known: &RecordData<'_>,
    whole: &[u8],
    f: &mut fmt::Formatter<W>,
) -> fmt::Result
    requires { data_size (data_view known.now) < 65536 }
    ensures { DisplaysOnOk W.Write.write_str_gives f.old result (data_text rtype.0 whole.now (data_view known.now)) f.new }
{
    match known {
        RecordData::A(octets) => f.write(IpAddr::V4(*octets)),
        RecordData::Aaaa(octets) => f.write(Ipv6Addr::from_octets(*octets)),
        RecordData::Ns(name) | RecordData::Md(name) | RecordData::Mf(name) => f.write(Absolute(
            name,
        )),
        RecordData::Mb(name) | RecordData::Mg(name) | RecordData::Mr(name) => f.write(Absolute(
            name,
        )),
        RecordData::Cname(name) | RecordData::Ptr(name) | RecordData::Dname(name) => {
            f.write(Absolute(name))
        }
        RecordData::Minfo(first, second) => {
            write!(f, "{} {}", Absolute(first), Absolute(second))
        }
        RecordData::Mx(preference, exchange) => write!(f, "{preference} {}", Absolute(exchange)),
        _ => write_typed(rtype, known, whole, f),
    }
}

/// The data of a record alone, as it prints behind its type. Data of a type without a form here, or that can't be read
/// by its type, is generic (RFC 3597 5); names that are read stand there without compression.
#[derive(Clone, Copy)]
pub struct ShownData<'s, 'a>(pub &'s Record<'a>);

impl Display for ShownData<'_, '_> {
    ghost output = { λ d. known_text d.0.now };

    fn fmt<W: fmt::Write>(&self, f: &mut fmt::Formatter<W>) -> fmt::Result {
        let whole = self.0.raw_data();
        match self.0.data() {
            Ok(known) => write_known(self.0.rtype(), &known, whole, f),
            Err(_) => f.write(Generic(whole)),
        }
    }
}
