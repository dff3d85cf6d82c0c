//! The data of a record in its parts.

ghost use Rattle.std.specs.Prelude.{◌≡◌, None, Some, [], option_copied};
ghost use Rattle.dns_base.specs.Data.{Named};
ghost use Rattle.dns_base.specs.RecordData.{data_view};
ghost use Rattle.message_judging.specs.matching.Shapes as spec;

use dns_base::{ParsedName, RecordData, is_same_name};
use std::marker::Model;

/// What data says, in parts of which each kind of data has some.
#[derive(Drop)]
pub(crate) struct DataShape<'a> {
    kind: u8,
    octets: &'a [u8],
    behind: &'a [u8],
    numbers: [u32; 5],
    first: Option<ParsedName<'a>>,
    second: Option<ParsedName<'a>>,
}

impl<'a> Model for DataShape<'a> {
    ghost use Rattle.message_judging.specs.matching.Shapes.{Shape};

    ghost Value = { Shape };

    ghost view = { λ s. record { kind = s.kind; octets = s.octets.now; behind = s.behind.now; numbers = s.numbers; first = s.first; second = s.second } };
}

fn of_octets<'a>(kind: u8, octets: &'a [u8]) -> DataShape<'a>
    ensures { result ≡ record { kind = kind; octets = octets.now; behind = []; numbers = spec.five 0 0 0 0 0; first = None; second = None } }
{
    DataShape {
        kind,
        octets,
        behind: &[],
        numbers: [0; 5],
        first: None,
        second: None,
    }
}

/// Data that is one name behind its numbers.
fn of_name<'a>(kind: u8, numbers: [u32; 5], name: &ParsedName<'a>) -> DataShape<'a>
    ensures { result ≡ record { kind = kind; octets = []; behind = []; numbers = numbers; first = Some name.now; second = None } }
{
    DataShape {
        kind,
        octets: &[],
        behind: &[],
        numbers,
        first: Some(name.again()),
        second: None,
    }
}

/// Data that is two names and numbers.
fn of_names<'a>(
    kind: u8,
    numbers: [u32; 5],
    first: &ParsedName<'a>,
    second: &ParsedName<'a>,
) -> DataShape<'a>
    ensures { result ≡ record { kind = kind; octets = []; behind = []; numbers = numbers; first = Some first.now; second = Some second.now } }
{
    DataShape {
        kind,
        octets: &[],
        behind: &[],
        numbers,
        first: Some(first.again()),
        second: Some(second.again()),
    }
}

/// Data that is one name, of a type.
fn of_one<'a>(rtype: u32, name: &ParsedName<'a>) -> DataShape<'a>
    ensures { result ≡ record { kind = 2; octets = []; behind = []; numbers = spec.five rtype 0 0 0 0; first = Some name.now; second = None } }
{
    of_name(2, [rtype, 0, 0, 0, 0], name)
}

/// A name again, if there is one.
fn found_again<'a>(name: &Option<ParsedName<'a>>) -> Option<ParsedName<'a>>
    ensures { result ≡ name.now }
{
    match name {
        Some(name) => Some(name.again()),
        None => None,
    }
}

/// Data that is one name or two between octets.
fn of_named<'a>(
    before: &'a [u8],
    first: &ParsedName<'a>,
    second: &Option<ParsedName<'a>>,
    behind: &'a [u8],
) -> DataShape<'a>
    ensures { result ≡ spec.shape_of (Named (record { before = before.now; first = first.now; second = second.now; behind = behind.now })) }
{
    DataShape {
        kind: 10,
        octets: before,
        behind,
        numbers: [0; 5],
        first: Some(first.again()),
        second: found_again(second),
    }
}

/// The parts of data.
fn shape_of<'a>(content: &'a RecordData<'a>) -> DataShape<'a>
    ensures { result ≡ spec.shape_of (data_view content.now) }
{
    match content {
        RecordData::A(address) => of_octets(0, address),
        RecordData::Aaaa(address) => of_octets(1, address),
        RecordData::Ns(name) => of_one(2, name),
        RecordData::Md(name) => of_one(3, name),
        RecordData::Mf(name) => of_one(4, name),
        RecordData::Cname(name) => of_one(5, name),
        RecordData::Mb(name) => of_one(7, name),
        RecordData::Mg(name) => of_one(8, name),
        RecordData::Mr(name) => of_one(9, name),
        RecordData::Ptr(name) => of_one(12, name),
        RecordData::Dname(name) => of_one(39, name),
        RecordData::Minfo(first, second) => of_names(3, [0; 5], first, second),
        RecordData::Mx(preference, name) => {
            of_name(4, [u32::from(*preference), 0, 0, 0, 0], name)
        }
        RecordData::Soa {
            mname,
            rname,
            serial,
            refresh,
            retry,
            expire,
            minimum,
        } => of_names(
            5,
            [serial.0, refresh.0, retry.0, expire.0, minimum.0],
            mname,
            rname,
        ),
        RecordData::Srv {
            priority,
            weight,
            port,
            target,
        } => of_name(
            6,
            [
                u32::from(*priority),
                u32::from(*weight),
                u32::from(*port),
                0,
                0,
            ],
            target,
        ),
        RecordData::Named {
            before,
            first,
            second,
            behind,
        } => of_named(before, first, second, behind),
        RecordData::Txt(octets) => of_octets(7, octets),
        RecordData::Opt(octets) => of_octets(8, octets),
        RecordData::Other(octets) => of_octets(9, octets),
    }
}

/// The octets of data that has no name, whatever they say.
pub(crate) fn plain_octets<'a>(content: &RecordData<'a>) -> Option<&'a [u8]>
    ensures { option_copied result ≡ spec.plain_octets (data_view content.now) }
{
    match content {
        RecordData::Txt(octets) | RecordData::Opt(octets) | RecordData::Other(octets) => {
            Some(octets)
        }
        _ => None,
    }
}

/// Whether both have a name and it is the same but for case, or neither has one.
fn is_same_found(a: &Option<ParsedName<'_>>, b: &Option<ParsedName<'_>>) -> bool
    ensures { result ≡ spec.same_found a.now b.now }
{
    match (a, b) {
        (Some(a), Some(b)) => is_same_name(a, b),
        (None, None) => true,
        (Some(_), None) => false,
        (None, Some(_)) => false,
    }
}

fn is_same_shape(a: &DataShape<'_>, b: &DataShape<'_>) -> bool
    ensures { result ≡ spec.same_shape a.now b.now }
{
    a.kind == b.kind
        && a.octets == b.octets
        && a.behind == b.behind
        && a.numbers == b.numbers
        && is_same_found(&a.first, &b.first)
        && is_same_found(&a.second, &b.second)
}

/// Whether data says the same but for the case of names.
pub fn is_same_data(a: &RecordData<'_>, b: &RecordData<'_>) -> bool
    ensures { result ≡ spec.same_shape (spec.shape_of (data_view a.now)) (spec.shape_of (data_view b.now)) }
{
    is_same_shape(&shape_of(a), &shape_of(b))
}
