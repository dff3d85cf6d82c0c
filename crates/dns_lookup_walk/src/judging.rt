//! What a message means to a walk.

ghost use Rattle.std.specs.Prelude.{◌≡◌, [], IfOk};
ghost use Rattle.std.specs.List.{list_any};
ghost use Rattle.dns_base.specs.Message.{answer_items};
ghost use Rattle.dns_lookup_walk.specs.Records.{found_in, is_server, is_server_of, is_start, lead_of};
ghost use Rattle.dns_lookup_walk.specs.Verdicts.{authority_of, judge, roots_say, without_answer, zone_says};

use crate::records::{has_server, has_server_of, has_start, lead_of};
use crate::station::Station;
use crate::verdict::{Ending, Failure, Verdict};
use dns_base::{Message, Name, NoMemory, ParsedName, Rcode, Section, ToName};
use std::alloc::Global;

/// Whether the authority section holds the start of a zone.
fn starts_zone(message: &Message) -> bool
    ensures { result ≡ list_any is_start (authority_of message.now) }
{
    match message.authority() {
        Ok(records) => has_start(records),
        Err(_) => false,
    }
}

/// Whether the authority section names a server.
fn names_server(message: &Message) -> bool
    ensures { result ≡ list_any is_server (authority_of message.now) }
{
    match message.authority() {
        Ok(records) => has_server(records),
        Err(_) => false,
    }
}

/// Whether the answer section names a server of the root.
fn names_root(alloc: Global, message: &Message) -> bool
    ensures { result ≡ list_any (is_server_of []) (found_in (answer_items message.now)) }
{
    match message.answer() {
        Ok(records) => has_server_of(&Name::root(alloc).parsed(), records),
        Err(_) => false,
    }
}

/// The first zone below to which the authority section leads.
fn lead<'a>(
    zone: &ParsedName<'_>,
    name: &ParsedName<'_>,
    message: &'a Message,
) -> Option<ParsedName<'a>>
    ensures { result ≡ lead_of zone.now name.now (authority_of message.now) }
{
    match message.authority() {
        Ok(records) => lead_of(zone, name, records),
        Err(_) => None,
    }
}

/// What a message without an answer says.
fn without_answer(
    alloc: Global,
    zone: &Name,
    name: &Name,
    message: &Message,
) -> Result<Verdict, NoMemory>
    ensures { IfOk result (λ verdict. verdict ≡ without_answer zone.now name.now message.now) }
{
    if starts_zone(message) {
        return Ok(Verdict::Ends(Ending::NoData));
    }
    if let Some(owner) = lead(&zone.parsed(), &name.parsed(), message) {
        return Ok(Verdict::Refers(owner.to_name(alloc)?));
    }
    if names_server(message) {
        Ok(Verdict::Fails(Failure::Misleads))
    } else if message.header().aa() {
        Ok(Verdict::Ends(Ending::NoData))
    } else {
        Ok(Verdict::Fails(Failure::Lame))
    }
}

/// What a message of a zone's server says of a name.
fn zone_says(
    alloc: Global,
    zone: &Name,
    name: &Name,
    message: &Message,
) -> Result<Verdict, NoMemory>
    ensures { IfOk result (λ verdict. verdict ≡ zone_says zone.now name.now message.now) }
{
    let rcode = message.header().rcode();
    if rcode == Rcode::NXDOMAIN {
        Ok(Verdict::Ends(Ending::NoName))
    } else if rcode != Rcode::NOERROR {
        Ok(Verdict::Fails(Failure::Refuses(rcode)))
    } else if !message.has_no_records_in(Section::Answer) {
        Ok(Verdict::Ends(Ending::Answered))
    } else {
        without_answer(alloc, zone, name, message)
    }
}

/// What a message says of the servers of the root.
fn roots_say(alloc: Global, message: &Message) -> Verdict
    ensures { result ≡ roots_say message.now }
{
    let rcode = message.header().rcode();
    if rcode != Rcode::NOERROR {
        Verdict::Fails(Failure::Refuses(rcode))
    } else if names_root(alloc, message) {
        Verdict::Refers(Name::root(alloc))
    } else {
        Verdict::Fails(Failure::Lame)
    }
}

/// What it means that this came of a server at a station.
pub(crate) fn judge(
    alloc: Global,
    name: &Name,
    station: &Station,
    came: &Option<Message>,
) -> Result<Verdict, NoMemory>
    ensures { IfOk result (λ verdict. verdict ≡ judge name.now station.now came.now) }
{
    let Some(message) = came else {
        return Ok(Verdict::Fails(Failure::Silent));
    };
    match station {
        Station::Given => Ok(roots_say(alloc, message)),
        Station::Zone(zone) => zone_says(alloc, zone, name, message),
    }
}
