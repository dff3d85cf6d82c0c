//! A zone that is brought to what a server has.

ghost use Rattle.std.specs.Prelude.{◌≡◌, Some, OnOk, IfOk, IfErr, IsSome};
ghost use Rattle.zone_records.specs.Folding.{empty_zone};
ghost use Rattle.zone_transfer.specs.Turning.{between};
ghost use Rattle.zone_fetch_run.specs.Fetching.{IsAnswered, IsBrought, IsFetchedBy, IsMissed, IsWhole, over};

use crate::command::Command;
use crate::leading::{Detour, Left, course_of_changes, course_of_fault, judged_by};
use crate::world::Means;
use client_core::{Clock, Edge};
use client_request::Words;
use dns_base::Serial;
use resolv_conf::{ServerConf, Transport};
use std::alloc::Global;
use zone_records::{XfrKind, Zone};
use zone_transfer::{FetchFault, Progress, fetch_told};

/// An edge learns the server as its first, and a zone or its changes are fetched over it: how many changes did not fit the zone.
fn fetch_by<E: Edge, C: Clock, W: Words, P: Progress>(
    alloc: Global,
    command: &Command,
    kind: XfrKind,
    zone: &mut Zone,
    edge: &mut E,
    means: &mut Means<C, W, P>,
) -> Result<u64, FetchFault>
    ensures fetched { IfOk result (λ misfits. between E.deeds E.polls C.given (edge.old, means.old.clock) (edge.new, means.new.clock) (IsFetchedBy command.now kind (W.stream means.old.random) zone.old zone.new misfits)) }
    ensures missed { IfErr result (λ fault. between E.deeds E.polls C.given (edge.old, means.old.clock) (edge.new, means.new.clock) (λ old new. IsMissed command.now kind (W.stream means.old.random) zone.old old new fault)) }
    ensures serial { OnOk result (IsSome zone.new.serial) }
{
    edge.learn_server(&ServerConf::new(command.server, Transport::Tcp))?;
    fetch_told(
        alloc,
        zone,
        kind,
        command.most,
        edge,
        &mut means.clock,
        &mut means.random,
        &mut means.progress,
    )
}

/// The serial of a zone that has one.
fn serial_of(zone: &Zone) -> Serial
    requires { IsSome zone.now.serial }
    ensures { zone.now.serial ≡ Some result.0 }
{
    match zone.serial() {
        Some(serial) => serial,
        None => Serial(0),
    }
}

/// Asks for the changes of a zone that has a serial. Where they lead on the zone has them.
fn fetch_changes<E: Edge, C: Clock, W: Words, P: Progress>(
    alloc: Global,
    command: &Command,
    have: Serial,
    zone: &mut Zone,
    edge: &mut E,
    means: &mut Means<C, W, P>,
) -> Result<Option<Detour>, Left>
    ensures { between E.deeds E.polls C.given (edge.old, means.old.clock) (edge.new, means.new.clock) (IsAnswered command.now (W.stream means.old.random) have zone.old zone.new result) }
{
    match fetch_by(alloc, command, XfrKind::Ixfr, zone, edge, means) {
        Ok(misfits) => course_of_changes(have, serial_of(zone), misfits),
        Err(fault) => course_of_fault(command.whole_at_servfail, have, fault),
    }
}

/// Asks for the whole zone, where one of this serial is there already, or none.
fn fetch_whole<E: Edge, C: Clock, W: Words, P: Progress>(
    alloc: Global,
    command: &Command,
    have: Option<Serial>,
    zone: &mut Zone,
    edge: &mut E,
    means: &mut Means<C, W, P>,
) -> Result<(), Left>
    ensures { between E.deeds E.polls C.given (edge.old, means.old.clock) (edge.new, means.new.clock) (IsWhole command.now (W.stream means.old.random) have zone.old zone.new result) }
{
    match fetch_by(alloc, command, XfrKind::Axfr, zone, edge, means) {
        Ok(_) => judged_by(have, serial_of(zone)),
        Err(fault) => Err(Left::NotFetched(fault)),
    }
}

/// Asks for the whole zone in place of one of this serial, whose memory is free then.
fn fetch_anew<E: Edge, C: Clock, W: Words, P: Progress>(
    alloc: Global,
    command: &Command,
    have: Serial,
    zone: &mut Zone,
    edge: &mut E,
    means: &mut Means<C, W, P>,
) -> Result<(), Left>
    ensures { between E.deeds E.polls C.given (edge.old, means.old.clock) (edge.new, means.new.clock) (IsWhole command.now (W.stream means.old.random) (Some have) (empty_zone command.now.apex) zone.new result) }
{
    let Ok(apex) = command.apex.try_clone(alloc) else {
        return Err(Left::NotFetched(FetchFault::NoMemory));
    };
    *zone = Zone::empty(alloc, apex);
    fetch_whole(alloc, command, Some(have), zone, edge, means)
}

/// Brings a zone with this serial to what the server has: its changes are asked for, and where these do not lead on the whole zone over
/// the later edge. Why that is, and whether the zone is there.
fn bring_on<E: Edge, C: Clock, W: Words, P: Progress>(
    alloc: Global,
    command: &Command,
    have: Serial,
    zone: &mut Zone,
    edge: &mut E,
    later: &mut E,
    means: &mut Means<C, W, P>,
) -> (Option<Detour>, Result<(), Left>)
    requires { zone.old.serial ≡ Some have.0 }
    ensures { over E.deeds E.polls C.given (edge.old, later.old, means.old.clock) (edge.new, later.new, means.new.clock) (IsBrought command.now (W.stream means.old.random) zone.old zone.new result.0 result.1) }
{
    match fetch_changes(alloc, command, have, zone, edge, means) {
        Ok(None) => (None, Ok(())),
        Ok(Some(why)) => {
            let end = fetch_anew(alloc, command, have, zone, later, means);
            (Some(why), end)
        }
        Err(left) => (None, Err(left)),
    }
}

/// Brings a zone to what the server has: without a serial the whole zone is asked for, and else its changes, and where these do not
/// lead on the whole zone over the later edge. Why that is, and whether the zone is there.
pub(crate) fn bring<E: Edge, C: Clock, W: Words, P: Progress>(
    alloc: Global,
    command: &Command,
    zone: &mut Zone,
    edge: &mut E,
    later: &mut E,
    means: &mut Means<C, W, P>,
) -> (Option<Detour>, Result<(), Left>)
    ensures { over E.deeds E.polls C.given (edge.old, later.old, means.old.clock) (edge.new, later.new, means.new.clock) (IsBrought command.now (W.stream means.old.random) zone.old zone.new result.0 result.1) }
{
    match zone.serial() {
        Some(have) => bring_on(alloc, command, have, zone, edge, later, means),
        None => {
            let end = fetch_whole(alloc, command, None, zone, edge, means);
            (None, end)
        }
    }
}
