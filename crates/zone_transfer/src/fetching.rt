//! A zone that is fetched.

ghost use Rattle.std.specs.Prelude.{◌≡◌, IfOk, IfErr, OnOk, OnErr};
ghost use Rattle.zone_records.specs.Folding.{Applies};
ghost use Rattle.zone_transfer.specs.Fetching.{IsCause, IsFetched, IsUnappliable};
ghost use Rattle.zone_transfer.specs.Reading.{IsWithin};
ghost use Rattle.zone_transfer.specs.Turning.{between};

use crate::asked::Asked;
use crate::asking::request_of;
use crate::fault::{FetchFault, fault_of};
use crate::progress::{Progress, Silent};
use crate::reading::Reading;
use client_core::{Clock, Edge};
use client_request::Words;
use std::alloc::Global;
use zone_records::{ApplyFault, XfrFault, XfrKind, Zone};

/// Fetches a zone from server 0 of an edge: whole, or the changes since its serial, in whose place a server may send the whole
/// zone. The edge is to have learned that server, and no place was opened there before.
///
/// The number is how many records were to be deleted and weren't there, or to be added and were: where it isn't 0, the zone was
/// another than the server knows under its serial. A whole zone has none. A refusal leaves the zone as it was; the edge is not to
/// be used again then.
///
/// `Connect` where the stream can't be opened, `Transport` where it fails or what comes is no answer, `Refused` where a message
/// has another response code than 0, `Xfr` where the messages are no transfer or say that there are no changes, `Apply` where
/// the changes are those of a zone with another serial, `NoReply` after `MOST_TURNS` turns, and `NoMemory`.
pub fn fetch<E: Edge, C: Clock, W: Words>(
    alloc: Global,
    zone: &mut Zone,
    kind: XfrKind,
    edge: &mut E,
    clock: &mut C,
    words: &mut W,
) -> Result<u64, FetchFault>
    ensures fetched { IfOk result (λ missing. between E.deeds E.polls C.given (edge.old, clock.old) (edge.new, clock.new) (IsFetched kind (W.stream words.old) 18446744073709551615 zone.old zone.new missing)) }
    ensures cause { IfErr result (λ fault. between E.deeds E.polls C.given (edge.old, clock.old) (edge.new, clock.new) (λ old new. IsCause kind (W.stream words.old) 18446744073709551615 zone.old old new fault)) }
    ensures kept { OnErr result (zone.new ≡ zone.old) }
{
    fetch_within(alloc, zone, kind, u64::MAX, edge, clock, words)
}

/// As `fetch`, and `TooLarge` once the updates are reckoned to take more than so many octets of memory.
pub fn fetch_within<E: Edge, C: Clock, W: Words>(
    alloc: Global,
    zone: &mut Zone,
    kind: XfrKind,
    most: u64,
    edge: &mut E,
    clock: &mut C,
    words: &mut W,
) -> Result<u64, FetchFault>
    ensures fetched { IfOk result (λ missing. between E.deeds E.polls C.given (edge.old, clock.old) (edge.new, clock.new) (IsFetched kind (W.stream words.old) most zone.old zone.new missing)) }
    ensures cause { IfErr result (λ fault. between E.deeds E.polls C.given (edge.old, clock.old) (edge.new, clock.new) (λ old new. IsCause kind (W.stream words.old) most zone.old old new fault)) }
    ensures kept { OnErr result (zone.new ≡ zone.old) }
{
    fetch_told(alloc, zone, kind, most, edge, clock, words, &mut Silent)
}

/// As `fetch_within`, and it is told after each turn how far the transfer is.
pub fn fetch_told<E: Edge, C: Clock, W: Words, P: Progress>(
    alloc: Global,
    zone: &mut Zone,
    kind: XfrKind,
    most: u64,
    edge: &mut E,
    clock: &mut C,
    words: &mut W,
    progress: &mut P,
) -> Result<u64, FetchFault>
    ensures fetched { IfOk result (λ missing. between E.deeds E.polls C.given (edge.old, clock.old) (edge.new, clock.new) (IsFetched kind (W.stream words.old) most zone.old zone.new missing)) }
    ensures cause { IfErr result (λ fault. between E.deeds E.polls C.given (edge.old, clock.old) (edge.new, clock.new) (λ old new. IsCause kind (W.stream words.old) most zone.old old new fault)) }
    ensures kept { OnErr result (zone.new ≡ zone.old) }
{
    let apex = zone.apex().try_clone(alloc)?;
    let request = match request_of(alloc, zone, kind) {
        Ok(request) => request,
        Err(error) => return Err(fault_of(error)),
    };
    let mut reading = Reading::new(alloc, apex, kind, most);
    let mut asked = Asked::begin(alloc, edge, clock, words, request)?;
    match asked.read_all(&mut reading, edge, clock, words, progress) {
        Ok(()) => {}
        Err(fault) => return Err(fault),
    }
    if !reading.is_finished() {
        return Err(FetchFault::Xfr(XfrFault::NotValid));
    }
    apply(zone, reading)
}

/// Applies what was read.
fn apply(zone: &mut Zone, reading: Reading) -> Result<u64, FetchFault>
    ensures applied { IfOk result (Applies zone.old reading.state.updates zone.new) }
    ensures within { OnOk result (IsWithin reading.most reading.state.updates) }
    ensures refused { IfErr result (IsUnappliable zone.old.serial reading.state.updates) }
    ensures kept { OnErr result (zone.new ≡ zone.old) }
{
    match zone.apply(reading.into_updates()) {
        Ok(missing) => Ok(missing),
        Err(ApplyFault::NoMemory) => Err(FetchFault::NoMemory),
        Err(fault) => Err(FetchFault::Apply(fault)),
    }
}
