//! Where a zone goes: to a sink, or in the place of a file.

ghost use Rattle.std.specs.Prelude.{◌≡◌, ◌≢◌, ◌⊎◌};
ghost use Rattle.dns_values.specs.Sink.{IsFlushed};
ghost use Rattle.dns_values.specs.Source.{Rose};
ghost use Rattle.zone_fetch_run.specs.Ends.{Failed, PutsInPart, PutsZone};
ghost use Rattle.zone_fetch_run.specs.Lines.{BeginsZone, WritesZone};
ghost use Rattle.zone_fetch_run.specs.Places.{PlacesZone};

use crate::command::Command;
use crate::lines::write_zone;
use crate::replacing::Replacing;
use command_parts::statuses;
use dns_base::{Sink, SinkFault, Status};
use std::alloc::Global;
use zone_records::Zone;

/// Writes a zone.
pub(crate) fn tell_zone<K: Sink>(
    alloc: Global,
    sink: &mut K,
    zone: &Zone,
    is_loaded: bool,
) -> Status
    ensures whole { result.0 ≡ 0 → WritesZone is_loaded zone.now.records (K.held sink.old) (K.held sink.new) }
    ensures begun { BeginsZone is_loaded zone.now.records (K.held sink.old) (K.held sink.new) }
    ensures flushed { result.0 ≡ 0 → IsFlushed (K.held sink.new) (K.flushed sink.new) }
    ensures failed { result.0 ≡ 4 → Rose (K.faults sink.old) (K.faults sink.new) }
    ensures others { (result.0 ≡ 0) ⊎ ((result.0 ≡ 4) ⊎ (result.0 ≡ 6)) }
{
    match write_zone(alloc, sink, zone.records(), is_loaded) {
        Ok(()) => statuses::DONE,
        Err(SinkFault::Failed) => statuses::SINK_FAULT,
        Err(SinkFault::NoMemory) => statuses::NO_MEMORY,
    }
}

/// Writes a zone beside the file at a path, and puts it in its place once it is whole.
#[tactic(auto, using(crate::proofs::Placing::places_zone, crate::proofs::Placing::is_hurt, crate::proofs::Writing::rose_later))]
fn replace<F: Replacing>(
    alloc: Global,
    files: &mut F,
    path: &str,
    zone: &Zone,
    is_loaded: bool,
) -> Status
    ensures placed { result.0 ≡ 0 → PlacesZone is_loaded zone.now.records path.now (F.placed files.old) (F.placed files.new) }
    ensures kept { result.0 ≢ 0 → F.placed files.new ≡ F.placed files.old }
    ensures failed { result.0 ≡ 4 → Rose (F.faults files.old) (F.faults files.new) }
    ensures others { (result.0 ≡ 0) ⊎ ((result.0 ≡ 4) ⊎ (result.0 ≡ 6)) }
{
    let Ok(mut file) = files.begin(path) else {
        return statuses::SINK_FAULT;
    };
    let status = tell_zone(alloc, &mut file, zone, is_loaded);
    if status != statuses::DONE {
        files.abandon(file);
        return status;
    }
    match files.place(file, path) {
        Ok(()) => statuses::DONE,
        Err(_) => statuses::SINK_FAULT,
    }
}

/// Puts a zone where the words say.
pub(crate) fn put_zone<K: Sink, F: Replacing>(
    alloc: Global,
    command: &Command,
    sink: &mut K,
    files: &mut F,
    zone: &Zone,
) -> Status
    ensures whole { result.0 ≡ 0 → PutsZone command.now.output command.now.text zone.now.records (K.held sink.old, F.placed files.old) (K.held sink.new, F.placed files.new) (K.flushed sink.new) }
    ensures part { PutsInPart command.now.output command.now.text zone.now.records (K.held sink.old) (K.held sink.new) }
    ensures kept { result.0 ≢ 0 → F.placed files.new ≡ F.placed files.old }
    ensures failed { result.0 ≡ 4 → Failed command.now.output (K.faults sink.old, F.faults files.old) (K.faults sink.new, F.faults files.new) }
    ensures others { (result.0 ≡ 0) ⊎ ((result.0 ≡ 4) ⊎ (result.0 ≡ 6)) }
{
    match &command.output {
        Some(path) => replace(alloc, files, path.as_str(), zone, command.text),
        None => tell_zone(alloc, sink, zone, command.text),
    }
}
