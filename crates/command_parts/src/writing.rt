//! What is written whole, and handed on.

ghost use Rattle.std.specs.Prelude.{◌≡◌, ◌≢◌, ◌≤◌, ◌⊎◌, OnOk};
ghost use Rattle.dns_values.specs.Source.{Rose};
ghost use Rattle.dns_values.specs.Sink.{IsFlushed, with_octets};
ghost use Rattle.command_parts.specs.Ends.{IsBegun, IsSaid};

use crate::statuses::{DONE, NO_MEMORY, SINK_FAULT};
use dns_base::{NoMemory, Status};
use dns_values::{Sink, SinkFault, write_all};

/// Writes an output whole, and hands it on.
#[tactic(auto, using(crate::proofs::Delivery::begun_whole, crate::proofs::Delivery::begun_front))]
pub fn deliver<K: Sink>(sink: &mut K, text: &[u8]) -> Status
    ensures done { result.0 ≡ 0 → K.held sink.new ≡ with_octets text.now (K.held sink.old) }
    ensures flushed { result.0 ≡ 0 → IsFlushed (K.held sink.new) (K.flushed sink.new) }
    ensures begun { IsBegun text.now (K.held sink.old) (K.held sink.new) }
    ensures sink_fault { result.0 ≡ 4 → Rose (K.faults sink.old) (K.faults sink.new) }
    ensures count { K.faults sink.old ≤ K.faults sink.new }
    ensures others { (result.0 ≡ 0) ⊎ ((result.0 ≡ 4) ⊎ (result.0 ≡ 6)) }
{
    match write_all(sink, text) {
        Ok(()) => match sink.flush() {
            Ok(()) => DONE,
            Err(_) => SINK_FAULT,
        },
        Err(SinkFault::Failed) => SINK_FAULT,
        Err(SinkFault::NoMemory) => NO_MEMORY,
    }
}

/// Writes a line and hands it on, as far as the sink takes it. `NoMemory` where the sink found none.
#[tactic(auto, using(crate::proofs::Delivery::begun_whole, crate::proofs::Delivery::begun_front, crate::proofs::Delivery::said_whole, crate::proofs::Delivery::said_front))]
pub fn say<K: Sink>(sink: &mut K, line: &[u8]) -> Result<(), NoMemory>
    ensures begun { IsBegun line.now (K.held sink.old) (K.held sink.new) }
    ensures said { OnOk result (IsSaid line.now (K.held sink.old) (K.held sink.new) (K.faults sink.old) (K.faults sink.new)) }
    ensures flushed { OnOk result (IsFlushed (K.held sink.new) (K.flushed sink.new) ⊎ Rose (K.faults sink.old) (K.faults sink.new)) }
{
    match write_all(sink, line) {
        Ok(()) => {
            // A fault of the sink is told by its count alone.
            let _ = sink.flush();
            Ok(())
        }
        Err(SinkFault::Failed) => Ok(()),
        Err(SinkFault::NoMemory) => Err(NoMemory),
    }
}

/// Ends by a line that tells why nothing else is written.
pub fn end_by<K: Sink>(sink: &mut K, status: Status, line: &[u8]) -> Status
    ensures status { (result ≡ status) ⊎ (result.0 ≡ 6) }
    ensures begun { IsBegun line.now (K.held sink.old) (K.held sink.new) }
    ensures said { result.0 ≢ 6 → IsSaid line.now (K.held sink.old) (K.held sink.new) (K.faults sink.old) (K.faults sink.new) }
    ensures flushed { result.0 ≢ 6 → IsFlushed (K.held sink.new) (K.flushed sink.new) ⊎ Rose (K.faults sink.old) (K.faults sink.new) }
{
    match say(sink, line) {
        Ok(()) => status,
        Err(NoMemory) => NO_MEMORY,
    }
}
