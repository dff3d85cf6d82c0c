//! What is told of an end, to a sink of lines and to one of sentences.

ghost use Rattle.std.specs.Prelude.{◌≡◌, ◌≢◌, ◌⊎◌};
ghost use Rattle.command_parts.specs.Ends.{IsSaid};
ghost use Rattle.dns_values.specs.Sink.{IsFlushed};
ghost use Rattle.dns_values.specs.Source.{Rose};
ghost use Rattle.trace_audit_run.specs.Lines.{usage_line};
ghost use Rattle.trace_audit_run.specs.Sentences.{stop_sentence, unwritten_sentence, usage_sentence};
ghost use Rattle.trace_audit_run.specs.Stops.{Tells, line_of, status_of};

use crate::lines::USAGE_LINE;
use crate::sentences::{MEMORY, UNWRITTEN, stop_sentence, usage_sentence};
use crate::stop::{Stop, end_at, status_of};
use command_parts::{end_by, say, statuses};
use dns_base::{NoMemory, Status};
use dns_values::Sink;
use std::alloc::Global;

/// Tells that memory ran out, as far as the sink takes it.
pub fn tell_no_memory<L: Sink>(errors: &mut L) -> Status
    ensures { result.0 ≡ 6 }
{
    end_by(errors, statuses::NO_MEMORY, MEMORY)
}

/// Tells how the program is used, and why words name no script and trace.
pub(crate) fn tell_usage<K: Sink, L: Sink>(
    alloc: Global,
    names: &[String],
    sink: &mut K,
    errors: &mut L,
) -> Status
    ensures status { (result.0 ≡ 2) ⊎ (result.0 ≡ 6) }
    ensures said { result.0 ≡ 2 → IsSaid usage_line (K.held sink.old) (K.held sink.new) (K.faults sink.old) (K.faults sink.new) }
    ensures told { result.0 ≡ 2 → IsSaid (usage_sentence names.now) (L.held errors.old) (L.held errors.new) (L.faults errors.old) (L.faults errors.new) }
    ensures flushed { result.0 ≡ 2 → IsFlushed (L.held errors.new) (L.flushed errors.new) ⊎ Rose (L.faults errors.old) (L.faults errors.new) }
{
    let Ok(sentence) = usage_sentence(alloc, names) else {
        return tell_no_memory(errors);
    };
    match say(sink, USAGE_LINE.as_bytes()) {
        Ok(()) => end_by(errors, statuses::USAGE, sentence.as_bytes()),
        Err(NoMemory) => tell_no_memory(errors),
    }
}

/// Tells why nothing is said of a trace, in a line and in a sentence.
pub(crate) fn tell_stop<K: Sink, L: Sink>(
    alloc: Global,
    names: &[String],
    stop: Stop,
    sink: &mut K,
    errors: &mut L,
) -> Status
    ensures status { (result.0 ≡ status_of stop) ⊎ (result.0 ≡ 6) }
    ensures others { (result.0 ≡ 1) ⊎ ((result.0 ≡ 3) ⊎ (result.0 ≡ 6)) }
    ensures said { result.0 ≢ 6 → Tells (line_of stop) (K.held sink.old) (K.held sink.new) (K.faults sink.old) (K.faults sink.new) }
    ensures told { result.0 ≢ 6 → IsSaid (stop_sentence names.now stop) (L.held errors.old) (L.held errors.new) (L.faults errors.old) (L.faults errors.new) }
    ensures flushed { result.0 ≢ 6 → IsFlushed (L.held errors.new) (L.flushed errors.new) ⊎ Rose (L.faults errors.old) (L.faults errors.new) }
{
    let Ok(sentence) = stop_sentence(alloc, names, stop) else {
        return tell_no_memory(errors);
    };
    if end_at(alloc, sink, stop) == statuses::NO_MEMORY {
        return tell_no_memory(errors);
    }
    end_by(errors, status_of(stop), sentence.as_bytes())
}

/// Ends by the status with which an output was written, and tells why it is not written whole.
pub(crate) fn tell_written<L: Sink>(status: Status, errors: &mut L) -> Status
    requires { (status.0 ≡ 0) ⊎ ((status.0 ≡ 4) ⊎ (status.0 ≡ 6)) }
    ensures status { (result ≡ status) ⊎ (result.0 ≡ 6) }
    ensures quiet { result.0 ≡ 0 → L.held errors.new ≡ L.held errors.old }
    ensures said { result.0 ≡ 4 → IsSaid unwritten_sentence (L.held errors.old) (L.held errors.new) (L.faults errors.old) (L.faults errors.new) }
    ensures flushed { result.0 ≡ 4 → IsFlushed (L.held errors.new) (L.flushed errors.new) ⊎ Rose (L.faults errors.old) (L.faults errors.new) }
{
    if status == statuses::SINK_FAULT {
        return end_by(errors, status, UNWRITTEN);
    }
    if status == statuses::NO_MEMORY {
        return tell_no_memory(errors);
    }
    status
}

/// Ends by the status with which an answer was written, and tells in this sentence that the trace is not so, where it is not.
pub(crate) fn tell_written_answer<L: Sink>(
    status: Status,
    sentence: &[u8],
    errors: &mut L,
) -> Status
    requires { (status.0 ≡ 0) ⊎ ((status.0 ≡ 4) ⊎ ((status.0 ≡ 5) ⊎ (status.0 ≡ 6))) }
    ensures status { (result ≡ status) ⊎ (result.0 ≡ 6) }
    ensures quiet { result.0 ≡ 0 → L.held errors.new ≡ L.held errors.old }
    ensures said { result.0 ≡ 4 → IsSaid unwritten_sentence (L.held errors.old) (L.held errors.new) (L.faults errors.old) (L.faults errors.new) }
    ensures denied { result.0 ≡ 5 → IsSaid sentence.now (L.held errors.old) (L.held errors.new) (L.faults errors.old) (L.faults errors.new) }
    ensures flushed { result.0 ≢ 0 → result.0 ≢ 6 → IsFlushed (L.held errors.new) (L.flushed errors.new) ⊎ Rose (L.faults errors.old) (L.faults errors.new) }
{
    if status == statuses::NO_REPLY {
        return end_by(errors, status, sentence);
    }
    tell_written(status, errors)
}
