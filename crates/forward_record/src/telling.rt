//! What is told of a record.

ghost use Rattle.std.specs.Prelude.{◌≡◌, ◌⊎◌, IfOk};
ghost use Rattle.std.specs.String.{string_bytes};
ghost use Rattle.command_parts.specs.Ends.{IsSaid};
ghost use Rattle.forward_record.specs.Sentences.{ended_line, unrecorded_line, unrecorded_sentence};
ghost use Rattle.forward_record.specs.Telling.{HasTold};

use command_parts::{deliver, end_by, say};
use dns_base::{NoMemory, Status};
use dns_record::{Ended, Refused};
use dns_values::Sink;
use forward_conf::end_without_memory;
use record_file::NOT_RECORDED;
use std::alloc::Global;

/// The line that tells why nothing is recorded.
fn unrecorded(alloc: Global, refused: Refused) -> Result<String, NoMemory>
    ensures { IfOk result (λ s. string_bytes s ≡ unrecorded_line refused) }
{
    Ok(format!(in alloc; "nothing is recorded: {refused}\n")?)
}

/// The sentence that tells the same.
fn unrecorded_sentence(alloc: Global, refused: Refused) -> Result<String, NoMemory>
    ensures { IfOk result (λ s. string_bytes s ≡ unrecorded_sentence refused) }
{
    Ok(format!(in alloc; "dns_forward: nothing is recorded: {refused}\n")?)
}

/// Tells why nothing is recorded.
pub(crate) fn tell_unrecorded<K: Sink, L: Sink>(
    alloc: Global,
    refused: Refused,
    sink: &mut K,
    errors: &mut L,
) -> Status
    ensures status { (result.0 ≡ 8) ⊎ (result.0 ≡ 6) }
    ensures said { result.0 ≡ 8 → IsSaid (unrecorded_line refused) (K.held sink.old) (K.held sink.new) (K.faults sink.old) (K.faults sink.new) }
    ensures told { result.0 ≡ 8 → IsSaid (unrecorded_sentence refused) (L.held errors.old) (L.held errors.new) (L.faults errors.old) (L.faults errors.new) }
{
    let (Ok(line), Ok(sentence)) = (
        unrecorded(alloc, refused),
        unrecorded_sentence(alloc, refused),
    ) else {
        return end_without_memory(errors);
    };
    match say(sink, line.as_bytes()) {
        Ok(()) => end_by(errors, NOT_RECORDED, sentence.as_bytes()),
        Err(NoMemory) => end_without_memory(errors),
    }
}

/// The line that tells why a record ended.
fn ended_text(alloc: Global, ended: Ended) -> Result<String, NoMemory>
    ensures { IfOk result (λ s. string_bytes s ≡ ended_line ended) }
{
    Ok(format!(in alloc; "dns_forward: the record ended: {ended}\n")?)
}

/// Tells why a record ended, if it did now, as far as the sink takes it.
#[tactic(auto, using(crate::proofs::Told::told_nothing, crate::proofs::Told::told_some))]
pub(crate) fn tell_ended<L: Sink>(
    alloc: Global,
    was: Option<Ended>,
    ended: Option<Ended>,
    errors: &mut L,
)
    ensures { HasTold (L.held errors.old) (L.held errors.new) (L.faults errors.old) (L.faults errors.new) }
{
    if was.is_some() {
        return;
    }
    let Some(ended) = ended else {
        return;
    };
    if let Ok(line) = ended_text(alloc, ended) {
        deliver(errors, line.as_bytes());
    }
}
