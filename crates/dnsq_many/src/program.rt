//! What the program does, with threads.

ghost use Rattle.std.specs.Prelude.{◌≡◌, ◌≢◌, ◌⊎◌, [], true, false, Some, None, IfSome};
ghost use Rattle.dns_values.specs.Source.{Rose};
ghost use Rattle.dns_values.specs.Sink.{IsFlushed};
ghost use Rattle.dnsq_run.specs.Generating.{SummarizesSo, count_of};
ghost use Rattle.command_parts.specs.Ends.{IsSaid};
ghost use Rattle.dnsq_run.specs.Program.{EndsByLine, IfInput, IsTaken, RanOut, RefusalIsSaid, StopsForNumbers, IsDelivered, IsCut, IsStatus, numbers_line, usage_line};
ghost use Rattle.dnsq_run.specs.Query.{OtherEnd, on};
ghost use Rattle.dnsq_run.specs.QueryWords.{query_of};
ghost use Rattle.dnsq_run.specs.Words.{command_of};
ghost use Rattle.dnsq_many.specs.Many.{EndsSo, is_many};

use crate::many::many;
use client_core::{Clock, Edge};
use client_request::Words;
use command_parts::{Ending, deliver, end_by};
use dns_base::Status;
use dns_script::script_laws;
use dns_values::{Sink, Source};
use dnsq_run::run_alone;
use std::alloc::Global;
use std::sync::Wait;
use std::thread::Threads;

/// Whether the words are `many` alone.
fn is_many(words: &[String]) -> bool
    ensures { result ≡ is_many words.now }
{
    match words {
        [word] => word.as_bytes() == b"many".as_slice(),
        _ => false,
    }
}

/// Words that are `many` alone are no other command. It does nothing.
fn no_other(words: &[String])
    ensures no_command { is_many words.now ≡ true → command_of words.now ≡ None }
    ensures no_query { is_many words.now ≡ true → query_of words.now ≡ None }
    ensures no_count { is_many words.now ≡ true → count_of words.now ≡ None }
{
    let _count = words.len();
}

/// Writes what the lanes of a script make of one client.
fn run_many<R: Threads + Wait + Sync, S: Source, K: Sink>(
    rt: &R,
    alloc: Global,
    source: &mut S,
    sink: &mut K,
) -> Status
    ensures statuses { IsStatus result.0 }
    ensures no_usage { result.0 ≢ 2 }
    ensures no_reply { result.0 ≢ 5 }
    ensures ends { EndsSo result.0 (S.left source.old) (S.left source.new) (K.held sink.old) (K.held sink.new) (K.faults sink.old) (K.faults sink.new) }
    ensures flushed { result.0 ≡ 0 → IsFlushed (K.held sink.new) (K.flushed sink.new) }
    ensures source_fault { result.0 ≡ 3 → Rose (S.faults source.old) (S.faults source.new) }
    ensures silent { result.0 ≡ 3 → K.held sink.new ≡ K.held sink.old }
    ensures sink_fault { result.0 ≡ 4 → Rose (K.faults sink.old) (K.faults sink.new) }
    ensures numbers_line { result.0 ≡ 7 → IsSaid numbers_line (K.held sink.old) (K.held sink.new) (K.faults sink.old) (K.faults sink.new) }
    ensures line_flushed { EndsByLine result.0 → IsFlushed (K.held sink.new) (K.flushed sink.new) ⊎ Rose (K.faults sink.old) (K.faults sink.new) }
{
    script_laws();
    match many(rt, alloc, source) {
        Ok(text) => deliver(sink, &text),
        Err(Ending::Silent(status)) => status,
        Err(Ending::Says(status, line)) => end_by(sink, status, &line),
    }
}

/// Does what the words ask for, on a source and a sink, and answers the exit status. Where they are `many` alone, each lane of
/// the script is submitted by a thread of its own; all else is done by `run_alone`.
pub fn run<R: Threads + Wait + Sync, S: Source, K: Sink, E: Edge, C: Clock, W: Words>(
    rt: &R,
    alloc: Global,
    words: &[String],
    source: &mut S,
    sink: &mut K,
    edge: &mut E,
    clock: &mut C,
    random: &mut W,
) -> Status
    ensures statuses { IsStatus result.0 }
    ensures usage { result.0 ≡ 2 → command_of words.now ≡ None }
    ensures no_query { result.0 ≡ 2 → query_of words.now ≡ None }
    ensures no_reply { result.0 ≡ 5 → command_of words.now ≡ None }
    ensures no_count { result.0 ≡ 2 → count_of words.now ≡ None }
    ensures no_command { is_many words.now ≡ false → command_of words.now ≡ None → query_of words.now ≡ None → count_of words.now ≡ None → (result.0 ≡ 2) ⊎ (result.0 ≡ 6) }
    ensures usage_line { result.0 ≡ 2 → IsSaid usage_line (K.held sink.old) (K.held sink.new) (K.faults sink.old) (K.faults sink.new) }

    // The output.
    ensures done { result.0 ≡ 0 → IfInput (command_of words.now) (S.left source.old) (λ command text.
        IsDelivered command text (K.held sink.old) (K.held sink.new) × (S.left source.new ≡ Some [])) }
    ensures flushed { result.0 ≡ 0 → IsFlushed (K.held sink.new) (K.flushed sink.new) }

    // A query: the servers are asked, and the line of what they answer is written.
    ensures query { on E.deeds E.polls C.given W.stream S.left K.held K.faults (edge.old, clock.old, random.old, source.old, sink.old) (edge.new, clock.new, random.new, source.new, sink.new) (OtherEnd words.now result.0) }

    // `gen N`: the summary of what the generated script's replay comes to is written, and the source is left alone.
    ensures summarized { IfSome (count_of words.now) (λ n. SummarizesSo n result.0 (K.held sink.old) (K.held sink.new)) }
    ensures source_left { IfSome (count_of words.now) (λ _. S.left source.new ≡ S.left source.old) }
    ensures source_faults { IfSome (count_of words.now) (λ _. S.faults source.new ≡ S.faults source.old) }

    // A refusal.
    ensures refused { result.0 ≡ 1 → IfInput (command_of words.now) (S.left source.old) (λ command text.
        RefusalIsSaid command text (K.held sink.old) (K.held sink.new) (K.faults sink.old) (K.faults sink.new)) }
    ensures complete { IfInput (command_of words.now) (S.left source.old) (λ command text. IsTaken command text → result.0 ≢ 1) }

    // Faults.
    ensures source_fault { result.0 ≡ 3 → Rose (S.faults source.old) (S.faults source.new) }
    ensures silent { result.0 ≡ 3 → K.held sink.new ≡ K.held sink.old }
    ensures sink_fault { result.0 ≡ 4 → Rose (K.faults sink.old) (K.faults sink.new) }
    ensures cut { result.0 ≡ 4 → IfInput (command_of words.now) (S.left source.old) (λ command text.
        IsCut command text (K.held sink.old) (K.held sink.new)) }

    // Memory and numbers.
    ensures memory { result.0 ≡ 6 → is_many words.now ≡ false → RanOut (command_of words.now) (query_of words.now) (count_of words.now) (S.left source.old) (K.held sink.old) (K.held sink.new) }
    ensures numbers { result.0 ≡ 7 → IfInput (command_of words.now) (S.left source.old) (λ command text. StopsForNumbers command text) }
    ensures numbers_line { result.0 ≡ 7 → IsSaid numbers_line (K.held sink.old) (K.held sink.new) (K.faults sink.old) (K.faults sink.new) }
    ensures stops { IfInput (command_of words.now) (S.left source.old) (λ command text. StopsForNumbers command text → result.0 ≢ 0) }

    // A line that tells why nothing else is written is handed on too.
    ensures line_flushed { EndsByLine result.0 → IsFlushed (K.held sink.new) (K.flushed sink.new) ⊎ Rose (K.faults sink.old) (K.faults sink.new) }

    // Lanes that share one client.
    ensures many { is_many words.now ≡ true → EndsSo result.0 (S.left source.old) (S.left source.new) (K.held sink.old) (K.held sink.new) (K.faults sink.old) (K.faults sink.new) }
{
    no_other(words);
    if is_many(words) {
        return run_many(rt, alloc, source, sink);
    }
    run_alone(alloc, words, source, sink, edge, clock, random)
}
