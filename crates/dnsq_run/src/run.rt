//! What the program does, over a source, a sink and the rest of its world.

ghost use Rattle.std.specs.Prelude.{◌≡◌, ◌≢◌, ◌≤◌, ◌⊎◌, [], true, false, Some, None, IfSome, IfOk, IfErr, OnOk};
ghost use Rattle.dns_values.specs.Source.{Rose};
ghost use Rattle.dns_values.specs.Sink.{IsFlushed, with_octets};
ghost use Rattle.dnsq_run.specs.Generating.{SummarizesSo, count_of};
ghost use Rattle.command_parts.specs.Ends.{IsBegun, IsSaid, IsEarly, status_of, line_of};
ghost use Rattle.dnsq_run.specs.Program.{EndsByLine, IfInput, IsOutput, IsRefused, IsTaken, RanOut, RefusalIsSaid, StopsForNumbers, IsDelivered, IsCut, IsStatus, numbers_line, usage_line};
ghost use Rattle.dnsq_run.specs.Query.{EndsSo, OtherEnd, QueryEnd, answer_line, is_message, on};
ghost use Rattle.dnsq_run.specs.QueryWords.{query_of};
ghost use Rattle.dnsq_run.specs.Words.{command_of};

use crate::configure::configure;
use crate::generating::{count_of, summary};
use crate::laws::input_laws;
use crate::query::{Answer, answer_line, is_message, query};
use crate::query_words::{Query, query_of};
use crate::replay::replay;
use crate::usage::{Command, USAGE_LINE, command_of};
use client_core::{Clock, Edge};
use client_request::Words;
use command_parts::statuses::{NO_MEMORY, NO_REPLY, USAGE};
use command_parts::{Ending, deliver, end_by, say};
use dns_base::{NoMemory, Status};
use dns_values::{Sink, Source};
use std::alloc::Global;

/// Tells how the program is called.
fn tell_usage<K: Sink>(sink: &mut K) -> Status
    ensures status { (result.0 ≡ 2) ⊎ (result.0 ≡ 6) }
    ensures begun { IsBegun usage_line (K.held sink.old) (K.held sink.new) }
    ensures said { result.0 ≡ 2 → IsSaid usage_line (K.held sink.old) (K.held sink.new) (K.faults sink.old) (K.faults sink.new) }
    ensures flushed { result.0 ≡ 2 → IsFlushed (K.held sink.new) (K.flushed sink.new) ⊎ Rose (K.faults sink.old) (K.faults sink.new) }
{
    match say(sink, USAGE_LINE.as_bytes()) {
        Ok(()) => USAGE,
        Err(NoMemory) => NO_MEMORY,
    }
}

/// What a command makes of its input.
fn output<S: Source>(alloc: Global, command: Command, source: &mut S) -> Result<Vec<u8>, Ending>
    ensures done { IfOk result (λ v. IfSome (S.left source.old) (λ text. IsOutput command text v.items × (S.left source.new ≡ Some []))) }
    ensures early { IfErr result IsEarly }
    ensures source_fault { IfErr result (λ e. status_of e ≡ 3 → Rose (S.faults source.old) (S.faults source.new)) }
    ensures refused { IfErr result (λ e. status_of e ≡ 1 → IfSome (S.left source.old) (λ text. IsRefused command text (line_of e))) }
    ensures numbers { IfErr result (λ e. status_of e ≡ 7 → IfSome (S.left source.old) (λ text. StopsForNumbers command text)) }
    ensures numbers_line { IfErr result (λ e. status_of e ≡ 7 → line_of e ≡ numbers_line) }
{
    match command {
        Command::Replay => replay(alloc, source),
        Command::Conf => configure(alloc, source),
    }
}

/// Writes the line of an answer: an error, or none, ends by it.
fn write_answer<K: Sink>(alloc: Global, answer: Answer, sink: &mut K) -> Status
    ensures statuses { (result.0 ≡ 0) ⊎ ((result.0 ≡ 4) ⊎ ((result.0 ≡ 5) ⊎ (result.0 ≡ 6))) }
    ensures good { (result.0 ≡ 0) ⊎ (result.0 ≡ 4) → is_message answer ≡ true }
    ensures bad { result.0 ≡ 5 → is_message answer ≡ false }
    ensures done { result.0 ≡ 0 → K.held sink.new ≡ with_octets (answer_line answer) (K.held sink.old) }
    ensures flushed { result.0 ≡ 0 → IsFlushed (K.held sink.new) (K.flushed sink.new) }
    ensures said { result.0 ≡ 5 → IsSaid (answer_line answer) (K.held sink.old) (K.held sink.new) (K.faults sink.old) (K.faults sink.new) }
    ensures line_flushed { result.0 ≡ 5 → IsFlushed (K.held sink.new) (K.flushed sink.new) ⊎ Rose (K.faults sink.old) (K.faults sink.new) }
    ensures cut { result.0 ≡ 4 → IsBegun (answer_line answer) (K.held sink.old) (K.held sink.new) }
    ensures sink_fault { result.0 ≡ 4 → Rose (K.faults sink.old) (K.faults sink.new) }
    ensures memory { result.0 ≡ 6 → (K.held sink.new ≡ K.held sink.old) ⊎ IsBegun (answer_line answer) (K.held sink.old) (K.held sink.new) }
{
    let is_good = is_message(&answer);
    match answer_line(alloc, answer) {
        Ok(line) => {
            if is_good {
                deliver(sink, &line)
            } else {
                end_by(sink, NO_REPLY, &line)
            }
        }
        Err(NoMemory) => NO_MEMORY,
    }
}

/// Asks the servers of the configuration that a source gives, and writes the line of what they answer.
fn run_query<S: Source, K: Sink, E: Edge, C: Clock, W: Words>(
    alloc: Global,
    asked: &Query,
    source: &mut S,
    sink: &mut K,
    edge: &mut E,
    clock: &mut C,
    random: &mut W,
) -> Status
    ensures statuses { IsStatus result.0 }
    ensures ends { on E.deeds E.polls C.given W.stream S.left K.held K.faults (edge.old, clock.old, random.old, source.old, sink.old) (edge.new, clock.new, random.new, source.new, sink.new) (EndsSo asked.now result.0) }
    ensures flushed { result.0 ≡ 0 → IsFlushed (K.held sink.new) (K.flushed sink.new) }
    ensures source_fault { result.0 ≡ 3 → Rose (S.faults source.old) (S.faults source.new) }
    ensures silent { result.0 ≡ 3 → K.held sink.new ≡ K.held sink.old }
    ensures sink_fault { result.0 ≡ 4 → Rose (K.faults sink.old) (K.faults sink.new) }
    ensures numbers_line { result.0 ≡ 7 → IsSaid numbers_line (K.held sink.old) (K.held sink.new) (K.faults sink.old) (K.faults sink.new) }
    ensures line_flushed { EndsByLine result.0 → IsFlushed (K.held sink.new) (K.flushed sink.new) ⊎ Rose (K.faults sink.old) (K.faults sink.new) }
{
    match query(alloc, asked, source, edge, clock, random) {
        Ok(answer) => write_answer(alloc, answer, sink),
        Err(Ending::Silent(ended)) => ended,
        Err(Ending::Says(status, line)) => end_by(sink, status, &line),
    }
}

/// Does what words ask for that are no command over a source alone: a query, or else they are told how the program is called.
fn run_other<S: Source, K: Sink, E: Edge, C: Clock, W: Words>(
    alloc: Global,
    words: &[String],
    source: &mut S,
    sink: &mut K,
    edge: &mut E,
    clock: &mut C,
    random: &mut W,
) -> Status
    ensures statuses { IsStatus result.0 }
    ensures usage { result.0 ≡ 2 → query_of words.now ≡ None }
    ensures no_query { query_of words.now ≡ None → (result.0 ≡ 2) ⊎ (result.0 ≡ 6) }
    ensures usage_line { result.0 ≡ 2 → IsSaid usage_line (K.held sink.old) (K.held sink.new) (K.faults sink.old) (K.faults sink.new) }
    ensures ends { on E.deeds E.polls C.given W.stream S.left K.held K.faults (edge.old, clock.old, random.old, source.old, sink.old) (edge.new, clock.new, random.new, source.new, sink.new) (QueryEnd words.now result.0) }
    ensures flushed { result.0 ≡ 0 → IsFlushed (K.held sink.new) (K.flushed sink.new) }
    ensures source_fault { result.0 ≡ 3 → Rose (S.faults source.old) (S.faults source.new) }
    ensures silent { result.0 ≡ 3 → K.held sink.new ≡ K.held sink.old }
    ensures sink_fault { result.0 ≡ 4 → Rose (K.faults sink.old) (K.faults sink.new) }
    ensures memory { result.0 ≡ 6 → RanOut None (query_of words.now) None (S.left source.old) (K.held sink.old) (K.held sink.new) }
    ensures numbers_line { result.0 ≡ 7 → IsSaid numbers_line (K.held sink.old) (K.held sink.new) (K.faults sink.old) (K.faults sink.new) }
    ensures line_flushed { EndsByLine result.0 → IsFlushed (K.held sink.new) (K.flushed sink.new) ⊎ Rose (K.faults sink.old) (K.faults sink.new) }
{
    match query_of(alloc, words) {
        Ok(Some(asked)) => run_query(alloc, &asked, source, sink, edge, clock, random),
        Ok(None) => tell_usage(sink),
        Err(NoMemory) => NO_MEMORY,
    }
}

/// Writes the summary of the trace of the script that is generated for a count.
fn run_generated<K: Sink>(alloc: Global, n: u32, sink: &mut K) -> Status
    requires some { 1 ≤ n }
    requires few { n ≤ 1000 }
    ensures summarized { SummarizesSo n result.0 (K.held sink.old) (K.held sink.new) }
    ensures flushed { result.0 ≡ 0 → IsFlushed (K.held sink.new) (K.flushed sink.new) }
    ensures sink_fault { result.0 ≡ 4 → Rose (K.faults sink.old) (K.faults sink.new) }
    ensures numbers_line { result.0 ≡ 7 → IsSaid numbers_line (K.held sink.old) (K.held sink.new) (K.faults sink.old) (K.faults sink.new) }
    ensures line_flushed { result.0 ≡ 7 → IsFlushed (K.held sink.new) (K.flushed sink.new) ⊎ Rose (K.faults sink.old) (K.faults sink.new) }
{
    match summary(alloc, n) {
        Ok(summary) => deliver(sink, &summary),
        Err(Ending::Silent(ended)) => ended,
        Err(Ending::Says(status, line)) => end_by(sink, status, &line),
    }
}

/// Does what the words ask for, on a source and a sink, and answers the exit status.
///
/// `edge`, `clock` and `random` serve the commands that ask real servers.
pub fn run_alone<S: Source, K: Sink, E: Edge, C: Clock, W: Words>(
    alloc: Global,
    words: &[String],
    source: &mut S,
    sink: &mut K,
    edge: &mut E,
    clock: &mut C,
    random: &mut W,
) -> Status
    ensures statuses { IsStatus result.0 }
    ensures usage { result.0 ≡ 2 → command_of words.now ≡ None }
    ensures no_query { result.0 ≡ 2 → query_of words.now ≡ None }
    ensures no_reply { result.0 ≡ 5 → command_of words.now ≡ None }
    ensures no_count { result.0 ≡ 2 → count_of words.now ≡ None }
    ensures no_command { command_of words.now ≡ None → query_of words.now ≡ None → count_of words.now ≡ None → (result.0 ≡ 2) ⊎ (result.0 ≡ 6) }
    ensures usage_line { result.0 ≡ 2 → IsSaid usage_line (K.held sink.old) (K.held sink.new) (K.faults sink.old) (K.faults sink.new) }

    // The output.
    ensures done { result.0 ≡ 0 → IfInput (command_of words.now) (S.left source.old) (λ command text.
        IsDelivered command text (K.held sink.old) (K.held sink.new) × (S.left source.new ≡ Some [])) }
    ensures flushed { result.0 ≡ 0 → IsFlushed (K.held sink.new) (K.flushed sink.new) }

    // A query: the servers are asked, and the line of what they answer is written.
    ensures query { on E.deeds E.polls C.given W.stream S.left K.held K.faults (edge.old, clock.old, random.old, source.old, sink.old) (edge.new, clock.new, random.new, source.new, sink.new) (OtherEnd words.now result.0) }

    // `gen N`: the summary of what the generated script's replay comes to is written, and the source is left alone.
    ensures summarized { IfSome (count_of words.now) (λ n. SummarizesSo n result.0 (K.held sink.old) (K.held sink.new)) }
    ensures source_left { IfSome (count_of words.now) (λ _. S.left source.new ≡ S.left source.old) }
    ensures source_faults { IfSome (count_of words.now) (λ _. S.faults source.new ≡ S.faults source.old) }

    // A refusal.
    ensures refused { result.0 ≡ 1 → IfInput (command_of words.now) (S.left source.old) (λ command text.
        RefusalIsSaid command text (K.held sink.old) (K.held sink.new) (K.faults sink.old) (K.faults sink.new)) }
    ensures complete { IfInput (command_of words.now) (S.left source.old) (λ command text. IsTaken command text → result.0 ≢ 1) }

    // Faults.
    ensures source_fault { result.0 ≡ 3 → Rose (S.faults source.old) (S.faults source.new) }
    ensures silent { result.0 ≡ 3 → K.held sink.new ≡ K.held sink.old }
    ensures sink_fault { result.0 ≡ 4 → Rose (K.faults sink.old) (K.faults sink.new) }
    ensures cut { result.0 ≡ 4 → IfInput (command_of words.now) (S.left source.old) (λ command text.
        IsCut command text (K.held sink.old) (K.held sink.new)) }

    // Memory and numbers.
    ensures memory { result.0 ≡ 6 → RanOut (command_of words.now) (query_of words.now) (count_of words.now) (S.left source.old) (K.held sink.old) (K.held sink.new) }
    ensures numbers { result.0 ≡ 7 → IfInput (command_of words.now) (S.left source.old) (λ command text. StopsForNumbers command text) }
    ensures numbers_line { result.0 ≡ 7 → IsSaid numbers_line (K.held sink.old) (K.held sink.new) (K.faults sink.old) (K.faults sink.new) }
    ensures stops { IfInput (command_of words.now) (S.left source.old) (λ command text. StopsForNumbers command text → result.0 ≢ 0) }

    // A line that tells why nothing else is written is handed on too.
    ensures line_flushed { EndsByLine result.0 → IsFlushed (K.held sink.new) (K.flushed sink.new) ⊎ Rose (K.faults sink.old) (K.faults sink.new) }
{
    let Some(command) = command_of(words) else {
        return match count_of(words) {
            Some(n) => run_generated(alloc, n, sink),
            None => run_other(alloc, words, source, sink, edge, clock, random),
        };
    };
    input_laws();
    match output(alloc, command, source) {
        Ok(text) => deliver(sink, &text),
        Err(Ending::Silent(status)) => status,
        Err(Ending::Says(status, line)) => match say(sink, &line) {
            Ok(()) => status,
            Err(NoMemory) => NO_MEMORY,
        },
    }
}
