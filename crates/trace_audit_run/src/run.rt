//! What the program does, over two sources and a sink.

ghost use Rattle.std.specs.Prelude.{◌≡◌, ◌≢◌, ◌++◌, ◌⊎◌, ◌<◌, false, IfSome};
ghost use Rattle.dns_values.specs.Source.{Rose};
ghost use Rattle.dns_values.specs.Sink.{IsFlushed, with_octets};
ghost use Rattle.command_parts.specs.Ends.{IsBegun, IsSaid};
ghost use Rattle.trace_judge.specs.declared.verdict.Clause.{Clause};
ghost use Rattle.trace_audit_run.specs.Ends.{EndsBySentence};
ghost use Rattle.trace_audit_run.specs.Lines.{missed_hit_line, missed_stale_line, right_line, untimely_line, usage_line, wrong_line};
ghost use Rattle.trace_audit_run.specs.Program as plain;
ghost use Rattle.trace_audit_run.specs.Sentences.{answer_sentence, unwritten_sentence};
ghost use Rattle.trace_audit_run.specs.Words.{are_two, asked_by, names_among};

use crate::explaining::{tell_no_memory, tell_stop, tell_usage, tell_written_answer};
use crate::lines::{
    RIGHT_LINE, USAGE_LINE, missed_hit_line, missed_stale_line, untimely_line, wrong_line,
};
use crate::missed::Missed;
use crate::sentences::answer_sentence;
use crate::stop::end_at;
use crate::texts::{Answer, judged_texts};
use crate::words::{asked_by, names_among};
use command_parts::statuses::{NO_MEMORY, NO_REPLY, USAGE};
use command_parts::{deliver, end_by};
use dns_base::Status;
use dns_values::{Sink, Source};
use std::alloc::Global;
use trace_judge::{Clause, Verdict};

/// Tells which clause fails first, and where, and behind it what is missing there, if that is said.
fn tell_wrong<K: Sink>(
    alloc: Global,
    sink: &mut K,
    clause: Clause,
    row: u64,
    missing: &[u8],
) -> Status
    ensures status { (result.0 ≡ 5) ⊎ (result.0 ≡ 6) }
    ensures said { result.0 ≡ 5 → IsSaid (wrong_line clause row ++ missing.now) (K.held sink.old) (K.held sink.new) (K.faults sink.old) (K.faults sink.new) }
    ensures flushed { result.0 ≡ 5 → IsFlushed (K.held sink.new) (K.flushed sink.new) ⊎ Rose (K.faults sink.old) (K.faults sink.new) }
{
    match wrong_line(alloc, clause, row, missing) {
        Ok(line) => end_by(sink, NO_REPLY, &line),
        Err(_) => NO_MEMORY,
    }
}

/// Tells at which row the trace is not timely, and behind it what is missing there, if that is said.
fn tell_untimely<K: Sink>(alloc: Global, sink: &mut K, row: u64, missing: &[u8]) -> Status
    ensures status { (result.0 ≡ 5) ⊎ (result.0 ≡ 6) }
    ensures said { result.0 ≡ 5 → IsSaid (untimely_line row ++ missing.now) (K.held sink.old) (K.held sink.new) (K.faults sink.old) (K.faults sink.new) }
    ensures flushed { result.0 ≡ 5 → IsFlushed (K.held sink.new) (K.flushed sink.new) ⊎ Rose (K.faults sink.old) (K.faults sink.new) }
{
    match untimely_line(alloc, row, missing) {
        Ok(line) => end_by(sink, NO_REPLY, &line),
        Err(_) => NO_MEMORY,
    }
}

/// Tells at which row a right trace misses a hit.
fn tell_hit<K: Sink>(alloc: Global, sink: &mut K, row: u64) -> Status
    ensures status { (result.0 ≡ 5) ⊎ (result.0 ≡ 6) }
    ensures said { result.0 ≡ 5 → IsSaid (missed_hit_line row) (K.held sink.old) (K.held sink.new) (K.faults sink.old) (K.faults sink.new) }
{
    match missed_hit_line(alloc, row) {
        Ok(line) => end_by(sink, NO_REPLY, &line),
        Err(_) => NO_MEMORY,
    }
}

/// Tells at which row a request of a right trace is asked that misses an expired answer.
fn tell_stale<K: Sink>(alloc: Global, sink: &mut K, row: u64) -> Status
    ensures status { (result.0 ≡ 5) ⊎ (result.0 ≡ 6) }
    ensures said { result.0 ≡ 5 → IsSaid (missed_stale_line row) (K.held sink.old) (K.held sink.new) (K.faults sink.old) (K.faults sink.new) }
{
    match missed_stale_line(alloc, row) {
        Ok(line) => end_by(sink, NO_REPLY, &line),
        Err(_) => NO_MEMORY,
    }
}

/// Tells what a right and timely trace misses: `right` where it misses nothing.
fn tell_missed<K: Sink>(alloc: Global, sink: &mut K, missed: Missed) -> Status
    ensures good { result.0 ≡ 0 → plain.MissesNone missed }
    ensures done { result.0 ≡ 0 → K.held sink.new ≡ with_octets right_line (K.held sink.old) }
    ensures flushed { result.0 ≡ 0 → IsFlushed (K.held sink.new) (K.flushed sink.new) }
    ensures no { result.0 ≡ 5 → plain.MissedIsSaid missed (K.held sink.old) (K.held sink.new) (K.faults sink.old) (K.faults sink.new) }
    ensures sink_fault { result.0 ≡ 4 → Rose (K.faults sink.old) (K.faults sink.new) }
    ensures cut { result.0 ≡ 4 → IsBegun right_line (K.held sink.old) (K.held sink.new) }
    ensures others { (result.0 ≡ 0) ⊎ ((result.0 ≡ 4) ⊎ ((result.0 ≡ 5) ⊎ (result.0 ≡ 6))) }
{
    match missed.hit {
        Some(row) => tell_hit(alloc, sink, row),
        None => match missed.stale {
            Some(row) => tell_stale(alloc, sink, row),
            None => deliver(sink, RIGHT_LINE.as_bytes()),
        },
    }
}

/// Tells what is said of a trace: `right`, in what it is wrong and where, where it is not timely, or what it misses.
fn tell<K: Sink>(alloc: Global, sink: &mut K, answer: Answer) -> Status
    ensures good { result.0 ≡ 0 → plain.IsGood answer }
    ensures done { result.0 ≡ 0 → K.held sink.new ≡ with_octets right_line (K.held sink.old) }
    ensures flushed { result.0 ≡ 0 → IsFlushed (K.held sink.new) (K.flushed sink.new) }
    ensures no { result.0 ≡ 5 → plain.NoIsSaid answer (K.held sink.old) (K.held sink.new) (K.faults sink.old) (K.faults sink.new) }
    ensures sink_fault { result.0 ≡ 4 → Rose (K.faults sink.old) (K.faults sink.new) }
    ensures cut { result.0 ≡ 4 → IsBegun right_line (K.held sink.old) (K.held sink.new) }
    ensures others { (result.0 ≡ 0) ⊎ ((result.0 ≡ 4) ⊎ ((result.0 ≡ 5) ⊎ (result.0 ≡ 6))) }
{
    match answer.verdict {
        Verdict::Wrong { clause, row } => tell_wrong(alloc, sink, clause, row, &answer.missing),
        Verdict::Right => match answer.untimely {
            Some(row) => tell_untimely(alloc, sink, row, &answer.missing),
            None => tell_missed(alloc, sink, answer.missed),
        },
    }
}

/// Tells what is said of a trace, and why that is not `right`.
fn tell_answer<K: Sink, L: Sink>(
    alloc: Global,
    names: &[String],
    answer: Answer,
    sink: &mut K,
    errors: &mut L,
) -> Status
    ensures good { result.0 ≡ 0 → plain.IsGood answer }
    ensures done { result.0 ≡ 0 → K.held sink.new ≡ with_octets right_line (K.held sink.old) }
    ensures flushed { result.0 ≡ 0 → IsFlushed (K.held sink.new) (K.flushed sink.new) }
    ensures quiet { result.0 ≡ 0 → L.held errors.new ≡ L.held errors.old }
    ensures no { result.0 ≡ 5 → plain.NoIsSaid answer (K.held sink.old) (K.held sink.new) (K.faults sink.old) (K.faults sink.new) }
    ensures told { result.0 ≡ 5 → IsSaid (answer_sentence names.now answer) (L.held errors.old) (L.held errors.new) (L.faults errors.old) (L.faults errors.new) }
    ensures sink_fault { result.0 ≡ 4 → Rose (K.faults sink.old) (K.faults sink.new) }
    ensures cut { result.0 ≡ 4 → IsBegun right_line (K.held sink.old) (K.held sink.new) }
    ensures said { result.0 ≡ 4 → IsSaid unwritten_sentence (L.held errors.old) (L.held errors.new) (L.faults errors.old) (L.faults errors.new) }
    ensures handed_on { result.0 ≢ 0 → result.0 ≢ 6 → IsFlushed (L.held errors.new) (L.flushed errors.new) ⊎ Rose (L.faults errors.old) (L.faults errors.new) }
    ensures others { (result.0 ≡ 0) ⊎ ((result.0 ≡ 4) ⊎ ((result.0 ≡ 5) ⊎ (result.0 ≡ 6))) }
{
    let Ok(sentence) = answer_sentence(alloc, names, &answer) else {
        return tell_no_memory(errors);
    };
    let status = tell(alloc, sink, answer);
    tell_written_answer(status, sentence.as_bytes(), errors)
}

/// Whether the words are two, which name a script and a trace.
fn are_two(words: &[String]) -> bool
    ensures { result ≡ are_two words.now }
{
    matches!(words, [_, _])
}

/// Reads a script and a trace, judges the trace by the script, and writes what is said of it: `right`, or which clause fails first and
/// at which row, counted from 0. Under the option `--timely` the first row of a right trace is told that is not timely, and under
/// `--all` beside that the first that misses a hit, or else the first whose request what had expired should have served. Under `--explain`
/// a second line says what is missing at the row that is told, where that is wrong or not timely. The words behind the options name the two
/// (`names_among`); who calls this opens them.
pub fn run_audit<S: Source, T: Source, K: Sink>(
    alloc: Global,
    words: &[String],
    script: &mut S,
    trace: &mut T,
    sink: &mut K,
) -> Status
    ensures statuses { result.0 < 7 }
    ensures usage { result.0 ≡ 2 → are_two (names_among words.now) ≡ false }
    ensures no_words { are_two (names_among words.now) ≡ false → (result.0 ≡ 2) ⊎ (result.0 ≡ 6) }
    ensures usage_line { result.0 ≡ 2 → IsSaid usage_line (K.held sink.old) (K.held sink.new) (K.faults sink.old) (K.faults sink.new) }

    // The verdict.
    ensures right { result.0 ≡ 0 → IfSome (S.left script.old) (λ a. IfSome (T.left trace.old) (λ b. plain.IsRight (asked_by words.now) a b)) }
    ensures done { result.0 ≡ 0 → K.held sink.new ≡ with_octets right_line (K.held sink.old) }
    ensures flushed { result.0 ≡ 0 → IsFlushed (K.held sink.new) (K.flushed sink.new) }
    ensures wrong { result.0 ≡ 5 → IfSome (S.left script.old) (λ a. IfSome (T.left trace.old) (λ b. plain.SaysNo (asked_by words.now) a b (K.held sink.old) (K.held sink.new) (K.faults sink.old) (K.faults sink.new))) }

    // A refusal, and faults.
    ensures refused { result.0 ≡ 1 → IfSome (S.left script.old) (λ a. IfSome (T.left trace.old) (λ b. plain.RefusalIsSaid a b (K.held sink.old) (K.held sink.new) (K.faults sink.old) (K.faults sink.new))) }
    ensures source_fault { result.0 ≡ 3 → Rose (S.faults script.old) (S.faults script.new) ⊎ Rose (T.faults trace.old) (T.faults trace.new) }
    ensures silent { result.0 ≡ 3 → K.held sink.new ≡ K.held sink.old }
    ensures sink_fault { result.0 ≡ 4 → Rose (K.faults sink.old) (K.faults sink.new) }
    ensures cut { result.0 ≡ 4 → IsBegun right_line (K.held sink.old) (K.held sink.new) }
{
    if !are_two(names_among(words)) {
        return end_by(sink, USAGE, USAGE_LINE.as_bytes());
    }
    match judged_texts(alloc, asked_by(words), script, trace) {
        Ok(answer) => tell(alloc, sink, answer),
        Err(stop) => end_at(alloc, sink, stop),
    }
}

/// Does the same as `run_audit`, and tells why in a sentence to `errors` where the status is another than 0: which word is missing, or stands
/// where none may; which file is too long, can't be read, or has a line that is refused, and which line; which trace is not right, and
/// in which row; or that the sink failed, or memory ran out. A fault of `errors` changes no status.
pub fn audit_to<S: Source, T: Source, K: Sink, L: Sink>(
    alloc: Global,
    words: &[String],
    script: &mut S,
    trace: &mut T,
    sink: &mut K,
    errors: &mut L,
) -> Status
    ensures ends { EndsBySentence S.left S.faults T.left T.faults K.held K.faults L.held L.faults words.now result.0 (script.old, trace.old, sink.old, errors.old) (script.new, trace.new, sink.new, errors.new) }
    ensures no_words { are_two (names_among words.now) ≡ false → (result.0 ≡ 2) ⊎ (result.0 ≡ 6) }
    ensures flushed { result.0 ≡ 0 → IsFlushed (K.held sink.new) (K.flushed sink.new) }
    ensures handed_on { result.0 ≢ 0 → result.0 ≢ 6 → IsFlushed (L.held errors.new) (L.flushed errors.new) ⊎ Rose (L.faults errors.old) (L.faults errors.new) }
{
    let names = names_among(words);
    if !are_two(names) {
        return tell_usage(alloc, names, sink, errors);
    }
    match judged_texts(alloc, asked_by(words), script, trace) {
        Ok(answer) => tell_answer(alloc, names, answer, sink, errors),
        Err(stop) => tell_stop(alloc, names, stop, sink, errors),
    }
}
