//! The sentences that tell why no answer is written.

ghost use Rattle.std.specs.Prelude.{◌≡◌, ◌≢◌, ◌≤◌, ◌⊎◌, ◌++◌, IfOk, IfSome, OnOk, Some};
ghost use Rattle.std.specs.String.{string_bytes};
ghost use Rattle.dns_values.specs.Sink.{IsFlushed};
ghost use Rattle.dns_values.specs.Source.{Rose};
ghost use Rattle.command_parts.specs.Ends.{IsEarly, IsSaid, status_of};
ghost use Rattle.dns_lookup_words.specs.Sentences.{sentence};
ghost use Rattle.dns_lookup_run.specs.Reports.{note_line, notes_text};
ghost use Rattle.dns_lookup_run.specs.Sentences.{conf_text, lack_status, lack_text, numbers_text, refused_text, unanswered_text};
ghost use Rattle.dns_lookup_pages.specs.declared.short.Lacking.TheVariants as lacks;
ghost use Rattle.dns_lookup_run.specs.Ends.{IsOfLack};

use client_request::Error;
use command_parts::{Ending, deliver, end_by, statuses};
use dns_base::{NoMemory, Rcode, Status};
use dns_lookup_pages::Lacking;
use dns_lookup_words::{Refusal, sentence};
use dns_values::Sink;
use resolver_policy::Note;
use std::alloc::Global;

/// There is no such name, and its data alone was to be written.
const NO_NAME: Status = Status(9);

/// The name has no such data, which alone was to be written.
const NO_DATA: Status = Status(10);

/// The server did not serve, and data alone was to be written.
const NO_SERVICE: Status = Status(11);

/// Tells which of the words is wrong.
pub(crate) fn tell_refusal<L: Sink>(
    alloc: Global,
    words: &[String],
    refusal: Refusal,
    errors: &mut L,
) -> Status
    ensures status { (result.0 ≡ 2) ⊎ (result.0 ≡ 6) }
    ensures said { result.0 ≡ 2 → IsSaid (sentence words.now refusal) (L.held errors.old) (L.held errors.new) (L.faults errors.old) (L.faults errors.new) }
    ensures flushed { result.0 ≡ 2 → IsFlushed (L.held errors.new) (L.flushed errors.new) ⊎ Rose (L.faults errors.old) (L.faults errors.new) }
{
    match sentence(alloc, words, refusal) {
        Ok(line) => end_by(errors, statuses::USAGE, line.as_bytes()),
        Err(NoMemory) => statuses::NO_MEMORY,
    }
}

/// What is told where a page is not written whole.
pub(crate) const UNWRITTEN: &[u8] = b"dns_lookup: writing to standard output failed\n";

/// Tells that memory ran out, as far as the sink takes it.
pub fn tell_no_memory<L: Sink>(errors: &mut L) -> Status
    ensures { result.0 ≡ 6 }
{
    end_by(errors, statuses::NO_MEMORY, b"dns_lookup: memory ran out\n")
}

/// Tells that no random words can be had, as far as the sink takes it.
pub fn tell_no_random<L: Sink>(errors: &mut L) -> Status
    ensures { result.0 ≡ 6 }
{
    end_by(
        errors,
        statuses::NO_MEMORY,
        b"dns_lookup: no random words can be had\n",
    )
}

/// What is told where there is no configuration, and it is needed.
const UNREAD_CONF: &[u8] =
    b"dns_lookup: /etc/resolv.conf could not be read, which has the servers where no @SERVER is named, and the suffixes of +search\n";

/// Why a configuration was refused, as a sentence.
fn refused_conf(alloc: Global, line: &[u8]) -> Result<Vec<u8>, NoMemory>
    ensures { IfOk result (λ v. v.items ≡ refused_text line.now) }
{
    let mut text = Vec::from_slice(alloc, b"dns_lookup: /etc/resolv.conf: ")?;
    text.extend_from_slice(line)?;
    Ok(text)
}

/// Tells why no configuration was read.
pub(crate) fn tell_conf<L: Sink>(alloc: Global, ending: Ending, errors: &mut L) -> Status
    requires early { IsEarly ending }
    requires no_numbers { status_of ending ≢ 7 }
    ensures status { (result.0 ≡ 3) ⊎ (result.0 ≡ 6) }
    ensures cause { result.0 ≡ 3 → (status_of ending ≡ 1) ⊎ (status_of ending ≡ 3) }
    ensures said { result.0 ≡ 3 → IsSaid (conf_text ending) (L.held errors.old) (L.held errors.new) (L.faults errors.old) (L.faults errors.new) }
    ensures flushed { result.0 ≡ 3 → IsFlushed (L.held errors.new) (L.flushed errors.new) ⊎ Rose (L.faults errors.old) (L.faults errors.new) }
{
    match ending {
        Ending::Silent(status) if status == statuses::SOURCE_FAULT => {
            end_by(errors, statuses::SOURCE_FAULT, UNREAD_CONF)
        }
        Ending::Silent(_) => statuses::NO_MEMORY,
        Ending::Says(_, line) => match refused_conf(alloc, &line) {
            Ok(line) => end_by(errors, statuses::SOURCE_FAULT, &line),
            Err(NoMemory) => statuses::NO_MEMORY,
        },
    }
}

/// The sentence that says why there is no answer: the error, or that none came.
fn unanswered(alloc: Global, error: Option<Error>) -> Result<String, NoMemory>
    ensures { IfOk result (λ s. string_bytes s ≡ unanswered_text error) }
{
    match error {
        Some(error) => Ok(format!(in alloc;
            "dns_lookup: no answer: {error}; another @SERVER, +tcp or a longer +time= may help\n"
        )?),
        None => Ok(String::from_str(
            alloc,
            "dns_lookup: no answer came; another @SERVER, +tcp or a longer +time= may help\n",
        )?),
    }
}

/// The same, and behind it what servers brought.
fn unanswered_by(alloc: Global, error: Option<Error>, reports: &str) -> Result<String, NoMemory>
    ensures { IfOk result (λ s. string_bytes s ≡ unanswered_text error ++ reports.now) }
{
    let mut text = unanswered(alloc, error)?;
    text.push_str(reports)?;
    Ok(text)
}

/// Tells why there is no answer, and what servers brought.
pub(crate) fn tell_unanswered<L: Sink>(
    alloc: Global,
    error: Option<Error>,
    reports: &str,
    errors: &mut L,
) -> Status
    ensures status { (result.0 ≡ 5) ⊎ (result.0 ≡ 6) }
    ensures said { result.0 ≡ 5 → IsSaid (unanswered_text error ++ reports.now) (L.held errors.old) (L.held errors.new) (L.faults errors.old) (L.faults errors.new) }
    ensures flushed { result.0 ≡ 5 → IsFlushed (L.held errors.new) (L.flushed errors.new) ⊎ Rose (L.faults errors.old) (L.faults errors.new) }
{
    match unanswered_by(alloc, error, reports) {
        Ok(line) => end_by(errors, statuses::NO_REPLY, line.as_bytes()),
        Err(NoMemory) => statuses::NO_MEMORY,
    }
}

/// Tells why the client gave up: its numbers are used up, or else memory.
pub(crate) fn tell_stop<L: Sink>(error: Error, errors: &mut L) -> Status
    ensures status { (result.0 ≡ 6) ⊎ (result.0 ≡ 7) }
    ensures numbers { result.0 ≡ 7 → error ≡ Error.NumbersUsed }
    ensures said { result.0 ≡ 7 → IsSaid numbers_text (L.held errors.old) (L.held errors.new) (L.faults errors.old) (L.faults errors.new) }
    ensures flushed { result.0 ≡ 7 → IsFlushed (L.held errors.new) (L.flushed errors.new) ⊎ Rose (L.faults errors.old) (L.faults errors.new) }
{
    match error {
        Error::NumbersUsed => end_by(
            errors,
            statuses::NUMBERS_USED,
            b"dns_lookup: numbers are used up\n",
        ),
        _ => statuses::NO_MEMORY,
    }
}

/// The status of an answer without data, where these alone were to be written.
fn lack_status(lack: Lacking) -> Status
    ensures { result.0 ≡ lack_status (Some lack) }
{
    match lack {
        Lacking::Name => NO_NAME,
        Lacking::Data => NO_DATA,
        Lacking::Service(_) => NO_SERVICE,
    }
}

/// The sentence that tells of an answer without data.
fn lack_line(alloc: Global, lack: Lacking) -> Result<String, NoMemory>
    ensures { IfOk result (λ s. string_bytes s ≡ lack_text lack) }
{
    let text = match lack {
        Lacking::Name => "dns_lookup: there is no such name (NXDOMAIN)\n",
        Lacking::Data => "dns_lookup: the name is there, and has no records of this type\n",
        Lacking::Service(code) => return service_line(alloc, code),
    };
    Ok(String::from_str(alloc, text)?)
}

fn service_line(alloc: Global, code: u8) -> Result<String, NoMemory>
    ensures { IfOk result (λ s. string_bytes s ≡ lack_text (lacks.Service code)) }
{
    let rcode = Rcode(code);
    Ok(format!(in alloc; "dns_lookup: no answer: the server said {rcode}\n")?)
}

/// Tells of an answer without data, if there was one, and answers the exit status: 0 where there was none, and else 9, 10 or 11.
pub fn tell_lack<L: Sink>(alloc: Global, lack: Option<Lacking>, errors: &mut L) -> Status
    ensures status { (result.0 ≡ lack_status lack) ⊎ (result.0 ≡ 6) }
    ensures quiet { result.0 ≡ 0 → L.held errors.new ≡ L.held errors.old }
    ensures said { result.0 ≢ 6 → IfSome lack (λ l. IsSaid (lack_text l) (L.held errors.old) (L.held errors.new) (L.faults errors.old) (L.faults errors.new)) }
    ensures flushed { IsOfLack result.0 → IsFlushed (L.held errors.new) (L.flushed errors.new) ⊎ Rose (L.faults errors.old) (L.faults errors.new) }
{
    let Some(lack) = lack else {
        return statuses::DONE;
    };
    match lack_line(alloc, lack) {
        Ok(line) => end_by(errors, lack_status(lack), line.as_bytes()),
        Err(NoMemory) => statuses::NO_MEMORY,
    }
}

/// The line that tells of a line of the configuration.
fn note_line(alloc: Global, note: Note) -> Result<String, NoMemory>
    ensures { IfOk result (λ s. string_bytes s ≡ note_line note) }
{
    Ok(format!(in alloc; "dns_lookup: /etc/resolv.conf: {note}\n")?)
}

/// The lines that tell of those of the configuration.
fn note_lines(alloc: Global, notes: &[Note]) -> Result<String, NoMemory>
    ensures { IfOk result (λ s. string_bytes s ≡ notes_text notes.now) }
{
    let mut text = String::new(alloc);
    for note in notes {
        let line = note_line(alloc, *note)?;
        text.push_str(line.as_str())?;
    }
    Ok(text)
}

/// Tells of lines of the configuration, as far as the sink takes it.
pub(crate) fn tell_notes<L: Sink>(
    alloc: Global,
    notes: &[Note],
    errors: &mut L,
) -> Result<(), NoMemory>
    ensures said { OnOk result (IsSaid (notes_text notes.now) (L.held errors.old) (L.held errors.new) (L.faults errors.old) (L.faults errors.new)) }
    ensures count { L.faults errors.old ≤ L.faults errors.new }
{
    let text = note_lines(alloc, notes)?;
    let status = deliver(errors, text.as_bytes());
    if status == statuses::NO_MEMORY {
        return Err(NoMemory);
    }
    Ok(())
}
