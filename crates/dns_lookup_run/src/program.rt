//! What the program does, over a source, two sinks and the rest of its world.

ghost use Rattle.std.specs.Prelude.{◌≡◌, ◌≢◌, ◌⊎◌, ◌++◌, ◌<◌, ◌≤◌, true, false, length, IfOk, IsErrOf};
ghost use Rattle.dns_values.specs.Source.{Rose};
ghost use Rattle.dns_values.specs.Sink.{IsFlushed, with_octets};
ghost use Rattle.dns_lookup_run.specs.Worlds.{around, is_message, said};
ghost use Rattle.dns_lookup_run.specs.Asking.{Brought, HasBegun, lack_of, or_lack};
ghost use Rattle.dns_lookup_run.specs.Ends.{EndsTold, HasNoConf, HasPage, IsDone, IsOfAsking, IsOfRequest, IsRefusalTold, TellsWhy, WordsEnd};
ghost use Rattle.dns_lookup_run.specs.Making.{IsMadeFor};
ghost use Rattle.dns_lookup_run.specs.Reports.{told_of};
ghost use Rattle.dns_lookup_run.specs.Walks.{behind_tries, is_no_name, passes_of};
ghost use Rattle.dns_lookup_run.specs.Sentences.{answer_text, numbers_text, unanswered_text, unwritten_text};

use crate::asking::{Outcome, asked};
use crate::asks::{Answered, Asks};
use crate::conf::conf_of;
use crate::page::page;
use crate::reports::reports;
use crate::search::{Try, tries_of};
use crate::settings::settings_for;
use crate::telling::{
    UNWRITTEN, tell_conf, tell_lack, tell_notes, tell_refusal, tell_stop, tell_unanswered,
};
use crate::watched_clock::WatchedClock;
use crate::watched_edge::{Opened, WatchedEdge};
use client_core::{Client, Clock, Edge};
use client_loop::learn_all;
use client_request::{Error, Words};
use command_parts::{deliver, end_by, statuses};
use dns_base::{NoMemory, Rcode, Status};
use dns_lookup_pages::{Lacking, lacking_in};
use dns_lookup_words::{Ask, Fault, Lookup, lookup_of};
use dns_values::{Sink, Source};
use resolv_conf::{ResolvConf, ServerConf};
use std::alloc::Global;

/// Tells why there is no answer, and what each place of a server brought.
fn tell_failed<L: Sink>(
    alloc: Global,
    error: Option<Error>,
    servers: &[ServerConf],
    opened: &[Opened],
    errors: &mut L,
) -> Status
    ensures status { (result.0 ≡ 5) ⊎ (result.0 ≡ 6) }
    ensures said { result.0 ≡ 5 → said L.held L.faults errors.old errors.new (unanswered_text error ++ told_of servers.now opened.now) }
    ensures flushed { result.0 ≡ 5 → IsFlushed (L.held errors.new) (L.flushed errors.new) ⊎ Rose (L.faults errors.old) (L.faults errors.new) }
{
    match reports(alloc, true, "dns_lookup: ", servers, opened) {
        Ok(text) => tell_unanswered(alloc, error, text.as_str(), errors),
        Err(NoMemory) => statuses::NO_MEMORY,
    }
}

/// Writes a page, or tells that it could not be written whole.
pub(crate) fn write_page<K: Sink, L: Sink>(text: &[u8], sink: &mut K, errors: &mut L) -> Status
    ensures statuses { (result.0 ≡ 0) ⊎ ((result.0 ≡ 4) ⊎ (result.0 ≡ 6)) }
    ensures done { result.0 ≡ 0 → K.held sink.new ≡ with_octets text.now (K.held sink.old) }
    ensures quiet { result.0 ≡ 0 → L.held errors.new ≡ L.held errors.old }
    ensures no_fault { result.0 ≡ 0 → L.faults errors.new ≡ L.faults errors.old }
    ensures unwritten { result.0 ≡ 4 → said L.held L.faults errors.old errors.new unwritten_text }
    ensures line_flushed { result.0 ≡ 4 → IsFlushed (L.held errors.new) (L.flushed errors.new) ⊎ Rose (L.faults errors.old) (L.faults errors.new) }
    ensures flushed { result.0 ≡ 0 → IsFlushed (K.held sink.new) (K.flushed sink.new) }
    ensures sink_fault { result.0 ≡ 4 → Rose (K.faults sink.old) (K.faults sink.new) }
    ensures count { K.faults sink.old ≤ K.faults sink.new }
{
    let status = deliver(sink, text);
    if status == statuses::SINK_FAULT {
        return end_by(errors, status, UNWRITTEN);
    }
    status
}

/// Writes what a request came to: the message, or sentences that say why there is none.
fn write_outcome<K: Sink, L: Sink>(
    alloc: Global,
    ask: &Ask,
    outcome: &Outcome,
    servers: &[ServerConf],
    opened: &[Opened],
    sink: &mut K,
    errors: &mut L,
) -> Status
    ensures statuses { (result.0 ≡ 0) ⊎ ((result.0 ≡ 4) ⊎ ((result.0 ≡ 5) ⊎ (result.0 ≡ 6))) }
    ensures good { HasPage result.0 → is_message outcome.now.answer ≡ true }
    ensures bad { result.0 ≡ 5 → is_message outcome.now.answer ≡ false }
    ensures said { result.0 ≡ 5 → said L.held L.faults errors.old errors.new (answer_text outcome.now.answer ++ told_of servers.now opened.now) }
    ensures unwritten { result.0 ≡ 4 → said L.held L.faults errors.old errors.new unwritten_text }
    ensures line_flushed { (result.0 ≡ 4) ⊎ (result.0 ≡ 5) → IsFlushed (L.held errors.new) (L.flushed errors.new) ⊎ Rose (L.faults errors.old) (L.faults errors.new) }
    ensures quiet { result.0 ≡ 0 → L.held errors.new ≡ L.held errors.old }
    ensures no_fault { result.0 ≡ 0 → L.faults errors.new ≡ L.faults errors.old }
    ensures flushed { result.0 ≡ 0 → IsFlushed (K.held sink.new) (K.flushed sink.new) }
    ensures sink_fault { result.0 ≡ 4 → Rose (K.faults sink.old) (K.faults sink.new) }
    ensures count { K.faults sink.old ≤ K.faults sink.new }
{
    match &outcome.answer {
        Some(Ok(message)) => match page(alloc, ask, message, outcome, servers, opened) {
            Ok(text) => write_page(text.as_bytes(), sink, errors),
            Err(NoMemory) => statuses::NO_MEMORY,
        },
        Some(Err(error)) => tell_failed(alloc, Some(*error), servers, opened, errors),
        None => tell_failed(alloc, None, servers, opened, errors),
    }
}

/// The same, or a sentence that says why the client gave up.
fn tell<K: Sink, L: Sink>(
    alloc: Global,
    ask: &Ask,
    came: &Result<Outcome, Error>,
    servers: &[ServerConf],
    opened: &[Opened],
    sink: &mut K,
    errors: &mut L,
) -> Status
    ensures statuses { IsOfRequest result.0 }
    ensures good { HasPage result.0 → Brought true came.now }
    ensures bad { result.0 ≡ 5 → Brought false came.now }
    ensures numbers { result.0 ≡ 7 → IsErrOf came.now Error.NumbersUsed }
    ensures said { result.0 ≡ 5 → IfOk came.now (λ o. said L.held L.faults errors.old errors.new (answer_text o.answer ++ told_of servers.now opened.now)) }
    ensures stops { result.0 ≡ 7 → said L.held L.faults errors.old errors.new numbers_text }
    ensures unwritten { result.0 ≡ 4 → said L.held L.faults errors.old errors.new unwritten_text }
    ensures line_flushed { (result.0 ≡ 4) ⊎ ((result.0 ≡ 5) ⊎ (result.0 ≡ 7)) → IsFlushed (L.held errors.new) (L.flushed errors.new) ⊎ Rose (L.faults errors.old) (L.faults errors.new) }
    ensures quiet { result.0 ≡ 0 → L.held errors.new ≡ L.held errors.old }
    ensures no_fault { result.0 ≡ 0 → L.faults errors.new ≡ L.faults errors.old }
    ensures flushed { result.0 ≡ 0 → IsFlushed (K.held sink.new) (K.flushed sink.new) }
    ensures sink_fault { result.0 ≡ 4 → Rose (K.faults sink.old) (K.faults sink.new) }
    ensures count { K.faults sink.old ≤ K.faults sink.new }
{
    match came {
        Ok(outcome) => write_outcome(alloc, ask, outcome, servers, opened, sink, errors),
        Err(error) => tell_stop(*error, errors),
    }
}

/// A new client for a lookup of a configuration, whose servers an edge learns.
fn client_of<E: Edge>(
    alloc: Global,
    lookup: &Lookup,
    conf: &ResolvConf,
    edge: &mut E,
) -> Result<Client, Error>
    ensures { IfOk result (λ c. HasBegun lookup.now conf.now c (E.deeds edge.old) (E.deeds edge.new) (E.polls edge.old) (E.polls edge.new)) }
{
    learn_all(edge, conf.servers.as_slice())?;
    Client::with_settings(alloc, conf, settings_for(lookup, conf), 0)
}

/// Why the answer has no data to write, where these alone are to be written.
fn lack_in(ask: &Ask, came: &Result<Outcome, Error>) -> Option<Lacking>
    ensures { result ≡ lack_of ask.now came.now }
{
    let layout = ask.manner.layout;
    match came {
        Ok(outcome) => match &outcome.answer {
            Some(Ok(message)) if layout.short && !(layout.json || layout.yaml) => {
                lacking_in(message)
            }
            _ => None,
        },
        Err(_) => None,
    }
}

/// The first of the two.
fn or_lack(first: Option<Lacking>, later: Option<Lacking>) -> Option<Lacking>
    ensures { result ≡ or_lack first later }
{
    match first {
        Some(lack) => Some(lack),
        None => later,
    }
}

/// Whether an answer says that there is no such name.
fn is_no_name(answer: &Answered) -> bool
    ensures { result ≡ is_no_name answer.now }
{
    match answer {
        Some(Ok(message)) => message.header().rcode() == Rcode::NXDOMAIN,
        Some(Err(_)) => false,
        None => false,
    }
}

/// Whether an answer is passed by, since there is no such name and another one is to be tried for it.
fn passes_by(one: &Try, later: &[Try], came: &Result<Outcome, Error>) -> bool
    ensures { result ≡ passes_of one.now later.now came.now }
{
    match came {
        Ok(outcome) => one.more && !later.is_empty() && is_no_name(&outcome.answer),
        Err(_) => false,
    }
}

/// What is left behind those that are tried for the same name.
fn behind_tries(more: bool, later: &[Try]) -> &[Try]
    ensures { result.now ≡ behind_tries more later.now }
{
    let mut is_same = more;
    let mut rest = later;
    while is_same {
        let Some((one, behind)) = rest.split_first() else {
            return rest;
        };
        is_same = one.more;
        rest = behind;
    }
    rest
}

/// Asks what a lookup asks, one after another, and writes what is answered; of names that are tried for one the first answer that is not
/// passed by. The first without an answer ends it.
pub(crate) fn ask_all<K: Sink, L: Sink, E: Edge + Drop, C: Clock + Drop, A: Asks>(
    alloc: Global,
    lookup: &Lookup,
    conf: &ResolvConf,
    sink: &mut K,
    errors: &mut L,
    edge: &mut WatchedEdge<E>,
    clock: &mut WatchedClock<C>,
    rng: &mut A,
) -> Status
    requires some { 0 < length lookup.now.asks }
    ensures statuses { IsOfAsking result.0 }
    ensures ends { around E.deeds E.polls C.given A.stream (edge.old, clock.old, rng.old) (edge.new, clock.new, rng.new) (EndsTold L.held L.faults lookup.now conf.now result.0 errors.old errors.new) }
    ensures made { result.0 ≢ 6 → result.0 ≢ 7 → around E.deeds E.polls C.given A.stream (edge.old, clock.old, rng.old) (edge.new, clock.new, rng.new)
        (IsMadeFor A.made lookup.now conf.now rng.old rng.new) }
    ensures stops { result.0 ≡ 7 → said L.held L.faults errors.old errors.new numbers_text }
    ensures unwritten { result.0 ≡ 4 → said L.held L.faults errors.old errors.new unwritten_text }
    ensures line_flushed { TellsWhy result.0 → IsFlushed (L.held errors.new) (L.flushed errors.new) ⊎ Rose (L.faults errors.old) (L.faults errors.new) }
    ensures quiet { result.0 ≡ 0 → L.held errors.new ≡ L.held errors.old }
    ensures flushed { IsDone result.0 → IsFlushed (K.held sink.new) (K.flushed sink.new) }
    ensures sink_fault { result.0 ≡ 4 → Rose (K.faults sink.old) (K.faults sink.new) }
    ensures count { K.faults sink.old ≤ K.faults sink.new }
{
    let asks = lookup.asks.as_slice();
    let Ok(tries) = tries_of(alloc, lookup.search, &conf.options, asks) else {
        return statuses::NO_MEMORY;
    };
    let Ok(mut client) = client_of(alloc, lookup, conf, edge) else {
        return statuses::NO_MEMORY;
    };
    let servers = conf.servers.as_slice();
    let mut lack = None;
    let mut number = 0usize;
    let mut rest = tries.as_slice();
    while let Some((one, later)) = rest.split_first() {
        let ask = &one.ask;
        let came = asked(alloc, ask, number as u64, &mut client, edge, clock, rng);
        number += 1;
        if passes_by(one, later, &came) {
            rest = later;
            continue;
        }
        let status = tell(alloc, ask, &came, servers, edge.opened(), sink, errors);
        if status.0 > 0 {
            return status;
        }
        lack = or_lack(lack, lack_in(ask, &came));
        rest = behind_tries(one.more, later);
    }
    tell_lack(alloc, lack, errors)
}

/// Does what words ask for, and answers the exit status.
///
/// The servers that the words name are asked, or else those of the configuration that is found in what `source` gives, as
/// `resolver_policy` has them asked in practice. What is answered is written to `sink`. Where nothing is, a sentence to `errors`
/// says why, and a line for each server what it brought; before that a line for each line of the configuration that was not
/// taken as it stands. A sentence says too where a page was not written whole, and where data alone was to be written and an answer
/// had none, by statuses of their own: there is no such name, it has no such data, or the server said that it does not serve. The status stands whatever becomes of these, unless
/// memory ran out there; that is told by `tell_no_memory`.
pub fn run<S: Source, K: Sink, L: Sink, E: Edge + Drop, C: Clock + Drop, W: Words>(
    alloc: Global,
    words: &[String],
    source: &mut S,
    sink: &mut K,
    errors: &mut L,
    edge: &mut WatchedEdge<E>,
    clock: &mut WatchedClock<C>,
    rng: &mut W,
) -> Status
    ensures statuses { (result.0 ≢ 1) × (result.0 ≢ 8) × (result.0 < 12) }

    // The words.
    ensures usage { result.0 ≡ 2 → IsRefusalTold words.now (L.held errors.old) (L.held errors.new) (L.faults errors.old) (L.faults errors.new) }

    // What was asked, and what it came to.
    ensures ends { around E.deeds E.polls C.given W.stream (edge.old, clock.old, rng.old) (edge.new, clock.new, rng.new) (WordsEnd L.held L.faults words.now (S.left source.old) result.0 errors.old errors.new) }
    ensures flushed { IsDone result.0 → IsFlushed (K.held sink.new) (K.flushed sink.new) }

    // Faults, and what they leave.
    ensures no_conf { result.0 ≡ 3 → HasNoConf (S.left source.old) (S.faults source.old) (S.faults source.new) (said L.held L.faults errors.old errors.new) }
    ensures silent { (result.0 ≡ 2) ⊎ (result.0 ≡ 3) → K.held sink.new ≡ K.held sink.old }
    ensures sink_fault { result.0 ≡ 4 → Rose (K.faults sink.old) (K.faults sink.new) }
    ensures count { K.faults sink.old ≤ K.faults sink.new }

    // The sentence that tells why is handed on too.
    ensures line_flushed { TellsWhy result.0 → IsFlushed (L.held errors.new) (L.flushed errors.new) ⊎ Rose (L.faults errors.old) (L.faults errors.new) }
{
    let lookup = match lookup_of(alloc, words) {
        Ok(lookup) => lookup,
        Err(Fault::Refused(refusal)) => return tell_refusal(alloc, words, refusal, errors),
        Err(Fault::NoMemory) => return statuses::NO_MEMORY,
    };
    let found = match conf_of(alloc, &lookup, source, rng) {
        Ok(found) => found,
        Err(ending) => return tell_conf(alloc, ending, errors),
    };
    match tell_notes(alloc, found.notes.as_slice(), errors) {
        Ok(()) => ask_all(alloc, &lookup, &found.conf, sink, errors, edge, clock, rng),
        Err(NoMemory) => statuses::NO_MEMORY,
    }
}
