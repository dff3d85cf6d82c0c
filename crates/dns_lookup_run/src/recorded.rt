//! A lookup that is recorded.

ghost use Rattle.std.specs.Prelude.{◌≡◌, ◌≢◌, ◌⊎◌, ◌≤◌, ◌<◌, None, length, IfOk};
ghost use Rattle.std.specs.String.{string_bytes};
ghost use Rattle.command_parts.specs.Ends.{IsSaid};
ghost use Rattle.dns_record.specs.Asking.{left_of};
ghost use Rattle.dns_values.specs.Sink.{IsFlushed};
ghost use Rattle.dns_values.specs.Source.{Rose};
ghost use Rattle.dns_lookup_run.specs.Ends.{HasNoConf, IsDone, IsOfAsking, IsRefusalTold};
ghost use Rattle.dns_lookup_run.specs.Recorded.{AsksTo, IsTold, Ran, ended_line, keeps_by, unrecorded_line};
ghost use Rattle.dns_lookup_run.specs.Worlds.{around, said};

use crate::asks::{Answered, Asks};
use crate::conf::conf_of;
use crate::program::ask_all;
use crate::settings::settings_for;
use crate::telling::{tell_conf, tell_no_memory, tell_notes, tell_refusal};
use crate::watched_clock::WatchedClock;
use crate::watched_edge::WatchedEdge;
use client_core::{Client, Clock, Edge};
use client_request::{Error, RequestMessage, Words};
use command_parts::{end_by, statuses};
use dns_base::{NoMemory, Status};
use dns_lookup_words::{Fault, Lookup, lookup_of};
use dns_record::{Ahead, Ended, Recorder, Refused, record_law, recorded_ask};
use dns_values::{Sink, Source};
use record_file::NOT_RECORDED;
use resolv_conf::ResolvConf;
use std::alloc::Global;
use std::marker::Model;

/// A recorder and its sink, by which a client is asked.
#[derive(Drop)]
pub(crate) struct RecordedAsks<K: Sink + Drop> {
    recorder: Recorder,
    sink: K,
}

impl<K: Sink + Drop> Model for RecordedAsks<K> {
    ghost use Rattle.dns_lookup_run.specs.Recorded.{Recordings};

    ghost Value = { Recordings K };

    ghost view = { λ r. record { recorder = r.recorder; sink = r.sink } };
}

impl<K: Sink + Drop> Asks for RecordedAsks<K> {
    ghost stream = { λ r. left_of r.recorder };

    ghost made = { keeps_by K.held };

    fn ask<E: Edge, C: Clock>(
        &mut self,
        client: &mut Client,
        edge: &mut E,
        clock: &mut C,
        number: u64,
        request: RequestMessage,
    ) -> Result<Answered, Error> {
        recorded_ask(
            client,
            edge,
            clock,
            &mut self.recorder,
            &mut self.sink,
            number,
            request,
        )
    }
}

/// How a lookup ended that was to be recorded.
#[derive(Drop)]
pub struct Recorded<K: Sink + Drop> {
    /// The exit status.
    pub status: Status,
    /// To what it was recorded.
    pub sink: K,
    /// Why the record ended before the lookup did, if so.
    pub ended: Option<Ended>,
    /// How many events came from then on.
    pub lost: u64,
}

/// It ended with nothing recorded.
fn without<K: Sink + Drop>(status: Status, sink: K) -> Recorded<K>
    ensures { result ≡ record { status = status; sink = sink; ended = None; lost = 0 } }
{
    Recorded {
        status,
        sink,
        ended: None,
        lost: 0,
    }
}

/// It ended once it was asked.
fn with<K: Sink + Drop>(status: Status, asks: RecordedAsks<K>) -> Recorded<K>
    ensures { result ≡ record { status = status; sink = asks.sink; ended = asks.recorder.ended; lost = asks.recorder.lost } }
{
    let RecordedAsks { recorder, sink } = asks;
    Recorded {
        status,
        sink,
        ended: recorder.ended(),
        lost: recorder.lost(),
    }
}

/// The line that tells why nothing is recorded.
fn unrecorded(alloc: Global, refused: Refused) -> Result<String, NoMemory>
    ensures { IfOk result (λ s. string_bytes s ≡ unrecorded_line refused) }
{
    Ok(format!(in alloc; "dns_lookup: nothing is recorded: {refused}\n")?)
}

/// Tells why nothing is recorded.
fn tell_unrecorded<L: Sink>(alloc: Global, refused: Refused, errors: &mut L) -> Status
    ensures status { (result.0 ≡ 8) ⊎ (result.0 ≡ 6) }
    ensures said { result.0 ≡ 8 → IsSaid (unrecorded_line refused) (L.held errors.old) (L.held errors.new) (L.faults errors.old) (L.faults errors.new) }
    ensures flushed { result.0 ≡ 8 → IsFlushed (L.held errors.new) (L.flushed errors.new) ⊎ Rose (L.faults errors.old) (L.faults errors.new) }
{
    match unrecorded(alloc, refused) {
        Ok(line) => end_by(errors, NOT_RECORDED, line.as_bytes()),
        Err(NoMemory) => statuses::NO_MEMORY,
    }
}

/// The line that tells why a record ended.
fn ended_line(alloc: Global, ended: Ended, lost: u64) -> Result<String, NoMemory>
    ensures { IfOk result (λ s. string_bytes s ≡ ended_line ended lost) }
{
    Ok(format!(in alloc; "dns_lookup: the record ended: {ended}; events behind it: {lost}\n")?)
}

impl<K: Sink + Drop> Recorded<K> {
    /// Tells why the record ended, if it did, and that memory ran out, if it did, as far as the sink takes it. Where few words are left
    /// memory did not run out, and the line of the record says so.
    pub fn tell_ended<L: Sink>(&self, alloc: Global, errors: &mut L) {
        if let Some(ended) = self.ended {
            if let Ok(line) = ended_line(alloc, ended, self.lost) {
                end_by(errors, self.status, line.as_bytes());
            }
        }
        if self.status == statuses::NO_MEMORY && self.ended != Some(Ended::WordsUsed) {
            tell_no_memory(errors);
        }
    }
}

/// Which words are drawn ahead: a lookup asks little.
fn ahead() -> Ahead
    ensures { result ≡ record { count = 4096; few = 1024 } }
{
    Ahead::SMALL
}

/// Asks what a lookup asks, and records it.
fn ask_recorded<K: Sink, L: Sink, E: Edge + Drop, C: Clock + Drop, W: Words, R: Sink + Drop>(
    alloc: Global,
    lookup: &Lookup,
    conf: &ResolvConf,
    sink: &mut K,
    errors: &mut L,
    edge: &mut WatchedEdge<E>,
    clock: &mut WatchedClock<C>,
    rng: &mut W,
    file: R,
) -> Recorded<R>
    requires some { 0 < length lookup.now.asks }
    ensures statuses { IsOfAsking result.status.0 ⊎ (result.status.0 ≡ 8) }
    ensures ends { around E.deeds E.polls C.given W.stream (edge.old, clock.old, rng.old) (edge.new, clock.new, rng.new) (AsksTo L.held L.faults R.held R.faults lookup.now conf.now errors.old errors.new file result) }
    ensures flushed { IsDone result.status.0 → IsFlushed (K.held sink.new) (K.flushed sink.new) }
    ensures silent { result.status.0 ≡ 8 → K.held sink.new ≡ K.held sink.old }
    ensures sink_fault { result.status.0 ≡ 4 → Rose (K.faults sink.old) (K.faults sink.new) }
    ensures count { K.faults sink.old ≤ K.faults sink.new }
    ensures line_flushed { IsTold result.status.0 → IsFlushed (L.held errors.new) (L.flushed errors.new) ⊎ Rose (L.faults errors.old) (L.faults errors.new) }
{
    record_law();
    let settings = settings_for(lookup, conf);
    let mut file = file;
    let begun = Recorder::with_settings(alloc, conf, &settings, rng, ahead(), &mut file);
    let recorder = match begun {
        Ok(recorder) => recorder,
        Err(refused) => return without(tell_unrecorded(alloc, refused, errors), file),
    };
    let mut asks = RecordedAsks {
        recorder,
        sink: file,
    };
    let status = ask_all(alloc, lookup, conf, sink, errors, edge, clock, &mut asks);
    with(status, asks)
}

/// Does what words ask for as `run` does, and records it: `file` then holds a script whose replay gives the rows of the client, or the
/// first of them. All words that the client draws are of 4096 that are drawn and written first.
///
/// As of `run`, and where nothing is asked since nothing can be recorded 8: a sentence to `told` says why. 6 also where less than
/// a quarter of these words is left.
pub fn run_recorded<
    S: Source,
    K: Sink,
    L: Sink,
    E: Edge + Drop,
    C: Clock + Drop,
    W: Words,
    R: Sink + Drop,
>(
    alloc: Global,
    words: &[String],
    source: &mut S,
    sink: &mut K,
    told: &mut L,
    edge: &mut WatchedEdge<E>,
    clock: &mut WatchedClock<C>,
    rng: &mut W,
    file: R,
) -> Recorded<R>
    ensures statuses { (result.status.0 ≢ 1) × (result.status.0 < 12) }
    ensures usage { result.status.0 ≡ 2 → IsRefusalTold words.now (L.held told.old) (L.held told.new) (L.faults told.old) (L.faults told.new) }
    ensures ends { around E.deeds E.polls C.given W.stream (edge.old, clock.old, rng.old) (edge.new, clock.new, rng.new) (Ran L.held L.faults R.held R.faults words.now (S.left source.old) told.old told.new file result) }
    ensures flushed { IsDone result.status.0 → IsFlushed (K.held sink.new) (K.flushed sink.new) }
    ensures no_conf { result.status.0 ≡ 3 → HasNoConf (S.left source.old) (S.faults source.old) (S.faults source.new) (said L.held L.faults told.old told.new) }
    ensures silent { (result.status.0 ≡ 2) ⊎ ((result.status.0 ≡ 3) ⊎ (result.status.0 ≡ 8)) → K.held sink.new ≡ K.held sink.old }
    ensures sink_fault { result.status.0 ≡ 4 → Rose (K.faults sink.old) (K.faults sink.new) }
    ensures count { K.faults sink.old ≤ K.faults sink.new }
    ensures line_flushed { IsTold result.status.0 → IsFlushed (L.held told.new) (L.flushed told.new) ⊎ Rose (L.faults told.old) (L.faults told.new) }
{
    let lookup = match lookup_of(alloc, words) {
        Ok(lookup) => lookup,
        Err(Fault::Refused(refusal)) => {
            return without(tell_refusal(alloc, words, refusal, told), file);
        }
        Err(Fault::NoMemory) => return without(statuses::NO_MEMORY, file),
    };
    let found = match conf_of(alloc, &lookup, source, rng) {
        Ok(found) => found,
        Err(ending) => return without(tell_conf(alloc, ending, told), file),
    };
    match tell_notes(alloc, found.notes.as_slice(), told) {
        Ok(()) => ask_recorded(
            alloc,
            &lookup,
            &found.conf,
            sink,
            told,
            edge,
            clock,
            rng,
            file,
        ),
        Err(NoMemory) => without(statuses::NO_MEMORY, file),
    }
}
