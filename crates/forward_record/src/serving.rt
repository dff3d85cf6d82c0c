//! What the program does where it is recorded.

ghost use Rattle.std.specs.Prelude.{◌≡◌, ◌<◌, ◌⊎◌, false, None, OnOk, IfOk, IfErr, IfSome};
ghost use Rattle.command_parts.specs.Ends.{IsBegun as IsLineBegun, IsSaid};
ghost use Rattle.dns_values.specs.Sink.{IsFlushed, with_octets};
ghost use Rattle.dns_values.specs.Source.{Rose};
ghost use Rattle.forward_conf.specs.Causes.{IsServeCause, IsSilent};
ghost use Rattle.forward_conf.specs.Itself.{asks_itself};
ghost use Rattle.forward_conf.specs.Reading.{AnyNotes, NotesIn};
ghost use Rattle.forward_conf.specs.Sentences.{numbers_line, output_sentence};
ghost use Rattle.forward_run.specs.Ends.{EndsBecause, IfAsked, IsEndCause, IsNotListenedBy, RefusalIsSaid};
ghost use Rattle.forward_run.specs.Front.{after_deeds};
ghost use Rattle.forward_run.specs.Serving.{answered_line, begun_deeds};
ghost use Rattle.forward_run.specs.Turns.{around};
ghost use Rattle.forward_words.specs.Sentences.{unasked_sentence};
ghost use Rattle.forward_words.specs.Words.{asked_in, command_of};
ghost use Rattle.forward_record.specs.Serving.{HasServed, IfEnds, IfNotRecorded, IfSpeaks, IsBegun, IsNotRecorded, IsNotRecordedIf, IsRefusedTo, IsServed, IsRun, IsServedTo, is_said, words_ahead, words_behind};
ghost use Rattle.forward_record.specs.Telling.{HasTold, IsNotedThen, IsTold, IsWhy, is_told};

use crate::recorded_core::{RecordedCore, RecordedForwarder};
use crate::telling::tell_unrecorded;
use crate::turns::turn_all;
use client_core::{Client, Clock};
use client_request::Words;
use command_parts::deliver;
use command_parts::statuses::NO_MEMORY;
use dns_base::Status;
use dns_record::{Ahead, Recorder, Refused, record_law};
use dns_values::{Sink, Source};
use forward_conf::{Cause, conf_asked, end_because, end_delivered, settings_of, tell_unasked};
use forward_run::{Front, Watch, answered_line, begin_front, stopped_by};
use forward_words::{Asked, Options, command_of};
use front_steps::Forwarder;
use resolv_conf::ResolvConf;
use std::alloc::Global;

/// Why nothing was served.
#[derive(Drop)]
enum Unserved {
    /// As `forward_run` ends.
    Ends(Cause),
    /// Nothing can be recorded.
    NotRecorded(Refused),
}

/// How a forwarder ended that was to be recorded.
#[derive(Drop)]
pub struct Served<K: Sink + Drop> {
    /// The exit status.
    pub status: Status,
    /// How many answers were put out, as far as the turns were made to their end.
    pub answered: u64,
    /// The forwarder as it was left; none where nothing was served.
    pub forwarder: Option<RecordedForwarder<K>>,
}

/// Listens, tells the front the servers of a configuration, and makes a forwarder that asks them, whose record begins: with the
/// configuration, the settings and 65536 words.
fn begin<F: Front, W: Words, K: Sink + Drop>(
    alloc: Global,
    options: &Options,
    seed: u64,
    port: u16,
    conf: &ResolvConf,
    front: &mut F,
    rng: &mut W,
    file: K,
) -> Result<RecordedForwarder<K>, Unserved>
    ensures begun { IfOk result (λ f. IsBegun K.held options.now conf.now (words_ahead (W.stream rng.old)) (K.held file) f) }
    ensures rest { OnOk result (W.stream rng.new ≡ words_behind (W.stream rng.old)) }
    ensures deeds { OnOk result (F.deeds front.new ≡ after_deeds (begun_deeds port conf.now) (F.deeds front.old)) }
    ensures polls { F.polls front.new ≡ F.polls front.old }
    ensures asks_others { OnOk result (asks_itself options.now.listened port conf.now ≡ false) }
    ensures cause { IfErr result (λ e. IfEnds e (IsServeCause (F.gave front.new) (F.is_deaf_at front.new) (F.faults front.old) (F.faults front.new) options.now.listened port conf.now)) }
    ensures not_recorded { IfErr result (λ e. IfNotRecorded e (IsNotRecorded options.now conf.now (words_ahead (W.stream rng.old)) (K.faults file))) }
{
    match begin_front(options.listened.as_slice(), port, conf, front) {
        Ok(()) => {}
        Err(cause) => return Err(Unserved::Ends(cause)),
    }
    let mut file = file;
    let settings = settings_of(options, conf);
    let begun = Recorder::with_settings(alloc, conf, &settings, rng, Ahead::LARGE, &mut file);
    let recorder = match begun {
        Ok(recorder) => recorder,
        Err(refused) => return Err(Unserved::NotRecorded(refused)),
    };
    match Client::with_settings(alloc, conf, settings, seed) {
        Ok(client) => {
            let core = RecordedCore::new(client, recorder, file);
            Ok(Forwarder::new(alloc, core))
        }
        Err(_) => Err(Unserved::Ends(Cause::NoMemory)),
    }
}

/// Listens, and makes the turns. How many answers they put out, and the forwarder as it is left.
fn serve_conf<L: Sink, F: Front, C: Clock, W: Words, V: Watch, K: Sink + Drop>(
    alloc: Global,
    options: &Options,
    seed: u64,
    asked: Asked,
    conf: &ResolvConf,
    errors: &mut L,
    front: &mut F,
    clock: &mut C,
    rng: &mut W,
    watch: &mut V,
    file: K,
) -> Result<(u64, RecordedForwarder<K>), Unserved>
    ensures served { IfOk result (λ left. around F.deeds F.polls C.given W.stream (front.old, clock.old, rng.old) (front.new, clock.new, rng.new) (IsServed K.held options.now asked conf.now left.0 (K.held file) left.1)) }
    ensures told { HasTold (L.held errors.old) (L.held errors.new) (L.faults errors.old) (L.faults errors.new) }
    ensures cause { IfErr result (λ e. IfEnds e (IsServeCause (F.gave front.new) (F.is_deaf_at front.new) (F.faults front.old) (F.faults front.new) options.now.listened asked.port conf.now)) }
    ensures not_recorded { IfErr result (λ e. IfNotRecorded e (IsNotRecorded options.now conf.now (words_ahead (W.stream rng.old)) (K.faults file))) }
{
    let begun = begin(alloc, options, seed, asked.port, conf, front, rng, file);
    let mut forwarder = match begun {
        Ok(forwarder) => forwarder,
        Err(unserved) => return Err(unserved),
    };
    let turned = turn_all(
        alloc,
        &mut forwarder,
        errors,
        front,
        clock,
        rng,
        watch,
        asked.turns,
    );
    match turned {
        Ok(answered) => {
            record_law();
            Ok((answered, forwarder))
        }
        Err(error) => Err(Unserved::Ends(stopped_by(error))),
    }
}

/// The same of the configuration that a source gives.
fn serve_source<S: Source, L: Sink, F: Front, C: Clock, W: Words, V: Watch, K: Sink + Drop>(
    alloc: Global,
    options: &Options,
    seed: u64,
    asked: Asked,
    source: &mut S,
    errors: &mut L,
    front: &mut F,
    clock: &mut C,
    rng: &mut W,
    watch: &mut V,
    file: K,
) -> Result<(u64, RecordedForwarder<K>), Unserved>
    ensures served { IfOk result (λ it. around F.deeds F.polls C.given W.stream (front.old, clock.old, rng.old) (front.new, clock.new, rng.new) (IsRun K.held options.now asked (S.left source.old) it.0 (K.held file) it.1)) }
    ensures noted { OnOk result (IsNotedThen (NotesIn options.now.policy (S.left source.old)) (L.held errors.old) (L.held errors.new) (L.faults errors.old) (L.faults errors.new)) }
    ensures told { IfErr result (λ e. IfSpeaks e (IsNotedThen AnyNotes (L.held errors.old) (L.held errors.new) (L.faults errors.old) (L.faults errors.new))) }
    ensures cause { IfErr result (λ e. IfEnds e (IsEndCause options.now asked.port (S.left source.old) (W.stream rng.old) (F.gave front.new) (F.is_deaf_at front.new) (F.faults front.old) (F.faults front.new) (S.faults source.old) (S.faults source.new))) }
    ensures not_recorded { IfErr result (λ e. IfNotRecorded e (IsNotRecordedIf options.now (S.left source.old) (W.stream rng.old) (K.faults file))) }
{
    let conf = match conf_asked(alloc, options, source, errors, rng) {
        Ok(conf) => conf,
        Err(cause) => return Err(Unserved::Ends(cause)),
    };
    serve_conf(
        alloc, options, seed, asked, &conf, errors, front, clock, rng, watch, file,
    )
}

/// Writes how many answers there were.
fn write_answered<O: Sink>(alloc: Global, answered: u64, sink: &mut O) -> Status
    ensures status { (result.0 ≡ 0) ⊎ ((result.0 ≡ 4) ⊎ (result.0 ≡ 6)) }
    ensures done { result.0 ≡ 0 → O.held sink.new ≡ with_octets (answered_line answered) (O.held sink.old) }
    ensures flushed { result.0 ≡ 0 → IsFlushed (O.held sink.new) (O.flushed sink.new) }
    ensures cut { result.0 ≡ 4 → IsLineBegun (answered_line answered) (O.held sink.old) (O.held sink.new) }
    ensures sink_fault { result.0 ≡ 4 → Rose (O.faults sink.old) (O.faults sink.new) }
{
    match answered_line(alloc, answered) {
        Ok(line) => deliver(sink, &line),
        Err(_) => NO_MEMORY,
    }
}

/// Answers DNS clients as `forward_run::serve_as` does, and records the client within: `file` then holds a script whose replay gives
/// its rows, or the first of them. It is told of a record's end by a line to `errors`.
///
/// As of `serve_as`, and where nothing is served since nothing can be recorded 8: a line to `sink` says why, and a sentence to
/// `errors`.
pub fn serve_recorded<
    S: Source,
    O: Sink,
    L: Sink,
    F: Front,
    C: Clock,
    W: Words,
    V: Watch,
    K: Sink + Drop,
>(
    alloc: Global,
    said: &Options,
    seed: u64,
    words: &[String],
    source: &mut S,
    sink: &mut O,
    errors: &mut L,
    front: &mut F,
    clock: &mut C,
    rng: &mut W,
    watch: &mut V,
    file: K,
) -> Served<K>
    ensures usage { result.status.0 ≡ 2 → asked_in words.now ≡ None }
    ensures no_command { asked_in words.now ≡ None → (result.status.0 ≡ 2) ⊎ (result.status.0 ≡ 6) }
    ensures usage_told { result.status.0 ≡ 2 → IfErr (command_of words.now) (λ unasked. IsSaid (unasked_sentence words.now unasked) (L.held errors.old) (L.held errors.new) (L.faults errors.old) (L.faults errors.new)) }
    ensures served { HasServed result → around F.deeds F.polls C.given W.stream (front.old, clock.old, rng.old) (front.new, clock.new, rng.new) (IsServedTo K.held said.now (asked_in words.now) (S.left source.old) file result) }
    ensures done { result.status.0 ≡ 0 → O.held sink.new ≡ with_octets (answered_line result.answered) (O.held sink.old) }
    ensures flushed { result.status.0 ≡ 0 → IsFlushed (O.held sink.new) (O.flushed sink.new) }
    ensures noted { result.status.0 ≡ 0 → IsNotedThen (NotesIn said.now.policy (S.left source.old)) (L.held errors.old) (L.held errors.new) (L.faults errors.old) (L.faults errors.new) }
    ensures refused { result.status.0 ≡ 1 → IfAsked (asked_in words.now) (S.left source.old) (λ _ text. RefusalIsSaid said.now.policy text (O.held sink.old) (O.held sink.new) (O.faults sink.old) (O.faults sink.new)) }
    ensures source_fault { result.status.0 ≡ 3 → Rose (S.faults source.old) (S.faults source.new) }
    ensures cut { result.status.0 ≡ 4 → IsLineBegun (answered_line result.answered) (O.held sink.old) (O.held sink.new) }
    ensures sink_fault { result.status.0 ≡ 4 → Rose (O.faults sink.old) (O.faults sink.new) }
    ensures cut_told { result.status.0 ≡ 4 → IsTold output_sentence (L.held errors.old) (L.held errors.new) (L.faults errors.old) (L.faults errors.new) }
    ensures deaf { result.status.0 ≡ 5 → IsNotListenedBy said.now (asked_in words.now) (S.left source.old) (W.stream rng.old) (F.faults front.old) (F.faults front.new) }
    ensures silent { IsSilent result.status.0 → O.held sink.new ≡ O.held sink.old }
    ensures numbers { result.status.0 ≡ 7 → IsSaid numbers_line (O.held sink.old) (O.held sink.new) (O.faults sink.old) (O.faults sink.new) }
    ensures why { EndsBecause result.status.0 → IfSome (asked_in words.now) (λ asked. IsWhy (IsEndCause said.now asked.port (S.left source.old) (W.stream rng.old) (F.gave front.new) (F.is_deaf_at front.new) (F.faults front.old) (F.faults front.new) (S.faults source.old) (S.faults source.new)) said.now.listened asked.port result.status.0 (L.held errors.old) (L.held errors.new) (L.faults errors.old) (L.faults errors.new)) }
    ensures not_recorded { result.status.0 ≡ 8 → IsRefusedTo said.now (asked_in words.now) (S.left source.old) (K.faults file) (W.stream rng.old) (is_said O.held O.faults sink.old sink.new) (is_told L.held L.faults errors.old errors.new) }
    ensures status { result.status.0 < 9 }
{
    let asked = match command_of(words) {
        Ok(asked) => asked,
        Err(unasked) => {
            return Served {
                status: tell_unasked(alloc, words, unasked, errors),
                answered: 0,
                forwarder: None,
            };
        }
    };
    let listened = said.listened.as_slice();
    let served = serve_source(
        alloc, said, seed, asked, source, errors, front, clock, rng, watch, file,
    );
    match served {
        Ok((answered, forwarder)) => Served {
            status: end_delivered(errors, write_answered(alloc, answered, sink)),
            answered,
            forwarder: Some(forwarder),
        },
        Err(Unserved::Ends(cause)) => Served {
            status: end_because(alloc, listened, asked.port, sink, errors, cause),
            answered: 0,
            forwarder: None,
        },
        Err(Unserved::NotRecorded(refused)) => Served {
            status: tell_unrecorded(alloc, refused, sink, errors),
            answered: 0,
            forwarder: None,
        },
    }
}
