//! What the program does.

ghost use Rattle.std.specs.Prelude.{◌≡◌, ◌<◌, ◌⊎◌, ◌≢◌, false, map, None, Ok, OnOk, IfOk, IfErr, IfSome};
ghost use Rattle.dns_values.specs.Sink.{IsFlushed};
ghost use Rattle.dns_values.specs.Source.{Rose};
ghost use Rattle.command_parts.specs.Ends.{IsSaid};
ghost use Rattle.forward_conf.specs.Causes.{IsDeafCause, IsServeCause, IsSilent, IsStop};
ghost use Rattle.forward_conf.specs.Itself.{asks_itself};
ghost use Rattle.forward_conf.specs.Reading.{AnyNotes, IsNoted, IsTold, NotesIn};
ghost use Rattle.forward_conf.specs.Sentences.{numbers_line, output_sentence, status_of};
ghost use Rattle.forward_words.specs.Sentences.{unasked_sentence};
ghost use Rattle.forward_words.specs.Words.{asked_by, asked_in, command_of};
ghost use Rattle.forward_run.specs.Ends.{EndsBecause, IfAsked, IsEndCause, IsNotListenedBy, IsWhy, RefusalIsSaid};
ghost use Rattle.forward_run.specs.Front.{after_deed, after_deeds};
ghost use Rattle.forward_run.specs.Serving as spec;
ghost use Rattle.forward_run.specs.Serving.{IsAnsweredIf, IsCutBy, IsDoneBy, IsServed, begun_deeds, first_of, no_options};
ghost use Rattle.forward_run.specs.Turns.{around};
ghost use Rattle.forward_run.specs.declared.front.FrontDeed.{FrontDeed};

use crate::front::Front;
use crate::turns::turn_all;
use crate::watch::{Unwatched, Watch};
use client_core::Clock;
use client_request::{Error, Words};
use command_parts::deliver;
use command_parts::statuses::{NO_MEMORY, USAGE};
use dns_base::{IpAddr, NoMemory, Status};
use dns_values::{Sink, Source};
use forward_conf::{
    Cause, Unheard, asked_itself, conf_asked, end_because, end_delivered, settings_of, tell_unasked,
};
use forward_words::{Asked, Options, asked_by, command_of};
use front_core::Forwarder;
use proof_front::every_forwarded_trace_is_right;
use resolv_conf::{ResolvConf, ServerConf};
use std::alloc::{AllocError, Global};

/// Lets a front learn these servers, in order.
fn learn_all<F: Front>(front: &mut F, servers: &[ServerConf]) -> Result<(), NoMemory>
    ensures deeds { OnOk result (F.deeds front.new ≡ after_deeds (map (λ server. FrontDeed.Learned server) servers.now) (F.deeds front.old)) }
    ensures polls { F.polls front.new ≡ F.polls front.old }
{
    for server in servers {
        front.learn_server(server)?;
    }
    Ok(())
}

/// Why the program ends where the forwarder stops.
pub fn stopped_by(error: Error) -> Cause
    ensures { IsStop result }
{
    match error {
        Error::NumbersUsed => Cause::NumbersUsed,
        _ => Cause::NoMemory,
    }
}

/// Listens, unless the forwarder would ask itself.
fn listen<F: Front>(
    listened: &[IpAddr],
    port: u16,
    conf: &ResolvConf,
    front: &mut F,
) -> Result<(), Cause>
    ensures deeds { OnOk result (F.deeds front.new ≡ after_deed (FrontDeed.Listens port) (F.deeds front.old)) }
    ensures polls { F.polls front.new ≡ F.polls front.old }
    ensures cause { IfErr result (IsDeafCause (F.gave front.new) (F.is_deaf_at front.new) (F.faults front.old) (F.faults front.new) listened.now port conf.now) }
    ensures asks_others { OnOk result (asks_itself listened.now port conf.now ≡ false) }
{
    if let Some(server) = asked_itself(listened, port, conf) {
        return Err(Cause::Itself(server));
    }
    match front.listen(port) {
        Ok(()) => Ok(()),
        Err(fault) => Err(Cause::Deaf {
            at: front.deaf_at(),
            fault,
        }),
    }
}

/// Listens, unless the forwarder would ask itself, and tells the front the servers of a configuration.
pub fn begin_front<F: Front>(
    listened: &[IpAddr],
    port: u16,
    conf: &ResolvConf,
    front: &mut F,
) -> Result<(), Cause>
    ensures deeds { OnOk result (F.deeds front.new ≡ after_deeds (begun_deeds port conf.now) (F.deeds front.old)) }
    ensures polls { F.polls front.new ≡ F.polls front.old }
    ensures cause { IfErr result (IsServeCause (F.gave front.new) (F.is_deaf_at front.new) (F.faults front.old) (F.faults front.new) listened.now port conf.now) }
    ensures asks_others { OnOk result (asks_itself listened.now port conf.now ≡ false) }
{
    listen(listened, port, conf, front)?;
    learn_all(front, conf.servers.as_slice())?;
    Ok(())
}

/// A forwarder that asks the servers of a configuration.
fn forwarder_of(
    alloc: Global,
    options: &Options,
    seed: u64,
    conf: &ResolvConf,
) -> Result<Forwarder, NoMemory>
    ensures { IfOk result (λ forwarder. forwarder ≡ first_of options.now conf.now) }
{
    match Forwarder::with_settings(alloc, conf, settings_of(options, conf), seed) {
        Ok(forwarder) => Ok(forwarder),
        Err(_) => Err(NoMemory),
    }
}

/// Listens, tells the front the servers of a configuration, and makes a forwarder that asks them.
pub fn begin<F: Front>(
    alloc: Global,
    options: &Options,
    seed: u64,
    port: u16,
    conf: &ResolvConf,
    front: &mut F,
) -> Result<Forwarder, Cause>
    ensures made { IfOk result (λ forwarder. forwarder ≡ first_of options.now conf.now) }
    ensures deeds { OnOk result (F.deeds front.new ≡ after_deeds (begun_deeds port conf.now) (F.deeds front.old)) }
    ensures polls { F.polls front.new ≡ F.polls front.old }
    ensures cause { IfErr result (IsServeCause (F.gave front.new) (F.is_deaf_at front.new) (F.faults front.old) (F.faults front.new) options.now.listened port conf.now) }
    ensures asks_others { OnOk result (asks_itself options.now.listened port conf.now ≡ false) }
{
    begin_front(options.listened.as_slice(), port, conf, front)?;
    let forwarder = forwarder_of(alloc, options, seed, conf)?;
    Ok(forwarder)
}

/// Listens, and makes the turns. How many answers they put out.
fn serve_conf<F: Front, C: Clock, W: Words, V: Watch>(
    alloc: Global,
    options: &Options,
    seed: u64,
    asked: Asked,
    conf: &ResolvConf,
    front: &mut F,
    clock: &mut C,
    rng: &mut W,
    watch: &mut V,
) -> Result<u64, Cause>
    ensures served { IfOk result (λ answered. around F.deeds F.polls C.given W.stream (front.old, clock.old, rng.old) (front.new, clock.new, rng.new) (IsServed options.now asked conf.now answered)) }
    ensures cause { IfErr result (IsServeCause (F.gave front.new) (F.is_deaf_at front.new) (F.faults front.old) (F.faults front.new) options.now.listened asked.port conf.now) }
{
    let mut forwarder = begin(alloc, options, seed, asked.port, conf, front)?;
    match turn_all(&mut forwarder, front, clock, rng, watch, asked.turns) {
        Ok(answered) => {
            every_forwarded_trace_is_right();
            Ok(answered)
        }
        Err(error) => Err(stopped_by(error)),
    }
}

/// The line that says how many answers there were.
pub fn answered_line(alloc: Global, answered: u64) -> Result<Vec<u8>, AllocError>
    ensures { IfOk result (λ v. v.items ≡ spec.answered_line answered) }
{
    let text = format!(in alloc; "answered {answered}\n")?;
    Vec::from_slice(alloc, text.as_bytes())
}

/// The line that is written at the end.
fn serve_source<S: Source, L: Sink, F: Front, C: Clock, W: Words, V: Watch>(
    alloc: Global,
    options: &Options,
    seed: u64,
    asked: Asked,
    source: &mut S,
    errors: &mut L,
    front: &mut F,
    clock: &mut C,
    rng: &mut W,
    watch: &mut V,
) -> Result<Vec<u8>, Cause>
    ensures done { IfOk result (λ line. around F.deeds F.polls C.given W.stream (front.old, clock.old, rng.old) (front.new, clock.new, rng.new) (IsAnsweredIf options.now asked (S.left source.old) line.items)) }
    ensures noted { OnOk result (IsNoted (NotesIn options.now.policy (S.left source.old)) (L.held errors.old) (L.held errors.new) (L.faults errors.old) (L.faults errors.new)) }
    ensures told { IfErr result (λ cause. status_of cause ≢ 6 → IsNoted AnyNotes (L.held errors.old) (L.held errors.new) (L.faults errors.old) (L.faults errors.new)) }
    ensures cause { IfErr result (IsEndCause options.now asked.port (S.left source.old) (W.stream rng.old) (F.gave front.new) (F.is_deaf_at front.new) (F.faults front.old) (F.faults front.new) (S.faults source.old) (S.faults source.new)) }
{
    let conf = match conf_asked(alloc, options, source, errors, rng) {
        Ok(conf) => conf,
        Err(cause) => return Err(cause),
    };
    let answered = match serve_conf(alloc, options, seed, asked, &conf, front, clock, rng, watch) {
        Ok(answered) => answered,
        Err(cause) => return Err(cause),
    };
    let line = answered_line(alloc, answered)?;
    Ok(line)
}

/// Serves as it is asked, and writes how many answers were put out.
fn serve_asked<S: Source, K: Sink, L: Sink, F: Front, C: Clock, W: Words, V: Watch>(
    alloc: Global,
    options: &Options,
    seed: u64,
    asked: Asked,
    source: &mut S,
    sink: &mut K,
    errors: &mut L,
    front: &mut F,
    clock: &mut C,
    rng: &mut W,
    watch: &mut V,
) -> Status
    ensures asked { result.0 ≢ 2 }
    ensures done { result.0 ≡ 0 → around F.deeds F.polls C.given W.stream (front.old, clock.old, rng.old) (front.new, clock.new, rng.new) (IsDoneBy K.held options.now (Some asked) (S.left source.old) sink.old sink.new) }
    ensures flushed { result.0 ≡ 0 → IsFlushed (K.held sink.new) (K.flushed sink.new) }
    ensures noted { result.0 ≡ 0 → IsNoted (NotesIn options.now.policy (S.left source.old)) (L.held errors.old) (L.held errors.new) (L.faults errors.old) (L.faults errors.new) }
    ensures refused { result.0 ≡ 1 → IfAsked (Some asked) (S.left source.old) (λ _ text. RefusalIsSaid options.now.policy text (K.held sink.old) (K.held sink.new) (K.faults sink.old) (K.faults sink.new)) }
    ensures source_fault { result.0 ≡ 3 → Rose (S.faults source.old) (S.faults source.new) }
    ensures cut { result.0 ≡ 4 → around F.deeds F.polls C.given W.stream (front.old, clock.old, rng.old) (front.new, clock.new, rng.new) (IsCutBy K.held options.now (Some asked) (S.left source.old) sink.old sink.new) }
    ensures sink_fault { result.0 ≡ 4 → Rose (K.faults sink.old) (K.faults sink.new) }
    ensures cut_told { result.0 ≡ 4 → IsTold output_sentence (L.held errors.old) (L.held errors.new) (L.faults errors.old) (L.faults errors.new) }
    ensures deaf { result.0 ≡ 5 → IsNotListenedBy options.now (Some asked) (S.left source.old) (W.stream rng.old) (F.faults front.old) (F.faults front.new) }
    ensures silent { IsSilent result.0 → K.held sink.new ≡ K.held sink.old }
    ensures numbers { result.0 ≡ 7 → IsSaid numbers_line (K.held sink.old) (K.held sink.new) (K.faults sink.old) (K.faults sink.new) }
    ensures why { EndsBecause result.0 → IsWhy (IsEndCause options.now asked.port (S.left source.old) (W.stream rng.old) (F.gave front.new) (F.is_deaf_at front.new) (F.faults front.old) (F.faults front.new) (S.faults source.old) (S.faults source.new)) options.now.listened asked.port result.0 (L.held errors.old) (L.held errors.new) (L.faults errors.old) (L.faults errors.new) }
    ensures status { result.0 < 8 }
{
    match serve_source(
        alloc, options, seed, asked, source, errors, front, clock, rng, watch,
    ) {
        Ok(line) => end_delivered(errors, deliver(sink, &line)),
        Err(cause) => end_because(
            alloc,
            options.listened.as_slice(),
            asked.port,
            sink,
            errors,
            cause,
        ),
    }
}

/// Answers DNS clients as the options and the words behind them say, `PORT` or `PORT TURNS`: it is listened on PORT, the servers of the
/// configuration that the source gives are asked, and TURNS turns are made, of each of which `watch` is told; then `answered N` is
/// written, which says how many answers were put out. The cache is hashed from `seed`: who doesn't know it can't ask for names that
/// slow it down. To `errors` it is told which lines of the configuration are not taken as they stand, and by one sentence why the
/// status is another than 0.
///
/// 0: the turns were made, and the line was written. 1: a line of the configuration is refused, or it is too long, or names servers
/// of which none is taken; a line says which. 2: the words are others; nothing is written. 3: the source failed; nothing is written.
/// 4: the sink failed. 5: it can't be listened, or a server of the configuration is this very forwarder, which would ask itself;
/// nothing is written. 6: memory ran out. 7: numbers are used up.
pub fn serve_as<S: Source, K: Sink, L: Sink, F: Front, C: Clock, W: Words, V: Watch>(
    alloc: Global,
    options: &Options,
    seed: u64,
    words: &[String],
    source: &mut S,
    sink: &mut K,
    errors: &mut L,
    front: &mut F,
    clock: &mut C,
    rng: &mut W,
    watch: &mut V,
) -> Status
    ensures usage { result.0 ≡ 2 → asked_in words.now ≡ None }
    ensures no_command { asked_in words.now ≡ None → (result.0 ≡ 2) ⊎ (result.0 ≡ 6) }
    ensures usage_told { result.0 ≡ 2 → IfErr (command_of words.now) (λ unasked. IsSaid (unasked_sentence words.now unasked) (L.held errors.old) (L.held errors.new) (L.faults errors.old) (L.faults errors.new)) }
    ensures done { result.0 ≡ 0 → around F.deeds F.polls C.given W.stream (front.old, clock.old, rng.old) (front.new, clock.new, rng.new) (IsDoneBy K.held options.now (asked_in words.now) (S.left source.old) sink.old sink.new) }
    ensures flushed { result.0 ≡ 0 → IsFlushed (K.held sink.new) (K.flushed sink.new) }
    ensures noted { result.0 ≡ 0 → IsNoted (NotesIn options.now.policy (S.left source.old)) (L.held errors.old) (L.held errors.new) (L.faults errors.old) (L.faults errors.new) }
    ensures refused { result.0 ≡ 1 → IfAsked (asked_in words.now) (S.left source.old) (λ _ text. RefusalIsSaid options.now.policy text (K.held sink.old) (K.held sink.new) (K.faults sink.old) (K.faults sink.new)) }
    ensures source_fault { result.0 ≡ 3 → Rose (S.faults source.old) (S.faults source.new) }
    ensures cut { result.0 ≡ 4 → around F.deeds F.polls C.given W.stream (front.old, clock.old, rng.old) (front.new, clock.new, rng.new) (IsCutBy K.held options.now (asked_in words.now) (S.left source.old) sink.old sink.new) }
    ensures sink_fault { result.0 ≡ 4 → Rose (K.faults sink.old) (K.faults sink.new) }
    ensures cut_told { result.0 ≡ 4 → IsTold output_sentence (L.held errors.old) (L.held errors.new) (L.faults errors.old) (L.faults errors.new) }
    ensures deaf { result.0 ≡ 5 → IsNotListenedBy options.now (asked_in words.now) (S.left source.old) (W.stream rng.old) (F.faults front.old) (F.faults front.new) }
    ensures silent { IsSilent result.0 → K.held sink.new ≡ K.held sink.old }
    ensures numbers { result.0 ≡ 7 → IsSaid numbers_line (K.held sink.old) (K.held sink.new) (K.faults sink.old) (K.faults sink.new) }
    ensures why { EndsBecause result.0 → IfSome (asked_in words.now) (λ asked. IsWhy (IsEndCause options.now asked.port (S.left source.old) (W.stream rng.old) (F.gave front.new) (F.is_deaf_at front.new) (F.faults front.old) (F.faults front.new) (S.faults source.old) (S.faults source.new)) options.now.listened asked.port result.0 (L.held errors.old) (L.held errors.new) (L.faults errors.old) (L.faults errors.new)) }
    ensures status { result.0 < 8 }
{
    match command_of(words) {
        Ok(asked) => serve_asked(
            alloc, options, seed, asked, source, sink, errors, front, clock, rng, watch,
        ),
        Err(unasked) => tell_unasked(alloc, words, unasked, errors),
    }
}

/// The same as without options, by `PORT TURNS` and to the letter of the configuration: it is listened at 127.0.0.1, all settings are
/// those by default, but 100,000 answers are kept, and nobody watches or hears more than what is written.
pub fn serve<S: Source, K: Sink, F: Front, C: Clock, W: Words>(
    alloc: Global,
    words: &[String],
    source: &mut S,
    sink: &mut K,
    front: &mut F,
    clock: &mut C,
    rng: &mut W,
) -> Status
    ensures usage { result.0 ≡ 2 → asked_by words.now ≡ None }
    ensures no_command { asked_by words.now ≡ None → (result.0 ≡ 2) ⊎ (result.0 ≡ 6) }
    ensures done { result.0 ≡ 0 → around F.deeds F.polls C.given W.stream (front.old, clock.old, rng.old) (front.new, clock.new, rng.new) (IsDoneBy K.held no_options (asked_by words.now) (S.left source.old) sink.old sink.new) }
    ensures flushed { result.0 ≡ 0 → IsFlushed (K.held sink.new) (K.flushed sink.new) }
    ensures refused { result.0 ≡ 1 → IfAsked (asked_by words.now) (S.left source.old) (λ _ text. RefusalIsSaid no_options.policy text (K.held sink.old) (K.held sink.new) (K.faults sink.old) (K.faults sink.new)) }
    ensures source_fault { result.0 ≡ 3 → Rose (S.faults source.old) (S.faults source.new) }
    ensures cut { result.0 ≡ 4 → around F.deeds F.polls C.given W.stream (front.old, clock.old, rng.old) (front.new, clock.new, rng.new) (IsCutBy K.held no_options (asked_by words.now) (S.left source.old) sink.old sink.new) }
    ensures sink_fault { result.0 ≡ 4 → Rose (K.faults sink.old) (K.faults sink.new) }
    ensures deaf { result.0 ≡ 5 → IsNotListenedBy no_options (asked_by words.now) (S.left source.old) (W.stream rng.old) (F.faults front.old) (F.faults front.new) }
    ensures silent { IsSilent result.0 → K.held sink.new ≡ K.held sink.old }
    ensures numbers { result.0 ≡ 7 → IsSaid numbers_line (K.held sink.old) (K.held sink.new) (K.faults sink.old) (K.faults sink.new) }
    ensures status { result.0 < 8 }
{
    let Some(asked) = asked_by(words) else {
        return USAGE;
    };
    let Ok(options) = Options::defaults(alloc) else {
        return NO_MEMORY;
    };
    serve_asked(
        alloc,
        &options,
        0,
        asked,
        source,
        sink,
        &mut Unheard,
        front,
        clock,
        rng,
        &mut Unwatched,
    )
}
