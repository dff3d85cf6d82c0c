//! The replay of a list of events.

ghost use Rattle.std.specs.Prelude.{◌≡◌, Some, None, Ok, List, IfOk, IfErr, IsErrOf, [], map};
ghost use Rattle.client_request.specs.Timers.{IsWant};
ghost use Rattle.client_request.specs.declared.event.Row.{Row};
ghost use Rattle.client_replay.specs.Replayed.{IsReplay, IsReplayWith};
ghost use Rattle.proof_cutting.specs.Cuts.{MayBeCut};
ghost use Rattle.client_steps.specs.Headline.{conf_of, settings_of};
ghost use Rattle.client_steps.specs.Whole.{plain_trace, plain_trace_with};
ghost use Rattle.client_cache.specs.Plain.{room_of};
ghost use Rattle.client_request.specs.Composed.{composed};
ghost use Rattle.right_trace.specs.Hit.{AllHit};
ghost use Rattle.right_trace.specs.Right.{Right};
ghost use Rattle.right_trace.specs.StaleServed.{AllServeStale};
ghost use Rattle.right_trace.specs.Timely.{Timely};

use crate::taking::TakeRow;
use client_core::{
    Client, Settings, Transports, all_asked_in_octets, all_in_octets, cache, redundant,
};
use client_request::{Error, Event, Events, Rows, Trace, Words};
use dns_base::NoMemory;
use proof_client::traces_with_settings;
use proof_cutting::traces_may_be_cut;
use resolv_conf::ResolvConf;
use std::alloc::Global;

/// Copies of events, in order.
fn copied(alloc: Global, events: &[Event]) -> Result<Events, NoMemory>
    ensures { IfOk result (λ copies. copies ≡ events.now) }
{
    let mut copies = Events::new(alloc);
    for event in events {
        copies.push(event.try_clone(alloc)?)?;
    }
    Ok(copies)
}

/// The replay of a list of events by a client that is made for it.
pub trait Replay {
    /// The trace of a client that is told these events and draws these words: a row for each event, in
    /// order. `NoMemory`, or `NumbersUsed` where a number would pass the greatest `u64`.
    ///
    /// The trace is right and timely whatever the events are; and what is kept is given: a request with the key of a message that is kept is answered from the cache in its own row, few enough requests
    /// and replies later. A request for which a message that is kept had expired gets that message, marked as stale, in place of
    /// an error of a server or of its deadline, for as long as the settings say. Where the octets that one event brings to a stream come in several, one behind another at one moment,
    /// the same is put out in the same order, and the same client is left.
    fn replay<W: Words>(
        alloc: Global,
        conf: &ResolvConf,
        redundant: redundant::Config,
        cache: cache::Config,
        words: &mut W,
        events: &[Event],
    ) -> Result<Trace, Error>
        ensures plain { IfOk result (λ t. plain_trace redundant cache conf.now (W.stream words.old) events.now ≡ Some t.rows) }
        ensures events { IfOk result (λ t. map (λ row. row.event) t.rows ≡ events.now) }
        ensures right { IfOk result (λ t. Right (conf_of conf.now) (settings_of redundant cache) t.rows) }
        ensures timely { IfOk result (λ t. Timely (conf_of conf.now) t.rows) }
        ensures hits { IfOk result (λ t. AllHit (conf_of conf.now) (settings_of redundant cache) composed (room_of cache) [] t.rows) }
        ensures stale { IfOk result (λ t. AllServeStale (conf_of conf.now) (settings_of redundant cache) (room_of cache) [] t.rows) }
        ensures cut { IfOk result (λ t. MayBeCut redundant cache conf.now (W.stream words.old) events.now t.rows) }
        ensures numbers { IsErrOf result Error.NumbersUsed → plain_trace redundant cache conf.now (W.stream words.old) events.now ≡ None }
        ensures refused { IfErr result IsWant };

    /// The same, where each row is taken as soon as it is made, so that no trace stands in memory. After an error some of
    /// the rows were taken.
    fn replay_into<W: Words, T: TakeRow>(
        alloc: Global,
        conf: &ResolvConf,
        redundant: redundant::Config,
        cache: cache::Config,
        words: &mut W,
        events: Events,
        taker: &mut T,
    ) -> Result<(), Error>
        requires none_taken { T.has taker.old [] }
        ensures replay { IfOk result (λ _. (rows : List Row) × IsReplay redundant cache conf.now (W.stream words.old) events rows × T.has taker.new rows) }
        ensures numbers { IsErrOf result Error.NumbersUsed → plain_trace redundant cache conf.now (W.stream words.old) events ≡ None }
        ensures refused { IfErr result IsWant };

    /// The trace of a client with settings of its transports, for every server alike. It is right and timely, and all else of
    /// `replay`, by these settings.
    fn replay_with<W: Words>(
        alloc: Global,
        conf: &ResolvConf,
        settings: Settings,
        words: &mut W,
        events: &[Event],
    ) -> Result<Trace, Error>
        ensures replay { IfOk result (λ t. IsReplayWith settings.transports settings.redundant settings.cache conf.now (W.stream words.old) events.now t.rows) }
        ensures numbers { IsErrOf result Error.NumbersUsed → plain_trace_with settings.transports settings.redundant settings.cache conf.now (W.stream words.old) events.now ≡ None }
        ensures refused { IfErr result IsWant };

    /// The same, where each row is taken as soon as it is made. After an error some of the rows were taken.
    fn replay_into_with<W: Words, T: TakeRow>(
        alloc: Global,
        conf: &ResolvConf,
        settings: Settings,
        words: &mut W,
        events: Events,
        taker: &mut T,
    ) -> Result<(), Error>
        requires none_taken { T.has taker.old [] }
        ensures replay { IfOk result (λ _. (rows : List Row) × IsReplayWith settings.transports settings.redundant settings.cache conf.now (W.stream words.old) events rows × T.has taker.new rows) }
        ensures numbers { IsErrOf result Error.NumbersUsed → plain_trace_with settings.transports settings.redundant settings.cache conf.now (W.stream words.old) events ≡ None }
        ensures refused { IfErr result IsWant };
}

impl Replay for Client {
    fn replay<W: Words>(
        alloc: Global,
        conf: &ResolvConf,
        redundant: redundant::Config,
        cache: cache::Config,
        words: &mut W,
        events: &[Event],
    ) -> Result<Trace, Error> {
        let copies = copied(alloc, events)?;
        let mut rows = Rows::new(alloc);
        Client::replay_into(alloc, conf, redundant, cache, words, copies, &mut rows)?;
        Ok(Trace { rows })
    }

    fn replay_into<W: Words, T: TakeRow>(
        alloc: Global,
        conf: &ResolvConf,
        redundant: redundant::Config,
        cache: cache::Config,
        words: &mut W,
        events: Events,
        taker: &mut T,
    ) -> Result<(), Error> {
        let settings = Settings {
            redundant,
            cache,
            transports: Transports::new(),
        };
        Client::replay_into_with(alloc, conf, settings, words, events, taker)
    }

    fn replay_with<W: Words>(
        alloc: Global,
        conf: &ResolvConf,
        settings: Settings,
        words: &mut W,
        events: &[Event],
    ) -> Result<Trace, Error> {
        let copies = copied(alloc, events)?;
        let mut rows = Rows::new(alloc);
        Client::replay_into_with(alloc, conf, settings, words, copies, &mut rows)?;
        Ok(Trace { rows })
    }

    fn replay_into_with<W: Words, T: TakeRow>(
        alloc: Global,
        conf: &ResolvConf,
        settings: Settings,
        words: &mut W,
        events: Events,
        taker: &mut T,
    ) -> Result<(), Error> {
        settings.cache.max_validity_is_limited();
        let told = events.as_slice();
        all_asked_in_octets(told);
        all_in_octets(told);
        traces_with_settings();
        traces_may_be_cut();
        let mut client = Client::with_settings(alloc, conf, settings, 0)?;
        for event in events.into_vec() {
            let row = client.step(words, event)?;
            taker.take(row)?;
        }
        Ok(())
    }
}
