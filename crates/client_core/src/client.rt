//! The client: one step for each event.

ghost use Rattle.std.specs.Prelude.{◌≡◌, if◌then◌else◌, true, false, Some, None, Ok, Err, OnOk, OnErr, IfOk, IfErr, IsErrOf, max, option_map};
ghost use Rattle.client_request.specs.Calls.{NumbersRunOut, AnswersFailed};
ghost use Rattle.client_request.specs.Response.{IsRefusal};
ghost use Rattle.client_request.specs.Timers.{due_now, next_due};
ghost use Rattle.client_steps.specs.Client as plain;
ghost use Rattle.client_steps.specs.Machines.{ClientHolds};
ghost use Rattle.client_core.specs.Waiting.{time_left, wait_of};
ghost use Rattle.client_steps.specs.Upstream as below;
ghost use Rattle.client_steps.specs.Whole.{machine, reading, started, started_with, with_one_more, plain_step, client_with};
ghost use Rattle.client_cache.specs.Plain as caching;
ghost use Rattle.client_cache.specs.Serving.{would_serve};
ghost use Rattle.client_choice.specs.Redundant as choosing;

use crate::servers::{Layers, add_server, servers_of};
use crate::{cache, redundant};
use client_cache::Request;
use client_choice::redundant as choice;
use client_request::{Board, Cx, Error, Event, Moment, Outs, RequestMessage, Row, Timers, Words};
use client_settings::{Settings, Transports};
use client_steps::{Asked, take_in};
use dns_base::{Duration, NoMemory};
use resolv_conf::{ResolvConf, ServerConf};
use std::alloc::Global;
use std::marker::Model;

/// A client of the servers of a configuration.
///
/// It is told what happens by `step`, and what it puts out is to be done by whoever holds it.
pub struct Client {
    alloc: Global,
    use_vc: bool,
    transports: Transports,
    count: usize,
    layer: Layers,
    asked: Asked<Request<choice::Request>>,
    timeout: Duration,
    now: Moment,
    board: Board,
    timers: Timers,
    ticket: u64,
    place: u64,
    failed: bool,
}

impl Drop for Client {
    fn drop(self) {
        let Client {
            alloc: _,
            use_vc: _,
            transports: _,
            count: _,
            layer: _,
            asked: _,
            timeout: _,
            now: _,
            board: _,
            timers: _,
            ticket: _,
            place: _,
            failed: _,
        } = self;
    }
}

impl Model for Client {
    ghost use Rattle.std.specs.Prelude.{◌≡◌, true, false};
    ghost use Rattle.client_steps.specs.Whole.{Whole};
    ghost use Rattle.client_cache.specs.Plain as caching;
    ghost use Rattle.client_choice.specs.Redundant as choosing;
    ghost use Rattle.client_steps.specs.Upstream as upstream;

    ghost Value = { Whole };

    ghost view = { λ c. record {
      use_vc = c.use_vc;
      transports = c.transports;
      count = c.count;
      layer = c.layer;
      asked = c.asked;
      timeout = c.timeout;
      now = c.now.0;
      board = c.board;
      timers = c.timers;
      ticket = c.ticket;
      place = c.place;
      failed = c.failed;
    } };

    ghost invariant = { λ c. c.failed ≡ false → caching.holds_failed (choosing.holds_failed upstream.holds_failed) c.layer ≡ false };
}

/// A step over this very transport.
fn turn<W: Words>(
    layer: &mut Layers,
    asked: &mut Asked<Request<choice::Request>>,
    cx: &mut Cx<'_, W>,
    alloc: Global,
    timeout: Duration,
    event: &Event,
) -> Result<(), Error>
    ensures holds { ClientHolds W.stream cx.old cx.new result (plain.client_step machine timeout event.now) (caching.holds_failed (choosing.holds_failed below.holds_failed)) (layer.old, asked.old) (layer.new, asked.new) }
{
    take_in(layer, asked, cx, alloc, timeout, event)
}

/// The time from a moment until another one is due: 0 where that is past, and as long as may be where nothing is due.
fn time_left(now: Moment, due: Option<u128>) -> u128
    ensures { result ≡ time_left now.0 due }
{
    match due {
        Some(due) => due.saturating_sub(u128::from(now.0)),
        None => u128::MAX,
    }
}

impl Client {
    /// A client of the servers of a configuration, in order, with the default settings of transports. It asks
    /// a server by streams alone where the server or `use_vc` says so, and else by datagrams, with a stream
    /// where an answer is truncated. `redundant` says which results are put off, and `cache` how many results are kept, and
    /// for how long.
    ///
    /// `NoMemory`. More than 2^32 servers count as want of memory: their numbers have 32 bits.
    pub fn new(
        alloc: Global,
        conf: &ResolvConf,
        redundant: redundant::Config,
        cache: cache::Config,
    ) -> Result<Client, Error>
        ensures made { IfOk result (λ c. c ≡ started redundant cache conf.now) }
        ensures refused { IfErr result (λ e. e ≡ Error.NoMemory) }
    {
        Client::with_seed(alloc, conf, redundant, cache, 0)
    }

    /// The same, whose cache is hashed from a seed: who does not know it can't ask for names that slow the cache down. A
    /// client that lives long and asks what others ask of it wants a random one. What the client does is the same with any.
    pub fn with_seed(
        alloc: Global,
        conf: &ResolvConf,
        redundant: redundant::Config,
        cache: cache::Config,
        seed: u64,
    ) -> Result<Client, Error>
        ensures made { IfOk result (λ c. c ≡ started redundant cache conf.now) }
        ensures refused { IfErr result (λ e. e ≡ Error.NoMemory) }
    {
        let settings = Settings {
            redundant,
            cache,
            transports: Transports::new(),
        };
        Client::with_settings(alloc, conf, settings, seed)
    }

    /// The same with settings of transports, which hold for every server alike, also for one that is added. The seed is that
    /// of `with_seed`.
    #[tactic(auto, using(crate::proofs::Serving::none_failed))]
    pub fn with_settings(
        alloc: Global,
        conf: &ResolvConf,
        settings: Settings,
        seed: u64,
    ) -> Result<Client, Error>
        ensures made { IfOk result (λ c. c ≡ started_with settings.transports settings.redundant settings.cache conf.now) }
        ensures refused { IfErr result (λ e. e ≡ Error.NoMemory) }
    {
        let Settings {
            redundant,
            cache,
            transports,
        } = settings;
        let servers = servers_of(alloc, conf, redundant, &transports)?;
        let layer = Layers::with_seed(alloc, servers, cache, seed)?;
        Ok(Client {
            alloc,
            use_vc: conf.options.use_vc,
            transports,
            count: conf.servers.len(),
            layer,
            asked: Asked::new(alloc),
            timeout: conf.options.timeout,
            now: Moment(0),
            board: Board::new(alloc),
            timers: Timers::new(alloc),
            ticket: 0,
            place: 0,
            failed: false,
        })
    }

    /// Adds a server behind the others, whose number is the next one; it is asked from the next request on. It is asked by
    /// streams alone where it says so, or `use_vc` of the configuration does. All else stays.
    ///
    /// `NoMemory`, also where the number would pass 32 bits; after it each further call answers `Failed` and changes
    /// nothing.
    pub fn add_server(&mut self, server: &ServerConf) -> Result<(), Error>
        ensures ok { OnOk result (self.new ≡ with_one_more server.now self.old) }
        ensures refused { IfErr result (λ e. e ≡ (if self.old.failed then Error.Failed else Error.NoMemory)) }
        ensures err { OnErr result (self.new.failed ≡ true) }
        ensures failed { self.old.failed ≡ true → self.new ≡ self.old }
    {
        if self.failed {
            return Err(Error::Failed);
        }
        let servers = self.layer.upstream_mut();
        let transports = &self.transports;
        if add_server(
            self.alloc,
            servers,
            transports,
            self.count,
            self.use_vc,
            server,
        )
        .is_err()
        {
            self.failed = true;
            return Err(Error::NoMemory);
        }
        self.count += 1;
        Ok(())
    }

    /// Takes an event in: timers that are due fire, then it happens, and timers that are due fire again.
    /// Several messages that a stream brings at once are taken one by one, and timers that are due fire before
    /// each.
    ///
    /// `NoMemory`, or `NumbersUsed` where a number would pass the greatest `u64`; after either each
    /// further step answers `Failed` and changes nothing.
    pub fn step<W: Words>(&mut self, words: &mut W, event: Event) -> Result<Row, Error>
        ensures row { IfOk result (λ row. plain_step (W.stream words.old) event self.old ≡ Some (row, client_with (W.stream words.new) self.new)) }
        ensures none_due { OnOk result (due_now self.new.now self.new.timers.set ≡ None) }
        ensures timeout { OnOk result (self.new.timeout ≡ self.old.timeout) }
        ensures use_vc { OnOk result (self.new.use_vc ≡ self.old.use_vc) }
        ensures transports { OnOk result (self.new.transports ≡ self.old.transports) }
        ensures count { OnOk result (self.new.count ≡ self.old.count) }
        ensures lasts { OnOk result (self.new.failed ≡ false) }
        ensures numbers { NumbersRunOut result (plain_step (W.stream words.old) event self.old) }
        ensures refused { IfErr result IsRefusal }
        ensures err { OnErr result (self.new.failed ≡ true) }
        ensures failed { self.old.failed ≡ true → AnswersFailed result (self.old, W.stream words.old) (self.new, W.stream words.new) }
        ensures failed_only { IsErrOf result Error.Failed → self.old.failed ≡ true }
    {
        if self.failed {
            return Err(Error::Failed);
        }
        let alloc = self.alloc;
        let mut outs = Outs::new(alloc);
        let mut cx = Cx {
            now: self.now,
            words,
            outs: &mut outs,
            board: &mut self.board,
            timers: &mut self.timers,
            ticket: self.ticket,
            place: self.place,
            request: 0,
            more: false,
        };
        let result = turn(
            &mut self.layer,
            &mut self.asked,
            &mut cx,
            alloc,
            self.timeout,
            &event,
        );
        let (now, ticket, place) = (cx.now, cx.ticket, cx.place);
        self.now = now;
        self.ticket = ticket;
        self.place = place;
        match result {
            Ok(()) => Ok(Row { event, outs }),
            Err(error) => {
                self.failed = true;
                Err(error)
            }
        }
    }

    /// The client's cache over its choice over its upstreams, as they stand between two events. It takes no memory.
    pub fn layers(&self) -> &Layers
        ensures { result.now ≡ self.entry.now.layer }
    {
        &self.layer
    }

    /// Whether a request that is asked at a moment has its reply at once, so that nothing is started for it: what is kept
    /// serves it, or no message can be composed of it. No entry is used by that, and timers that are due by then don't fire.
    pub fn would_serve(&self, moment: Moment, request: &RequestMessage) -> Result<bool, NoMemory>
        ensures { IfOk result (λ served. served ≡ would_serve reading request.now (max self.entry.now.now moment.0) self.entry.now.layer.kept) }
    {
        let now = Moment(self.now.0.max(moment.0));
        self.layer.would_serve(now, request)
    }

    /// The number that the reply to the next request will name. It takes no memory.
    pub fn next_request(&self) -> u64
        ensures { result ≡ self.entry.now.asked.next }
    {
        self.asked.next()
    }

    /// When the timer that goes first is due, in microseconds; none where no timer is set. Whoever holds
    /// the client is to tell it of the time then, by a `Tick` if nothing else happens. It takes no memory.
    pub fn next_due(&self) -> Option<u128>
        ensures { result ≡ option_map (λ t. t.due) (next_due self.entry.now.timers.set) }
    {
        let (due, _) = self.timers.next_due()?;
        Some(due)
    }

    /// How long whoever holds the client may wait for something to happen, in microseconds from the moment of its last event on:
    /// until `next_due`, or the greatest `u128` where no timer is set. 0 once a step was refused. It takes no memory.
    pub fn may_wait(&self) -> u128
        ensures { result ≡ wait_of self.entry.now }
    {
        if self.failed {
            return 0;
        }
        time_left(self.now, self.next_due())
    }
}
