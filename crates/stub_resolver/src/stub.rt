//! The stub resolver.

ghost use Rattle.std.specs.Prelude.{◌≡◌, ◌<◌, ◌≤◌, ◌||◌, if◌then◌else◌, true, false, Err, IfOk, IfErr, IsErrOf, OnOk, OnErr};
ghost use Rattle.dns_values.specs.Source.{Rose, one_more};
ghost use Rattle.client_core.specs.Edge.{after_deed};
ghost use Rattle.client_core.specs.declared.edge.Deed.TheVariants.{Learned};
ghost use Rattle.client_request.specs.Response.{IsRefusal};
ghost use Rattle.client_steps.specs.Whole.{with_one_more};
ghost use Rattle.resolv_lookup.specs.ListAnswers.{faults_after};
ghost use Rattle.stub_resolver.specs.All.{QueriesAll, StopFor};
ghost use Rattle.stub_resolver.specs.Both.{AskBoth, QueriesBoth, TakeTurns};
ghost use Rattle.stub_resolver.specs.Making.{IsNew, IsNewWith, ByFile};
ghost use Rattle.stub_resolver.specs.Queries.{Gets, question, is_want};
ghost use Rattle.stub_resolver.specs.Stub.{seen, with_fault};

use crate::all::{Question, faults_after_all, got_to_all};
use crate::asking::{got_to, is_want};
use crate::both::{BothGot, are_want, faults_after, got_to_both, requests_of};
use crate::question::question;
use client_core::{Client, Clock, Edge, Settings};
use client_loop::learn_all;
use client_request::{Error, RequestMessage, Words};
use dns_base::{Message, Name, NoMemory, Rtype};
use resolv_conf::{OpenFile, ResolvConf, ResolvOptions, ServerConf};
use resolv_lookup::{Answer, QueryFault};
use std::alloc::Global;
use std::marker::Model;

/// A resolver that asks the servers of a configuration.
///
/// It holds a client and what the client is run over: an edge, a clock and words. After `NoMemory`
/// or `NumbersUsed` of a query or of `add_connection` it has failed: each further one answers `Failed`, and changes nothing but
/// the count of faults.
#[derive(Drop)]
pub struct StubResolver<E, C, W> {
    client: Client,
    options: ResolvOptions,
    edge: E,
    clock: C,
    words: W,
    /// How many queries got no message. It stands still at its last value.
    faults: u64,
    failed: bool,
}

impl<E, C, W> Model for StubResolver<E, C, W> {
    ghost use Rattle.std.specs.Prelude.{◌≡◌, false};
    ghost use Rattle.stub_resolver.specs.Stub.{Stub};

    ghost Value = { Stub E C W };

    ghost view = { λ s. record {
      client = s.client;
      options = s.options;
      edge = s.edge;
      clock = s.clock;
      words = s.words;
      faults = s.faults;
      failed = s.failed;
    } };

    ghost invariant = { λ s. s.failed ≡ false → s.client.failed ≡ false };
}

impl<E: Edge + Drop, C: Clock + Drop, W: Words + Drop> StubResolver<E, C, W> {
    /// A resolver of the servers of a configuration as it stands, which the edge learns in order, with the default settings.
    /// `NoMemory` alone is answered.
    pub fn from_conf(
        alloc: Global,
        conf: ResolvConf,
        edge: E,
        clock: C,
        words: W,
    ) -> Result<StubResolver<E, C, W>, Error>
        ensures made { IfOk result (IsNew E.deeds E.waits E.polls E.faults conf edge clock words) }
        ensures refused { IfErr result (λ e. e ≡ Error.NoMemory) }
    {
        StubResolver::with_settings(alloc, conf, Settings::new(), edge, clock, words)
    }

    /// The same with settings of one's own: which results of one server wait for what others say, what the cache keeps, and how
    /// servers are asked. `resolver_policy` has those with which a dead server is passed by.
    ///
    /// Of a configuration `timeout` is the deadline of a whole request. `NoMemory` alone is answered.
    pub fn with_settings(
        alloc: Global,
        conf: ResolvConf,
        settings: Settings,
        edge: E,
        clock: C,
        words: W,
    ) -> Result<StubResolver<E, C, W>, Error>
        ensures made { IfOk result (IsNewWith settings E.deeds E.waits E.polls E.faults conf edge clock words) }
        ensures refused { IfErr result (λ e. e ≡ Error.NoMemory) }
    {
        let mut edge = edge;
        let client = Client::with_settings(alloc, &conf, settings, 0)?;
        learn_all(&mut edge, conf.servers.as_slice())?;
        Ok(StubResolver {
            client,
            options: conf.options,
            edge,
            clock,
            words,
            faults: 0,
            failed: false,
        })
    }

    /// A resolver of the servers that `/etc/resolv.conf` names, or of the one on this host where it names none. A fault of that
    /// file is dropped, with what can't be read of it. `NoMemory` alone is answered.
    pub fn new<O: OpenFile>(
        alloc: Global,
        opener: &mut O,
        edge: E,
        clock: C,
        words: W,
    ) -> Result<StubResolver<E, C, W>, Error>
        ensures made { IfOk result (ByFile E.deeds E.waits E.polls E.faults (O.files opener.old) (O.faults opener.old) (O.faults opener.new) edge clock words) }
        ensures count { O.faults opener.old ≤ O.faults opener.new }
        ensures refused { IfErr result (λ e. e ≡ Error.NoMemory) }
    {
        let conf = ResolvConf::default(alloc, opener)?;
        StubResolver::from_conf(alloc, conf, edge, clock, words)
    }

    /// How it goes about its questions.
    pub fn options(&self) -> &ResolvOptions
        ensures { result.now ≡ self.now.options }
    {
        &self.options
    }

    /// Adds a server behind the others, which is asked from the next query on. The edge learns it before the client does.
    ///
    /// `NoMemory`, also where 2^32 servers were there before; or `Failed`, after which nothing has changed.
    pub fn add_connection(&mut self, server: &ServerConf) -> Result<(), Error>
        ensures added { OnOk result (self.new ≡ record self.old { client = with_one_more server.now self.old.client; edge = self.new.edge }) }
        ensures learned { OnOk result (E.deeds self.new.edge ≡ after_deed (Learned server.now) (E.deeds self.old.edge)) }
        ensures no_wait { OnOk result (E.waits self.new.edge ≡ E.waits self.old.edge) }
        ensures not_polled { OnOk result ((E.polls self.new.edge ≡ E.polls self.old.edge) × (E.faults self.new.edge ≡ E.faults self.old.edge)) }
        ensures failed { self.old.failed ≡ true → (result ≡ Err Error.Failed) × (self.new ≡ self.old) }
        ensures refused { IfErr result (λ e. e ≡ (if self.old.failed then Error.Failed else Error.NoMemory)) }
        ensures lasts { OnErr result (self.new.failed ≡ true) }
    {
        if self.failed {
            return Err(Error::Failed);
        }
        if self.edge.learn_server(server).is_err() || self.client.add_server(server).is_err() {
            self.failed = true;
            return Err(Error::NoMemory);
        }
        Ok(())
    }

    /// Asks for the records of a type that a name has: a question of class IN, recursion desired. Any message is an answer, one
    /// with an error code too. Where the first one says that the question could not be read, it is asked once more.
    ///
    /// `NoReply` where a million turns had no reply; `Client(FormError)` for the type AXFR, which several messages answer;
    /// `Client` with the client's reply where that is an error; `Client(NoMemory)`, or `Client(NumbersUsed)` where a number would
    /// pass the greatest `u64`, after which the resolver has failed; `Client(Failed)` where it had failed before.
    pub fn query(&mut self, alloc: Global, name: &Name, rtype: Rtype) -> Result<Answer, QueryFault>
        ensures failed { self.old.failed ≡ true → (result ≡ Err (QueryFault.Client Error.Failed)) × (self.new ≡ with_fault self.old) }
        ensures gets { self.old.failed ≡ false → Gets true (question name.now rtype.0) (seen E.deeds E.waits E.polls C.given W.stream self.old) (seen E.deeds E.waits E.polls C.given W.stream self.new) result }
        ensures count { self.new.faults ≡ faults_after result self.old.faults }
        ensures rose { OnErr result (Rose self.old.faults self.new.faults) }
        ensures lasts { self.new.failed ≡ (self.old.failed || is_want result) }
        ensures options { self.new.options ≡ self.old.options }
    {
        if self.failed {
            return self.fail(QueryFault::Client(Error::Failed));
        }
        match question(alloc, name, rtype) {
            Ok(message) => self.ask(alloc, message, true),
            Err(NoMemory) => self.fail(QueryFault::from(NoMemory)),
        }
    }

    /// Asks for the records of two types that a name has, each as `query` does, so that both questions wait at once: a server that is
    /// silent costs the time of one. Where that can't be, since the resolver has failed, one of the types is AXFR or no two numbers
    /// are left, it asks one after the other. A question that could not be read is asked once more when both have their replies.
    ///
    /// The faults of each are those of `query`; where memory or numbers ran out, both have that fault.
    pub fn query_both(
        &mut self,
        alloc: Global,
        name: &Name,
        first: Rtype,
        second: Rtype,
    ) -> (Result<Answer, QueryFault>, Result<Answer, QueryFault>)
        ensures asks { AskBoth (seen E.deeds E.waits E.polls C.given W.stream) (question name.now first.0) (question name.now second.0) self.old self.new result.0 result.1 }
        ensures count { self.old.faults ≤ self.new.faults }
        ensures first_rose { OnErr result.0 (Rose self.old.faults self.new.faults) }
        ensures second_rose { OnErr result.1 (Rose self.old.faults self.new.faults) }
    {
        if self.failed || self.client.next_request() == u64::MAX {
            return self.query_by_turns(alloc, name, first, second);
        }
        match requests_of(alloc, name, first, second) {
            Ok((one, other)) => self.ask_both(alloc, one, other),
            Err(Error::FormError) => self.query_by_turns(alloc, name, first, second),
            Err(_) => {
                let fault = QueryFault::from(NoMemory);
                (self.fail(fault), self.fail(fault))
            }
        }
    }

    /// The same, one after the other.
    fn query_by_turns(&mut self, alloc: Global, name: &Name, first: Rtype, second: Rtype) -> BothGot
        ensures turns { TakeTurns (seen E.deeds E.waits E.polls C.given W.stream) (question name.now first.0) (question name.now second.0) self.old self.new result.0 result.1 }
        ensures count { self.old.faults ≤ self.new.faults }
        ensures first_rose { OnErr result.0 (Rose self.old.faults self.new.faults) }
        ensures second_rose { OnErr result.1 (Rose self.old.faults self.new.faults) }
    {
        let one = self.query(alloc, name, first);
        let other = self.query(alloc, name, second);
        (one, other)
    }

    /// Asks two requests side by side.
    fn ask_both(&mut self, alloc: Global, first: RequestMessage, second: RequestMessage) -> BothGot
        requires lasts { self.old.failed ≡ false }
        requires room { self.old.client.asked.next < u64.MAX }
        ensures both { QueriesBoth (seen E.deeds E.waits E.polls C.given W.stream) first second self.old self.new result.0 result.1 }
        ensures count { self.old.faults ≤ self.new.faults }
        ensures first_rose { OnErr result.0 (Rose self.old.faults self.new.faults) }
        ensures second_rose { OnErr result.1 (Rose self.old.faults self.new.faults) }
    {
        let both = got_to_both(
            alloc,
            &mut self.client,
            &mut self.edge,
            &mut self.clock,
            &mut self.words,
            first,
            second,
        );
        self.failed = are_want(&both);
        self.faults = faults_after(&both.1, faults_after(&both.0, self.faults));
        both
    }

    /// Asks questions, all at once, and gives what each gets, in their order: the answer to its own question, or its own fault, whatever
    /// the others get. All deadlines run from the asking on, so that a server that is silent costs one of them. Those that could not be
    /// read are asked once more when all have their replies, at once too. It returns when the last reply is there.
    ///
    /// The faults of each are those of `query`: `NoReply`, `Client(FormError)` for the type AXFR, which alone is not asked, and
    /// `Client` with the client's reply. An error of them all is `NoMemory`, or `NumbersUsed` where a number would pass the greatest
    /// `u64`, after which the resolver has failed; or `Failed` where it had failed before, and nothing is asked.
    pub fn resolve_all(
        &mut self,
        alloc: Global,
        questions: &[Question],
    ) -> Result<Vec<Result<Answer, QueryFault>>, Error>
        ensures resolved { IfOk result (λ r. QueriesAll (seen E.deeds E.waits E.polls C.given W.stream) questions.now r.items self.old self.new) }
        ensures numbers { IsErrOf result Error.NumbersUsed → StopFor questions.now (seen E.deeds E.waits E.polls C.given W.stream self.old) (seen E.deeds E.waits E.polls C.given W.stream self.new) }
        ensures failed { self.old.failed ≡ true → (result ≡ Err Error.Failed) × (self.new ≡ with_fault self.old) }
        ensures refused { IfErr result IsRefusal }
        ensures failed_only { IsErrOf result Error.Failed → self.old.failed ≡ true }
        ensures count { OnErr result (self.new.faults ≡ one_more self.old.faults) }
        ensures lasts { OnErr result (self.new.failed ≡ true) }
        ensures options { OnErr result (self.new.options ≡ self.old.options) }
    {
        if self.failed {
            self.faults = self.faults.saturating_add(1);
            return Err(Error::Failed);
        }
        match got_to_all(
            alloc,
            &mut self.client,
            &mut self.edge,
            &mut self.clock,
            &mut self.words,
            questions,
        ) {
            Ok(gots) => {
                self.faults = faults_after_all(&gots, self.faults);
                Ok(gots)
            }
            Err(error) => {
                self.failed = true;
                self.faults = self.faults.saturating_add(1);
                Err(error)
            }
        }
    }

    /// Asks what a message asks, and once more where `again` is set and the first answer says that it could not be read.
    pub(crate) fn ask(
        &mut self,
        alloc: Global,
        message: Message,
        again: bool,
    ) -> Result<Answer, QueryFault>
        ensures failed { self.old.failed ≡ true → (result ≡ Err (QueryFault.Client Error.Failed)) × (self.new ≡ with_fault self.old) }
        ensures gets { self.old.failed ≡ false → Gets again message (seen E.deeds E.waits E.polls C.given W.stream self.old) (seen E.deeds E.waits E.polls C.given W.stream self.new) result }
        ensures count { self.new.faults ≡ faults_after result self.old.faults }
        ensures rose { OnErr result (Rose self.old.faults self.new.faults) }
        ensures lasts { self.new.failed ≡ (self.old.failed || is_want result) }
        ensures options { self.new.options ≡ self.old.options }
    {
        if self.failed {
            return self.fail(QueryFault::Client(Error::Failed));
        }
        let got = got_to(
            alloc,
            &mut self.client,
            &mut self.edge,
            &mut self.clock,
            &mut self.words,
            message,
            again,
        );
        self.failed = is_want(&got);
        if got.is_err() {
            self.faults = self.faults.saturating_add(1);
        }
        got
    }

    /// Counts a fault, after which the resolver has failed if memory or numbers ran out.
    fn fail(&mut self, fault: QueryFault) -> Result<Answer, QueryFault>
        ensures is { result ≡ Err fault }
        ensures rose { Rose self.old.faults self.new.faults }
        ensures counts { self.new ≡ record self.old { faults = one_more self.old.faults; failed = self.old.failed || is_want (Err fault) } }
    {
        let got = Err(fault);
        self.failed = self.failed || is_want(&got);
        self.faults = self.faults.saturating_add(1);
        got
    }
}
