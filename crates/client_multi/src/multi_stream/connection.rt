//! One server by streams.

ghost use Rattle.std.specs.Prelude.{◌≡◌, true, false, Ok, Err, IsOk, IsOkAnd, OnOk, OnErr, IfOk, IfErr, IsErrOf};
ghost use Rattle.client_request.specs.Calls.{Steps, NumbersRunOut, AnswersFailed};
ghost use Rattle.client_request.specs.Cx.{view_of, LendsTheSame};
ghost use Rattle.client_request.specs.Response.{IsRefusal};
ghost use Rattle.client_stream.specs.Plain.{asked};
ghost use Rattle.client_multi.specs.Links.{one_stream};
ghost use Rattle.client_multi.specs.MultiStream as plain;
ghost use Rattle.client_settings.specs.MultiStream.{default_settings};

use crate::multi_stream::one_stream::Link;
use crate::multi_stream::steps::{give_up, hear, take_on};
use crate::multi_stream::tables::Tables;
use client_request::{
    ComposeRequest, Cx, Error, GetResponse, Latch, Pending, SendRequest, Signal, Words,
};
use client_settings::multi_stream::Config;
use dns_base::NoMemory;
use std::alloc::Global;
use std::marker::Model;

/// A server that is asked by streams, one after another. `server` is the number that its outs name.
///
/// A request goes to the newest connection that is open and has room. Where its connection ends, or it
/// is too long for one, it backs off and is tried anew, until its result comes or its time is over.
pub struct Connection<Req> {
    server: u32,
    config: Config,
    tables: Tables<Req, Link<Req>>,
    shut: bool,
    failed: Latch,
}

impl<Req: Drop> Drop for Connection<Req> {
    fn drop(self) {
        let Connection {
            server: _,
            config: _,
            tables: _,
            shut: _,
            failed: _,
        } = self;
    }
}

/// The same: what runs a connection and what asks by it are one value here.
pub type Transport<Req> = Connection<Req>;

impl<Req> Model for Connection<Req> {
    ghost use Rattle.client_multi.specs.Links.{Link};
    ghost use Rattle.client_multi.specs.MultiStream.{MultiStream};

    ghost Value = { MultiStream Req (Link Req) };

    ghost view = { λ c. record {
      server = c.server;
      settings = c.config;
      tables = c.tables;
      shut = c.shut;
      failed = c.failed;
    } };
}

impl<Req> Connection<Req> {
    /// A connection with the default settings. It takes no memory.
    pub fn new(alloc: Global, server: u32) -> Result<Connection<Req>, NoMemory>
        ensures { IsOkAnd result (λ c. c ≡ plain.started server default_settings) }
    {
        Connection::with_config(alloc, server, Config::new())
    }

    /// A connection with settings of one's own. It takes no memory.
    pub fn with_config(
        alloc: Global,
        server: u32,
        config: Config,
    ) -> Result<Connection<Req>, NoMemory>
        ensures { IsOkAnd result (λ c. c ≡ plain.started server config) }
    {
        Ok(Connection {
            server,
            config,
            tables: Tables::new(alloc),
            shut: false,
            failed: Latch::new(),
        })
    }

    /// The number that its outs name.
    pub fn server(&self) -> u32
        ensures { result ≡ self.now.server }
    {
        self.server
    }

    /// Whether an earlier call found no memory or no number.
    pub fn has_failed(&self) -> bool
        ensures { result ≡ self.now.failed }
    {
        self.failed.is_set()
    }

    /// Lets each later call answer `Failed`, for what holds it and could not go on.
    pub fn fail(&mut self)
        ensures { self.new ≡ record self.old { failed = true } }
    {
        self.failed.set();
    }

    /// Lets no further request in: each later one gets `ConnectionClosed`, and the earlier ones go on. A
    /// second call changes nothing. It takes no memory, and answers `Failed` only where an earlier call
    /// found no memory or no number.
    pub fn shutdown<W: Words>(&mut self, cx: &mut Cx<'_, W>) -> Result<(), Error>
        ensures lends { LendsTheSame cx.old cx.new }
        ensures sees { view_of W.stream cx.new ≡ view_of W.stream cx.old }
        ensures ok { self.old.failed ≡ false → IsOk result × (self.new ≡ record self.old { shut = true }) }
        ensures failed { self.old.failed ≡ true → (result ≡ Err Error.Failed) × (self.new ≡ self.old) }
    {
        let _ = cx;
        self.failed.check()?;
        self.shut = true;
        Ok(())
    }
}

impl<Req: ComposeRequest> Connection<Req> {
    /// Takes a request on, as `send_request` does. Its result will stand on the board under the
    /// response's ticket: a message, `WrongReplyForQuery` where a message came under its id and is no
    /// answer, `StreamReadTimeout` where its time was over before, or `ConnectionClosed` after `shutdown`.
    pub fn request<W: Words>(&mut self, cx: &mut Cx<'_, W>, request: Req) -> Result<Pending, Error>
        ensures lends { LendsTheSame cx.old cx.new }
        ensures ok { Steps result (plain.plain_send (one_stream Req.requests) request self.old (view_of W.stream cx.old)) (self.new, view_of W.stream cx.new) }
        ensures response { IfOk result (λ r. r ≡ asked cx.old.ticket) }
        ensures numbers { NumbersRunOut result (plain.plain_send (one_stream Req.requests) request self.old (view_of W.stream cx.old)) }
        ensures keeps { OnOk result (self.new.failed ≡ self.old.failed) }
        ensures refused { IfErr result IsRefusal }
        ensures err { OnErr result (self.new.failed ≡ true) }
        ensures failed { self.old.failed ≡ true → AnswersFailed result (self.old, view_of W.stream cx.old) (self.new, view_of W.stream cx.new) }
        ensures failed_only { IsErrOf result Error.Failed → self.old.failed ≡ true }
    {
        self.failed.check()?;
        let taken = take_on(
            &mut self.tables,
            self.server,
            &self.config,
            self.shut,
            cx,
            request,
        );
        let ticket = self.failed.keep(taken)?;
        Ok(Pending::new(ticket))
    }
}

impl<Req: ComposeRequest> SendRequest<Req> for Connection<Req> {
    type Response = Pending;

    ghost has_failed = { λ c. c.failed };

    ghost holds_failed = { λ c. c.failed };

    ghost transport = { plain.transport (one_stream Req.requests) };

    fn send_request<W: Words>(
        &mut self,
        cx: &mut Cx<'_, W>,
        request: Req,
    ) -> Result<Pending, Error> {
        self.request(cx, request)
    }

    fn step<W: Words>(&mut self, cx: &mut Cx<'_, W>, signal: Signal<'_>) -> Result<(), Error> {
        self.failed.check()?;
        let result = hear(&mut self.tables, self.server, &self.config, cx, signal);
        self.failed.keep(result)
    }

    fn cancel<W: Words>(&mut self, cx: &mut Cx<'_, W>, response: Pending) -> Result<(), Error> {
        self.failed.check()?;
        let result = give_up(&mut self.tables, cx, response.ticket());
        self.failed.keep(result)
    }
}
