//! The transport over one server by datagrams.

ghost use Rattle.std.specs.Prelude.{◌≡◌, true, false, IsOkAnd};
ghost use Rattle.client_dgram.specs.Plain as plain;
ghost use Rattle.client_settings.specs.Dgram.{default_settings};

use crate::steps::{give_up, hear, take_on};
use crate::tables::Tables;
use client_request::{
    ComposeRequest, Cx, Error, GetResponse, Latch, Pending, SendRequest, Signal, Words,
};
use client_settings::dgram::Config;
use dns_base::NoMemory;
use std::alloc::Global;
use std::marker::Model;

/// A server that is asked by datagrams. `server` is the number that its outs name.
#[derive(Debug)]
pub struct Connection<Req> {
    server: u32,
    config: Config,
    tables: Tables<Req>,
    failed: Latch,
}

impl<Req: Drop> Drop for Connection<Req> {
    fn drop(self) {
        let Connection {
            server: _,
            config: _,
            tables: _,
            failed: _,
        } = self;
    }
}

impl<Req> Model for Connection<Req> {
    ghost use Rattle.client_dgram.specs.Plain.{Dgram};

    ghost Value = { Dgram Req };

    ghost view = { λ c. record { server = c.server; settings = c.config; tables = c.tables; failed = c.failed } };
}

impl<Req> Connection<Req> {
    /// A connection with the default settings. It takes no memory.
    pub fn new(alloc: Global, server: u32) -> Result<Connection<Req>, NoMemory>
        ensures { IsOkAnd result (λ c. c ≡ plain.started server default_settings) }
    {
        Connection::with_config(alloc, server, Config::new())
    }

    /// A connection with settings of one's own. It takes no memory.
    pub fn with_config(
        alloc: Global,
        server: u32,
        config: Config,
    ) -> Result<Connection<Req>, NoMemory>
        ensures { IsOkAnd result (λ c. c ≡ plain.started server config) }
    {
        Ok(Connection {
            server,
            config,
            tables: Tables::new(alloc),
            failed: Latch::new(),
        })
    }

    /// The number that its outs name.
    pub fn server(&self) -> u32
        ensures { result ≡ self.now.server }
    {
        self.server
    }

    /// Whether an earlier call found no memory or no number.
    pub fn has_failed(&self) -> bool
        ensures { result ≡ self.now.failed }
    {
        self.failed.is_set()
    }

    /// Lets each later call answer `Failed`, for what holds it and could not go on.
    pub fn fail(&mut self)
        ensures { self.new ≡ record self.old { failed = true } }
    {
        self.failed.set();
    }
}

impl<Req: ComposeRequest> SendRequest<Req> for Connection<Req> {
    type Response = Pending;

    ghost has_failed = { λ c. c.failed };

    ghost holds_failed = { λ c. c.failed };

    ghost transport = { plain.transport Req.requests };

    fn send_request<W: Words>(
        &mut self,
        cx: &mut Cx<'_, W>,
        request: Req,
    ) -> Result<Pending, Error> {
        self.failed.check()?;
        let taken = take_on(&mut self.tables, self.server, &self.config, cx, request);
        let ticket = self.failed.keep(taken)?;
        Ok(Pending::new(ticket))
    }

    fn step<W: Words>(&mut self, cx: &mut Cx<'_, W>, signal: Signal<'_>) -> Result<(), Error> {
        self.failed.check()?;
        let heard = hear(&mut self.tables, self.server, &self.config, cx, signal);
        self.failed.keep(heard)
    }

    fn cancel<W: Words>(&mut self, cx: &mut Cx<'_, W>, response: Pending) -> Result<(), Error> {
        self.failed.check()?;
        let given_up = give_up(&mut self.tables, self.server, cx, response.ticket());
        self.failed.keep(given_up)
    }
}
