//! A server over two transports.

ghost use Rattle.std.specs.Prelude.{◌≡◌, true};
ghost use Rattle.client_multi.specs.Fallback as plain;

use crate::dgram_stream::steps::{give_up, hear, take_on};
use crate::dgram_stream::tables::{Boards, Parts, Tables};
use client_request::{
    ComposeRequest, Cx, Error, GetResponse, Latch, Pending, SendRequest, Signal, Words,
};
use std::alloc::Global;
use std::marker::Model;

/// A server that is asked by `dgram`, and by `stream` where a message of `dgram` is truncated. `server`
/// is the number that its outs name.
pub struct Fallback<Req, D: SendRequest<Req>, S: SendRequest<Req>> {
    alloc: Global,
    server: u32,
    parts: Parts<Req, D, S>,
    /// Where both post during a call.
    boards: Boards,
    failed: Latch,
}

impl<Req: Drop, D: SendRequest<Req> + Drop, S: SendRequest<Req> + Drop> Drop
    for Fallback<Req, D, S> {
    fn drop(self) {
        let Fallback {
            alloc: _,
            server: _,
            parts: _,
            boards: _,
            failed: _,
        } = self;
    }
}

impl<Req, D: SendRequest<Req>, S: SendRequest<Req>> Model for Fallback<Req, D, S> {
    ghost Value = { plain.Fallback Req D S D.Response S.Response };

    ghost view = { λ f. record { server = f.server; parts = f.parts; failed = f.failed } };
}

impl<Req, D: SendRequest<Req>, S: SendRequest<Req>> Fallback<Req, D, S> {
    /// A server over two transports, which name it by the same number. It takes no memory.
    pub fn over(alloc: Global, server: u32, dgram: D, stream: S) -> Fallback<Req, D, S>
        ensures { result ≡ plain.started server dgram stream }
    {
        Fallback {
            alloc,
            server,
            parts: Parts {
                dgram,
                stream,
                tables: Tables::new(alloc),
            },
            boards: Boards::new(alloc),
            failed: Latch::new(),
        }
    }

    /// The number that its outs name.
    pub fn server(&self) -> u32
        ensures { result ≡ self.now.server }
    {
        self.server
    }

    /// Whether an earlier call found no memory or no number.
    pub fn has_failed(&self) -> bool
        ensures { result ≡ self.now.failed }
    {
        self.failed.is_set()
    }

    /// Lets each later call answer `Failed`, for what holds it and could not go on.
    pub fn fail(&mut self)
        ensures { self.new ≡ record self.old { failed = true } }
    {
        self.failed.set();
    }
}

impl<Req: ComposeRequest, D: SendRequest<Req>, S: SendRequest<Req>> SendRequest<Req>
    for Fallback<Req, D, S> {
    type Response = Pending;

    ghost has_failed = { λ f. f.failed };

    ghost holds_failed = { plain.holds_failed D.holds_failed S.holds_failed };

    ghost transport = { plain.transport D.transport S.transport };

    fn send_request<W: Words>(
        &mut self,
        cx: &mut Cx<'_, W>,
        request: Req,
    ) -> Result<Pending, Error> {
        self.failed.check()?;
        let taken = take_on(
            &mut self.parts,
            &mut self.boards,
            self.server,
            self.alloc,
            cx,
            request,
        );
        let ticket = self.failed.keep(taken)?;
        Ok(Pending::new(ticket))
    }

    fn step<W: Words>(&mut self, cx: &mut Cx<'_, W>, signal: Signal<'_>) -> Result<(), Error> {
        self.failed.check()?;
        let result = hear(&mut self.parts, &mut self.boards, self.server, cx, signal);
        self.failed.keep(result)
    }

    fn cancel<W: Words>(&mut self, cx: &mut Cx<'_, W>, response: Pending) -> Result<(), Error> {
        self.failed.check()?;
        let result = give_up(
            &mut self.parts,
            &mut self.boards,
            self.server,
            cx,
            response.ticket(),
        );
        self.failed.keep(result)
    }
}
