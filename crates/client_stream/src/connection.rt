//! One connection to a server by stream, with the octets that come on it.

ghost use Rattle.std.specs.Prelude.{◌≡◌, ◌==◌, true, false, length, IsOkAnd, OnErr, IfOk};
ghost use Rattle.client_request.specs.Calls.{Follows, Holds, AnswersFailed};
ghost use Rattle.client_request.specs.Cx.{view_of, heard};
ghost use Rattle.client_request.specs.Response.{response_of, IsRefusal};
ghost use Rattle.client_stream.specs.Plain as plain;
ghost use Rattle.client_stream.specs.declared.request.AnyRequest.TheVariants as any;
ghost use Rattle.client_settings.specs.Stream.{default_settings};

use crate::framer::Framer;
use crate::hearing::hear_frame;
use crate::line::{Line, end_by_timer, end_with, give_up};
use crate::request::{AnyRequest, RequestMulti};
use crate::writing::{take_on, wrote};
use client_request::{
    ComposeRequest, ComposeRequestMulti, Cx, Error, Fault, GetResponse, GetResponseMulti, Latch,
    Pending, SendRequest, SendRequestMulti, Signal, What, Words,
};
use client_settings::stream::Config;
use dns_base::NoMemory;
use std::alloc::Global;
use std::marker::Model;

/// How many ids may be held at a time.
const MAX_HELD: usize = 32768;

/// A connection to a server at a place that was opened. Requests are written one behind the other, each
/// under an id of its own, and answers come in any order. Once it has ended each request that is taken on
/// gets `ConnectionClosed`.
pub struct Connection<Req, ReqMulti> {
    alloc: Global,
    place: u64,
    config: Config,
    line: Line<Req, ReqMulti>,
    /// The octets that no frame has taken.
    framer: Framer,
    failed: Latch,
}

impl<Req: Drop, ReqMulti: Drop> Drop for Connection<Req, ReqMulti> {
    fn drop(self) {
        let Connection {
            alloc: _,
            place: _,
            config: _,
            line: _,
            framer: _,
            failed: _,
        } = self;
    }
}

/// Another name of `Connection`: what runs a connection and what asks by it are one value here.
pub type Transport<Req, ReqMulti> = Connection<Req, ReqMulti>;

impl<Req, ReqMulti> Model for Connection<Req, ReqMulti> {
    ghost use Rattle.client_stream.specs.Plain.{Stream};

    ghost Value = { Stream Req ReqMulti };

    ghost view = { λ c. record {
      place = c.place;
      settings = c.config;
      line = c.line;
      octets = c.framer;
      failed = c.failed;
    } };
}

/// Whether an event is of a stream place with this number.
fn is_at(place: u64, what: &What) -> bool
    ensures { result ≡ plain.is_at place what.now }
{
    match what {
        What::Bytes { place: at, .. }
        | What::Wrote { place: at, .. }
        | What::WriteFailed { place: at, .. }
        | What::ReadFailed { place: at, .. }
        | What::Ended { place: at } => place == *at,
        _ => false,
    }
}

impl<Req: Drop, ReqMulti: Drop> Connection<Req, ReqMulti> {
    /// A connection at a place, with the default settings. It takes no memory.
    pub fn new(alloc: Global, place: u64) -> Result<Connection<Req, ReqMulti>, NoMemory>
        ensures { IsOkAnd result (λ c. c ≡ plain.started place default_settings) }
    {
        Connection::with_config(alloc, place, Config::new())
    }

    /// A connection with settings of one's own. It takes no memory.
    pub fn with_config(
        alloc: Global,
        place: u64,
        config: Config,
    ) -> Result<Connection<Req, ReqMulti>, NoMemory>
        ensures { IsOkAnd result (λ c. c ≡ plain.started place config) }
    {
        Ok(Connection {
            alloc,
            place,
            config,
            line: Line::new(alloc, &config),
            framer: Framer::new(alloc),
            failed: Latch::new(),
        })
    }

    /// The place that its outs name.
    pub fn place(&self) -> u64
        ensures { result ≡ self.now.place }
    {
        self.place
    }

    /// Whether the connection has ended.
    pub fn is_closed(&self) -> bool
        ensures { result ≡ plain.has_ended self.now.line.stage }
    {
        self.line.has_ended()
    }

    /// Whether 32768 ids are held, so that no request gets one.
    pub fn is_full(&self) -> bool
        ensures { result ≡ (length self.now.line.held.held == 32768) }
    {
        self.line.count() == MAX_HELD
    }

    /// The number of the timer that ends the connection once it is due, if one is set. It takes no memory.
    pub fn timer(&self) -> Option<u64>
        ensures { result ≡ plain.timer_at self.now.line.stage }
    {
        self.line.timer()
    }

    /// Whether an earlier call found no memory or no number.
    pub fn has_failed(&self) -> bool
        ensures { result ≡ self.now.failed }
    {
        self.failed.is_set()
    }

    /// Lets each later call answer `Failed`, for what holds it and could not go on.
    pub fn fail(&mut self)
        ensures { self.new ≡ record self.old { failed = true } }
    {
        self.failed.set();
    }

    /// The octets of a connection that has ended are dropped.
    fn drop_octets(&mut self)
        ensures { self.new ≡ record self.old { octets = plain.octets_left self.old.line.stage self.old.octets } }
    {
        if self.line.has_ended() {
            self.framer = Framer::new(self.alloc);
        }
    }
}

impl<Req: ComposeRequest, ReqMulti: ComposeRequestMulti> Connection<Req, ReqMulti> {
    /// Takes a request on, as `send_request` does. Its result will stand on the board under the
    /// response's ticket.
    pub fn get_request<W: Words>(
        &mut self,
        cx: &mut Cx<'_, W>,
        request: Req,
    ) -> Result<Pending, Error>
        ensures holds { Holds W.stream cx.old cx.new result (plain.plain_send Req.requests ReqMulti.requests (any.Single request) self.old) self.new plain.has_failed self.old self.new }
        ensures response { IfOk result (λ r. r ≡ plain.asked cx.old.ticket) }
        ensures err { OnErr result (self.new.failed ≡ true) }
        ensures failed { self.old.failed ≡ true → AnswersFailed result (self.old, view_of W.stream cx.old) (self.new, view_of W.stream cx.new) }
    {
        self.failed.check()?;
        let request = AnyRequest::Single(request);
        let taken = take_on(&mut self.line, self.place, &self.config, cx, request);
        let ticket = self.failed.keep(taken)?;
        Ok(Pending::new(ticket))
    }

    /// Takes a transfer on, as `SendRequestMulti::send_request` does. Its results will stand on the board
    /// under the response's ticket: messages, then None. `WrongReplyForQuery` is no end. `FormError` where
    /// the request asks for no zone and no changes, and `MessageParseError` where its one question can't be
    /// read; the errors of a single request end it too.
    pub fn get_streaming_request<W: Words>(
        &mut self,
        cx: &mut Cx<'_, W>,
        request: ReqMulti,
    ) -> Result<RequestMulti, Error>
        ensures holds { Holds W.stream cx.old cx.new result (plain.plain_send Req.requests ReqMulti.requests (any.Transfer request) self.old) self.new plain.has_failed self.old self.new }
        ensures response { IfOk result (λ r. r ≡ plain.begun cx.old.ticket) }
        ensures err { OnErr result (self.new.failed ≡ true) }
        ensures failed { self.old.failed ≡ true → AnswersFailed result (self.old, view_of W.stream cx.old) (self.new, view_of W.stream cx.new) }
    {
        self.failed.check()?;
        let request = AnyRequest::Transfer(request);
        let taken = take_on(&mut self.line, self.place, &self.config, cx, request);
        let ticket = self.failed.keep(taken)?;
        Ok(RequestMulti::of(ticket))
    }

    /// Takes the first frame, if it is whole.
    fn take_frame<W: Words>(&mut self, cx: &mut Cx<'_, W>) -> Result<(), Error>
        ensures follows { Follows W.stream cx.old cx.new result (plain.frame_taken Req.requests ReqMulti.requests self.old) self.new }
        ensures keeps { self.new.failed ≡ self.old.failed }
    {
        let Some(frame) = self.framer.next_frame()? else {
            return Ok(());
        };
        hear_frame(&mut self.line, self.place, cx, frame)?;
        self.drop_octets();
        Ok(())
    }

    /// Takes the first frame, and says whether another whole one stands.
    fn read_frame<W: Words>(&mut self, cx: &mut Cx<'_, W>) -> Result<(), Error>
        ensures follows { Follows W.stream cx.old cx.new result (plain.reads Req.requests ReqMulti.requests self.old) self.new }
        ensures keeps { self.new.failed ≡ self.old.failed }
    {
        self.take_frame(cx)?;
        if self.framer.has_frame() {
            cx.more = true;
        }
        Ok(())
    }

    /// Ends the connection.
    fn close<W: Words>(&mut self, cx: &mut Cx<'_, W>, error: Error) -> Result<(), Error>
        ensures follows { Follows W.stream cx.old cx.new result (plain.closes error self.old) self.new }
        ensures keeps { self.new.failed ≡ self.old.failed }
    {
        end_with(&mut self.line, self.place, cx, error)?;
        self.drop_octets();
        Ok(())
    }

    /// Hears an event at its own place.
    fn hear_event<W: Words>(&mut self, cx: &mut Cx<'_, W>, what: &What) -> Result<(), Error>
        ensures follows { Follows W.stream cx.old cx.new result (plain.tells Req.requests ReqMulti.requests what.now self.old) self.new }
        ensures keeps { self.new.failed ≡ self.old.failed }
    {
        match what {
            What::Bytes { octets, .. } => {
                self.framer.feed(octets.as_slice())?;
                self.read_frame(cx)
            }
            What::Wrote { count, .. } => {
                wrote(&mut self.line, self.place, &self.config, cx, *count)?;
                self.drop_octets();
                Ok(())
            }
            What::WriteFailed { fault, .. } => self.close(cx, Error::StreamWriteError(*fault)),
            What::ReadFailed { fault, .. } => self.close(cx, Error::StreamReadError(*fault)),
            What::Ended { .. } => {
                let error = self.end_error();
                self.close(cx, error)
            }
            _ => Ok(()),
        }
    }

    /// Why the connection ends where its server ended it.
    fn end_error(&self) -> Error
        ensures { result ≡ plain.end_error self.now.octets }
    {
        if self.framer.in_body() {
            Error::StreamUnexpectedEndOfData
        } else {
            Error::StreamReadError(Fault::EndOfData)
        }
    }

    /// Hears a signal, unless the connection has ended.
    fn hear_signal<W: Words>(&mut self, cx: &mut Cx<'_, W>, signal: Signal<'_>) -> Result<(), Error>
        ensures follows { Follows W.stream cx.old cx.new result (plain.plain_step Req.requests ReqMulti.requests (heard signal.entry) self.old) self.new }
        ensures keeps { self.new.failed ≡ self.old.failed }
    {
        if self.line.has_ended() {
            return Ok(());
        }
        match signal {
            Signal::Told(what) => {
                if is_at(self.place, what) {
                    self.hear_event(cx, what)
                } else {
                    Ok(())
                }
            }
            Signal::More { place } => {
                if self.place == place {
                    self.read_frame(cx)
                } else {
                    Ok(())
                }
            }
            Signal::Due(timer) => {
                end_by_timer(&mut self.line, self.place, cx, timer.0)?;
                self.drop_octets();
                Ok(())
            }
        }
    }
}

impl<Req: ComposeRequest, ReqMulti: ComposeRequestMulti> SendRequest<Req>
    for Connection<Req, ReqMulti> {
    type Response = Pending;

    ghost has_failed = { λ c. c.failed };

    ghost holds_failed = { λ c. c.failed };

    ghost transport = { plain.transport Req.requests ReqMulti.requests };

    fn send_request<W: Words>(
        &mut self,
        cx: &mut Cx<'_, W>,
        request: Req,
    ) -> Result<Pending, Error> {
        self.get_request(cx, request)
    }

    fn step<W: Words>(&mut self, cx: &mut Cx<'_, W>, signal: Signal<'_>) -> Result<(), Error> {
        self.failed.check()?;
        let heard = self.hear_signal(cx, signal);
        self.failed.keep(heard)
    }

    fn cancel<W: Words>(&mut self, cx: &mut Cx<'_, W>, response: Pending) -> Result<(), Error> {
        self.failed.check()?;
        give_up(&mut self.line, response.ticket());
        Ok(())
    }
}

impl<Req: ComposeRequest, ReqMulti: ComposeRequestMulti> SendRequestMulti<ReqMulti>
    for Connection<Req, ReqMulti> {
    type Response = RequestMulti;

    ghost has_failed = { λ c. c.failed };

    ghost holds_failed = { λ c. c.failed };

    ghost transport = { plain.transfers Req.requests ReqMulti.requests };

    fn send_request<W: Words>(
        &mut self,
        cx: &mut Cx<'_, W>,
        request: ReqMulti,
    ) -> Result<RequestMulti, Error> {
        self.get_streaming_request(cx, request)
    }

    fn step<W: Words>(&mut self, cx: &mut Cx<'_, W>, signal: Signal<'_>) -> Result<(), Error> {
        SendRequest::step(self, cx, signal)
    }

    fn cancel<W: Words>(
        &mut self,
        cx: &mut Cx<'_, W>,
        response: RequestMulti,
    ) -> Result<(), Error> {
        self.failed.check()?;
        give_up(&mut self.line, response.ticket());
        Ok(())
    }
}
