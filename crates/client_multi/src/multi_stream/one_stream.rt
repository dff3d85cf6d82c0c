//! What reconnection asks of a connection by stream.

ghost use Rattle.std.specs.Prelude.{◌≡◌, false, Some, IsOkAnd, IfOk, IfErr};
ghost use Rattle.client_request.specs.Calls.{NumbersRunOut};
ghost use Rattle.client_request.specs.Cx.{view_below, heard, LendsTheSame};
ghost use Rattle.client_request.specs.Timers.{IsWant};
ghost use Rattle.client_stream.specs.Plain as stream;
ghost use Rattle.client_multi.specs.MultiStream.{OneStream as Plain};
ghost use Rattle.client_multi.specs.Links.{one_stream};

use client_request::{
    Board, ComposeRequest, Cx, Error, RequestMessageMulti, Signal, Words, cancel_below, send_below,
    step_below,
};
use dns_base::NoMemory;
use std::alloc::Global;
use std::marker::Model;

/// A connection by stream that never gave up. A call that gives up drops it. What a call posts stands on
/// `board`, and the board of `cx` stays as it was.
pub trait OneStream<Req>: Drop {
    /// What each call leaves, and what is told of it.
    ghost machine: { Plain Req Self };

    /// A connection at a place that was opened. It takes no memory.
    fn open(alloc: Global, place: u64, config: client_stream::Config) -> Result<Self, NoMemory>
        ensures { IsOkAnd result (λ c. c ≡ machine.opened place config) };

    /// Whether it has ended.
    fn is_closed(&self) -> bool
        ensures { result ≡ machine.has_ended self.now };

    /// Whether it has no room for a request.
    fn is_full(&self) -> bool
        ensures { result ≡ machine.is_full self.now };

    /// The number of the timer that it has set, if it has one.
    fn timer(&self) -> Option<u64>
        ensures { result ≡ machine.timer_of self.now };

    /// Takes a request on.
    fn send_request<W: Words>(
        self,
        board: &mut Board,
        cx: &mut Cx<'_, W>,
        request: Req,
    ) -> Result<(Self, client_stream::Request), Error>
        ensures lends { LendsTheSame cx.old cx.new }
        ensures board { cx.new.board.now ≡ cx.old.board.now }
        ensures ok { IfOk result (λ x. machine.calls.send request self (view_below W.stream board.old cx.old) ≡ Some (x.0, view_below W.stream board.new cx.new)) }
        ensures response { IfOk result (λ x. x.1 ≡ stream.asked cx.old.ticket) }
        ensures numbers { NumbersRunOut result (machine.calls.send request self (view_below W.stream board.old cx.old)) }
        ensures want { IfErr result IsWant };

    /// Hears what happened.
    fn step<W: Words>(
        self,
        board: &mut Board,
        cx: &mut Cx<'_, W>,
        signal: Signal<'_>,
    ) -> Result<Self, Error>
        ensures lends { LendsTheSame cx.old cx.new }
        ensures board { cx.new.board.now ≡ cx.old.board.now }
        ensures ok { IfOk result (λ c. machine.calls.step (heard signal.entry) self (view_below W.stream board.old cx.old) ≡ Some (c, view_below W.stream board.new cx.new)) }
        ensures numbers { NumbersRunOut result (machine.calls.step (heard signal.entry) self (view_below W.stream board.old cx.old)) }
        ensures want { IfErr result IsWant };

    /// Gives a request up.
    fn cancel<W: Words>(
        self,
        board: &mut Board,
        cx: &mut Cx<'_, W>,
        response: client_stream::Request,
    ) -> Result<Self, Error>
        ensures lends { LendsTheSame cx.old cx.new }
        ensures board { cx.new.board.now ≡ cx.old.board.now }
        ensures ok { IfOk result (λ c. machine.calls.cancel response self (view_below W.stream board.old cx.old) ≡ Some (c, view_below W.stream board.new cx.new)) }
        ensures numbers { NumbersRunOut result (machine.calls.cancel response self (view_below W.stream board.old cx.old)) }
        ensures want { IfErr result IsWant };
}

/// A stream connection that never gave up, for requests that one message answers: no transfer goes by it.
#[derive(Drop)]
pub struct Link<Req> {
    connection: client_stream::Connection<Req, RequestMessageMulti>,
}

impl<Req> Model for Link<Req> {
    ghost use Rattle.std.specs.Prelude.{◌≡◌, false};
    ghost use Rattle.client_multi.specs.Links as links;

    ghost Value = { links.Link Req };

    ghost view = { λ l. l.connection };

    ghost invariant = { λ l. l.connection.failed ≡ false };
}

impl<Req: ComposeRequest> OneStream<Req> for Link<Req> {
    ghost machine = { one_stream Req.requests };

    fn open(
        alloc: Global,
        place: u64,
        config: client_stream::Config,
    ) -> Result<Link<Req>, NoMemory> {
        let connection = client_stream::Connection::with_config(alloc, place, config)?;
        Ok(Link { connection })
    }

    fn is_closed(&self) -> bool {
        self.connection.is_closed()
    }

    fn is_full(&self) -> bool {
        self.connection.is_full()
    }

    fn timer(&self) -> Option<u64> {
        self.connection.timer()
    }

    fn send_request<W: Words>(
        self,
        board: &mut Board,
        cx: &mut Cx<'_, W>,
        request: Req,
    ) -> Result<(Link<Req>, client_stream::Request), Error> {
        let Link { mut connection } = self;
        let response = send_below(&mut connection, board, cx, request)?;
        Ok((Link { connection }, response))
    }

    fn step<W: Words>(
        self,
        board: &mut Board,
        cx: &mut Cx<'_, W>,
        signal: Signal<'_>,
    ) -> Result<Link<Req>, Error> {
        let Link { mut connection } = self;
        step_below(&mut connection, board, cx, signal)?;
        Ok(Link { connection })
    }

    fn cancel<W: Words>(
        self,
        board: &mut Board,
        cx: &mut Cx<'_, W>,
        response: client_stream::Request,
    ) -> Result<Link<Req>, Error> {
        let Link { mut connection } = self;
        cancel_below(&mut connection, board, cx, response)?;
        Ok(Link { connection })
    }
}
