//! A stream connection whose results stand on a board of its own.

ghost use Rattle.std.specs.Prelude.{◌≡◌, true, OnErr, IfOk};
ghost use Rattle.client_request.specs.Calls.{HoldsBelow};
ghost use Rattle.client_stream.specs.Plain.{begun, has_failed, plain_send};
ghost use Rattle.client_stream.specs.declared.request.AnyRequest.TheVariants.{Transfer};
ghost use Rattle.client_request.specs.Requests.{for_one, for_several};
ghost use Rattle.stream_turns.specs.Apart as plain;

use client_request::{
    Board, Cx, Error, Pending, RequestMessage, RequestMessageMulti, SendRequest, Signal, Words,
    cancel_below, send_below, step_below,
};
use client_steps::ServesStale;
use client_stream::{Connection, RequestMulti};
use dns_base::Message;
use std::mem;

/// A stream connection that takes requests and transfers.
pub type Line = Connection<RequestMessage, RequestMessageMulti>;

/// A stream connection, and the results of what was handed to it.
#[derive(Drop)]
pub struct Apart {
    pub(crate) line: Line,
    pub(crate) board: Board,
}

impl Apart {
    /// Takes a transfer on.
    pub(crate) fn begin<W: Words>(
        &mut self,
        cx: &mut Cx<'_, W>,
        request: RequestMessageMulti,
    ) -> Result<RequestMulti, Error>
        ensures holds { HoldsBelow W.stream cx.old cx.new self.old.board self.new.board result (plain_send for_one for_several (Transfer request) self.old.line) self.new.line has_failed self.old.line self.new.line }
        ensures board { cx.new.board.now ≡ cx.old.board.now }
        ensures response { IfOk result (λ r. r ≡ begun cx.old.ticket) }
        ensures err { OnErr result (self.new.line.failed ≡ true) }
    {
        mem::swap(&mut *cx.board, &mut self.board);
        let result = self.line.get_streaming_request(cx, request);
        mem::swap(&mut *cx.board, &mut self.board);
        result
    }
}

impl SendRequest<RequestMessage> for Apart {
    type Response = Pending;

    ghost has_failed = { plain.holds_failed };

    ghost holds_failed = { plain.holds_failed };

    ghost transport = { plain.transport };

    #[tactic(auto, using(crate::proofs::OwnBoard::leaves, crate::proofs::OwnBoard::leaves_none))]
    fn send_request<W: Words>(
        &mut self,
        cx: &mut Cx<'_, W>,
        request: RequestMessage,
    ) -> Result<Pending, Error> {
        send_below(&mut self.line, &mut self.board, cx, request)
    }

    #[tactic(auto, using(crate::proofs::OwnBoard::leaves, crate::proofs::OwnBoard::leaves_none))]
    fn step<W: Words>(&mut self, cx: &mut Cx<'_, W>, signal: Signal<'_>) -> Result<(), Error> {
        step_below::<RequestMessage, Line, W>(&mut self.line, &mut self.board, cx, signal)
    }

    #[tactic(auto, using(crate::proofs::OwnBoard::leaves, crate::proofs::OwnBoard::leaves_none))]
    fn cancel<W: Words>(&mut self, cx: &mut Cx<'_, W>, response: Pending) -> Result<(), Error> {
        cancel_below::<RequestMessage, Line, W>(&mut self.line, &mut self.board, cx, response)
    }
}

impl ServesStale for Apart {
    ghost stale = { plain.stale };

    /// None: a connection keeps no message that could stand in.
    fn stand_in<W: Words>(
        &mut self,
        _cx: &mut Cx<'_, W>,
        _response: &Pending,
    ) -> Result<Option<Message>, Error> {
        Ok(None)
    }
}
