//! Calls of a transport below, with a board of its own.

ghost use Rattle.std.specs.Prelude.{◌≡◌, true, false, OnOk, OnErr, IfOk, IfErr, IsErrOf};
ghost use Rattle.client_request.specs.Calls.{HoldsBelow, AnswersFailed};
ghost use Rattle.client_request.specs.Cx.{view_below, heard};

use crate::board::Board;
use crate::cx::{Cx, Signal};
use crate::error::Error;
use crate::response::GetResponse;
use crate::send::SendRequest;
use crate::words::Words;
use std::mem;

/// Hands a request to a transport below. What it posts stands on `board`, and the board of `cx` stays
/// as it was; all else is as `SendRequest::send_request` says.
pub fn send_below<CR, L: SendRequest<CR>, W: Words>(
    layer: &mut L,
    board: &mut Board,
    cx: &mut Cx<'_, W>,
    request: CR,
) -> Result<L::Response, Error>
    ensures holds { HoldsBelow W.stream cx.old cx.new board.old board.new result (L.transport.send request layer.old) layer.new L.holds_failed layer.old layer.new }
    ensures board { cx.new.board.now ≡ cx.old.board.now }
    ensures response { IfOk result (λ r. r ≡ L.transport.response request layer.old (view_below W.stream board.old cx.old)) }
    ensures ticket { IfOk result (λ r. L.Response.ticket_of r ≡ cx.old.ticket) }
    ensures waits { IfOk result (λ r. L.Response.has_given r ≡ false) }
    ensures err { OnErr result (L.has_failed layer.new ≡ true) }
    ensures failed { L.has_failed layer.old ≡ true → AnswersFailed result (layer.old, view_below W.stream board.old cx.old) (layer.new, view_below W.stream board.new cx.new) }
{
    mem::swap(&mut *cx.board, board);
    let result = layer.send_request(cx, request);
    mem::swap(&mut *cx.board, board);
    result
}

/// A transport below hears what happened. What it posts stands on `board`, and the board of `cx` stays
/// as it was; all else is as `SendRequest::step` says.
pub fn step_below<CR, L: SendRequest<CR>, W: Words>(
    layer: &mut L,
    board: &mut Board,
    cx: &mut Cx<'_, W>,
    signal: Signal<'_>,
) -> Result<(), Error>
    ensures holds { HoldsBelow W.stream cx.old cx.new board.old board.new result (L.transport.step (heard signal.entry) layer.old) layer.new L.holds_failed layer.old layer.new }
    ensures board { cx.new.board.now ≡ cx.old.board.now }
    ensures err { OnErr result (L.has_failed layer.new ≡ true) }
    ensures failed { L.has_failed layer.old ≡ true → AnswersFailed result (layer.old, view_below W.stream board.old cx.old) (layer.new, view_below W.stream board.new cx.new) }
{
    mem::swap(&mut *cx.board, board);
    let result = layer.step(cx, signal);
    mem::swap(&mut *cx.board, board);
    result
}

/// A request that was handed to a transport below is given up there. What it posts stands on `board`,
/// and the board of `cx` stays as it was; all else is as `SendRequest::cancel` says.
pub fn cancel_below<CR, L: SendRequest<CR>, W: Words>(
    layer: &mut L,
    board: &mut Board,
    cx: &mut Cx<'_, W>,
    response: L::Response,
) -> Result<(), Error>
    ensures holds { HoldsBelow W.stream cx.old cx.new board.old board.new result (L.transport.cancel response layer.old) layer.new L.holds_failed layer.old layer.new }
    ensures board { cx.new.board.now ≡ cx.old.board.now }
    ensures err { OnErr result (L.has_failed layer.new ≡ true) }
    ensures failed { L.has_failed layer.old ≡ true → AnswersFailed result (layer.old, view_below W.stream board.old cx.old) (layer.new, view_below W.stream board.new cx.new) }
{
    mem::swap(&mut *cx.board, board);
    let result = layer.cancel(cx, response);
    mem::swap(&mut *cx.board, board);
    result
}
