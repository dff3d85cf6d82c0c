//! A transfer on a stream connection of its own.

ghost use Rattle.std.specs.Prelude.{◌≡◌, true, false, Some, IsOkAnd, OnErr, OnOk, IfOk, IfErr, IsErrOf};
ghost use Rattle.client_request.specs.Calls.{NumbersRunOut};
ghost use Rattle.client_request.specs.Response.{IsRefusal, board_after, ended_after, part_response_of};
ghost use Rattle.client_stream.specs.Plain.{begun};
ghost use Rattle.client_steps.specs.Client.{client_step};
ghost use Rattle.client_steps.specs.Machines.{ClientHolds};
ghost use Rattle.client_core.specs.Waiting.{time_left, first_due};
ghost use Rattle.stream_turns.specs.Apart.{holds_failed};
ghost use Rattle.stream_turns.specs.Turns as plain;

use crate::apart::{Apart, Line};
use client_request::{
    Board, Cx, Error, Event, GetResponseMulti, Moment, Outs, Part, Pending, Poll,
    RequestMessageMulti, Row, Timers, Words,
};
use client_steps::{Asked, take_in};
use client_stream::RequestMulti;
use dns_base::{Duration, NoMemory};
use std::alloc::Global;
use std::marker::Model;

/// A stream connection at a place that was opened, on which transfers are asked and nothing else.
#[derive(Drop)]
pub struct Transfer {
    alloc: Global,
    layer: Apart,
    /// No request is asked, so none waits.
    asked: Asked<Pending>,
    board: Board,
    timers: Timers,
    now: Moment,
    ticket: u64,
    place: u64,
    failed: bool,
}

impl Model for Transfer {
    ghost use Rattle.std.specs.Prelude.{◌≡◌, false};
    ghost use Rattle.stream_turns.specs.Turns as plain;

    ghost Value = { plain.Held };

    ghost view = { λ t. record {
      layer = t.layer;
      asked = t.asked;
      board = t.board;
      timers = t.timers;
      now = t.now.0;
      ticket = t.ticket;
      place = t.place;
      failed = t.failed;
    } };

    ghost invariant = { λ t. t.failed ≡ false → t.layer.line.failed ≡ false };
}

/// A step over this very connection.
fn take_event<W: Words>(
    layer: &mut Apart,
    asked: &mut Asked<Pending>,
    cx: &mut Cx<'_, W>,
    alloc: Global,
    event: &Event,
) -> Result<(), Error>
    ensures holds { ClientHolds W.stream cx.old cx.new result (client_step plain.machine 0 event.now) holds_failed (layer.old, asked.old) (layer.new, asked.new) }
{
    take_in(layer, asked, cx, alloc, Duration::ZERO, event)
}

/// The time from a moment until another one is due: 0 where that is past, and as long as may be where nothing is due.
fn time_left(now: Moment, due: Option<u128>) -> u128
    ensures { result ≡ time_left now.0 due }
{
    match due {
        Some(due) => due.saturating_sub(u128::from(now.0)),
        None => u128::MAX,
    }
}

impl Transfer {
    /// A connection at a place that is open at this moment, with the default settings. It takes no memory.
    pub fn new(alloc: Global, place: u64, opened: Moment) -> Result<Transfer, NoMemory>
        ensures { IsOkAnd result (λ t. t ≡ plain.started place opened.0) }
    {
        let line = Line::new(alloc, place)?;
        let layer = Apart {
            line,
            board: Board::new(alloc),
        };
        Ok(Transfer {
            alloc,
            layer,
            asked: Asked::new(alloc),
            board: Board::new(alloc),
            timers: Timers::new(alloc),
            now: opened,
            ticket: 0,
            place: 0,
            failed: false,
        })
    }

    /// Asks for a transfer: what stands for its results, and what is to be done.
    ///
    /// `NoMemory`, or `NumbersUsed` where a number would pass the greatest `u64`; after either each further call answers `Failed`.
    pub fn begin<W: Words>(
        &mut self,
        words: &mut W,
        request: RequestMessageMulti,
    ) -> Result<(RequestMulti, Outs), Error>
        ensures begun { IfOk result (λ x. plain.begins (W.stream words.old) request self.old ≡ Some (x.1, plain.client_with (W.stream words.new) self.new)) }
        ensures response { IfOk result (λ x. x.0 ≡ begun self.old.ticket) }
        ensures lasts { OnOk result (self.new.failed ≡ false) }
        ensures numbers { NumbersRunOut result (plain.begins (W.stream words.old) request self.old) }
        ensures refused { IfErr result IsRefusal }
        ensures err { OnErr result (self.new.failed ≡ true) }
        ensures failed_only { IsErrOf result Error.Failed → self.old.failed ≡ true }
    {
        if self.failed {
            return Err(Error::Failed);
        }
        let mut outs = Outs::new(self.alloc);
        let mut cx = Cx {
            now: self.now,
            words,
            outs: &mut outs,
            board: &mut self.board,
            timers: &mut self.timers,
            ticket: self.ticket,
            place: self.place,
            request: 0,
            more: false,
        };
        let result = self.layer.begin(&mut cx, request);
        let (now, ticket, place) = (cx.now, cx.ticket, cx.place);
        self.now = now;
        self.ticket = ticket;
        self.place = place;
        match result {
            Ok(response) => Ok((response, outs)),
            Err(error) => {
                self.failed = true;
                Err(error)
            }
        }
    }

    /// Takes an event in: timers that are due fire, then it happens, and timers that are due fire again. Several messages that
    /// come at once are taken one by one, and timers that are due fire before each.
    ///
    /// `NoMemory`, or `NumbersUsed` where a number would pass the greatest `u64`; after either each further call answers `Failed`.
    pub fn step<W: Words>(&mut self, words: &mut W, event: Event) -> Result<Row, Error>
        ensures row { IfOk result (λ row. plain.steps (W.stream words.old) event self.old ≡ Some (row, plain.client_with (W.stream words.new) self.new)) }
        ensures lasts { OnOk result (self.new.failed ≡ false) }
        ensures numbers { NumbersRunOut result (plain.steps (W.stream words.old) event self.old) }
        ensures refused { IfErr result IsRefusal }
        ensures err { OnErr result (self.new.failed ≡ true) }
        ensures failed_only { IsErrOf result Error.Failed → self.old.failed ≡ true }
    {
        if self.failed {
            return Err(Error::Failed);
        }
        let alloc = self.alloc;
        let mut outs = Outs::new(alloc);
        let mut cx = Cx {
            now: self.now,
            words,
            outs: &mut outs,
            board: &mut self.board,
            timers: &mut self.timers,
            ticket: self.ticket,
            place: self.place,
            request: 0,
            more: false,
        };
        let result = take_event(&mut self.layer, &mut self.asked, &mut cx, alloc, &event);
        let (now, ticket, place) = (cx.now, cx.ticket, cx.place);
        self.now = now;
        self.ticket = ticket;
        self.place = place;
        match result {
            Ok(()) => Ok(Row { event, outs }),
            Err(error) => {
                self.failed = true;
                Err(error)
            }
        }
    }

    /// The oldest result of a transfer that stands, which is then taken. It takes no memory.
    pub fn next_part(&mut self, response: &mut RequestMulti) -> Poll<Part>
        ensures value { result ≡ part_response_of response.old.ended response.old.ticket (plain.results_of self.old) }
        ensures taken { self.new ≡ plain.with_board (board_after response.old.ended response.old.ticket (plain.results_of self.old)) self.old }
        ensures ended { response.new.ended ≡ ended_after response.old.ended result }
        ensures ticket { response.new.ticket ≡ response.old.ticket }
    {
        response.get_response(&mut self.layer.board)
    }

    /// How long whoever holds it may wait for something to happen, in microseconds from the moment of its last event on: until its
    /// timer is due, or the greatest `u128` where none is set. It takes no memory.
    pub fn may_wait(&self) -> u128
        ensures { result ≡ time_left self.entry.now.now (first_due self.entry.now.timers.set) }
    {
        match self.timers.next_due() {
            Some((due, _)) => time_left(self.now, Some(due)),
            None => time_left(self.now, None),
        }
    }
}
