//! What a transport is given at each call.

ghost use Rattle.std.specs.Prelude.{◌≡◌, ◌+◌, true, false, IfOk, IfErr, OnOk, OnErr};
ghost use Rattle.client_request.specs.Timers.{can_draw};
ghost use Rattle.client_request.specs.declared.error.Error.TheVariants as errors;

use crate::board::Board;
use crate::error::Error;
use crate::event::{Moment, Outs, What};
use crate::timers::{TimerId, Timers};

/// What a transport is given at a call: the moment, words to draw, and where outs, results and timers
/// go.
///
/// `ticket` and `place` are the next free numbers. `request` is the number that outs for a request
/// name; whoever calls `send_request` sets it. `more` is set by a step where another whole frame stands
/// at the place that it was told of.
#[derive(Drop)]
pub struct Cx<'a, W> {
    /// The moment of the call, in microseconds.
    pub now: Moment,
    /// Where random words are drawn, as message ids.
    pub words: &'a mut W,
    /// Where what is to be done is put out.
    pub outs: &'a mut Outs,
    /// Where results are put, by ticket.
    pub board: &'a mut Board,
    /// Where timers are set and cancelled.
    pub timers: &'a mut Timers,
    /// The next free ticket. They rise from 0; a transport that draws one adds 1.
    pub ticket: u64,
    /// The next free place. They rise from 0; a transport that draws one adds 1.
    pub place: u64,
    /// The number of the request that is asked, for the outs that name it. The caller sets it.
    pub request: u64,
    /// Set by a step at whose place another whole frame stands; the caller steps again, by `More`.
    pub more: bool,
}

impl<'a, W> Cx<'a, W> {
    /// Draws the next ticket. `NumbersUsed` where the one after it would pass the greatest `u64`; then
    /// nothing is changed.
    pub fn draw_ticket(&mut self) -> Result<u64, Error>
        ensures drawn { IfOk result (λ ticket. ticket ≡ self.old.ticket) }
        ensures left { OnOk result (self.new ≡ record self.old { ticket = self.old.ticket + 1 }) }
        ensures draws { OnOk result (can_draw self.old.ticket ≡ true) }
        ensures used { OnErr result (can_draw self.old.ticket ≡ false) }
        ensures numbers { IfErr result (λ e. e ≡ errors.NumbersUsed) }
        ensures err { OnErr result (self.new ≡ self.old) }
    {
        let ticket = self.ticket;
        let Some(next) = ticket.checked_add(1) else {
            return Err(Error::NumbersUsed);
        };
        self.ticket = next;
        Ok(ticket)
    }

    /// Draws the next place. `NumbersUsed` where the one after it would pass the greatest `u64`; then
    /// nothing is changed.
    pub fn draw_place(&mut self) -> Result<u64, Error>
        ensures drawn { IfOk result (λ place. place ≡ self.old.place) }
        ensures left { OnOk result (self.new ≡ record self.old { place = self.old.place + 1 }) }
        ensures draws { OnOk result (can_draw self.old.place ≡ true) }
        ensures used { OnErr result (can_draw self.old.place ≡ false) }
        ensures numbers { IfErr result (λ e. e ≡ errors.NumbersUsed) }
        ensures err { OnErr result (self.new ≡ self.old) }
    {
        let place = self.place;
        let Some(next) = place.checked_add(1) else {
            return Err(Error::NumbersUsed);
        };
        self.place = next;
        Ok(place)
    }
}

/// What a transport hears.
#[derive(Clone, Copy)]
pub enum Signal<'a> {
    /// An event.
    Told(&'a What),
    /// The next frame of a place is to be taken.
    More { place: u64 },
    /// A timer fired.
    Due(TimerId),
}
