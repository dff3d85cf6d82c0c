//! A walk of a connection: what each line does, and what is printed of it.

use crate::lent::Lent;
use crate::reading::{event_of, first_word, number, time_of};
use crate::streams::stream::Stream;
use crate::telling::{ask, cancel, go_to, hear};
use crate::transport::Transport;
use client_request::{
    Compose, Error, Event, Moment, Out, Outs, Posted, Row, Rows, Trace, What, WordList,
};
use client_stream::Config;
use dns_script::trace_text;
use std::alloc::Global;
use std::fmt::Write;
use std::mem;

/// A connection, and what is lent to it.
pub struct Walk {
    transport: Transport,
    lent: Lent,
}

impl Drop for Walk {
    fn drop(self) {
        let Walk {
            transport: _,
            lent: _,
        } = self;
    }
}

/// The settings of three times in microseconds.
fn config_of(times: &str) -> Option<Config> {
    let (response, others) = first_word(times);
    let (streaming, idle) = first_word(others);
    let mut config = Config::new();
    config.set_response_timeout(time_of(response)?);
    config.set_streaming_response_timeout(time_of(streaming)?);
    config.set_idle_timeout(time_of(idle)?);
    Some(config)
}

/// Stands for the end of a transfer: no connection puts this error on a board.
const END: Error = Error::AlreadyDone;

/// Puts the results that stand on the board behind what was put out, in the order in which they came.
fn reply(lent: &mut Lent) -> Option<()> {
    for _ in 0..lent.board.len() {
        let Posted { ticket, part, .. } = lent.board.take_first()?;
        let result = match part {
            Ok(Some(message)) => Ok(message),
            Ok(None) => Err(END),
            Err(error) => Err(error),
        };
        let request = ticket;
        lent.outs.push(Out::Reply { request, result }).ok()?;
    }
    Some(())
}

/// Adds what was put out and given by now, as the text of the row of an event.
fn push_row(alloc: Global, lent: &mut Lent, event: Event, text: &mut String) -> Option<()> {
    reply(lent)?;
    let outs = mem::replace(&mut lent.outs, Outs::new(alloc));
    let mut rows = Rows::new(alloc);
    rows.push(Row { event, outs }).ok()?;
    let row = trace_text(alloc, &Trace { rows }).ok()?;
    text.push_str(str::from_utf8(row.as_slice()).ok()?).ok()
}

impl Walk {
    /// A walk whose connection has three times.
    pub fn begun(alloc: Global, times: &str) -> Option<Walk> {
        let stream = Stream::with_config(alloc, config_of(times)?)?;
        Some(Walk {
            transport: Transport::Stream(stream),
            lent: Lent::new(alloc, WordList::new(alloc), 1),
        })
    }

    /// Tells an event, and adds the text of its row.
    fn tell(&mut self, alloc: Global, line: &str, text: &mut String) -> Option<()> {
        let Walk { transport, lent } = self;
        let event = event_of(alloc, line)?;
        go_to(transport, lent, event.moment.0).ok()?;
        match &event.what {
            What::Ask { request } => {
                let request = request.try_clone(alloc).ok()?;
                ask(transport, lent, None, request).ok()?;
            }
            what => hear(transport, lent, what).ok()?,
        }
        push_row(alloc, lent, event, text)
    }

    /// Asks a transfer by `MOMENT BASE`, and adds what that does, as the text of the row of a tick.
    fn transfer(&mut self, alloc: Global, words: &str, text: &mut String) -> Option<()> {
        let Walk { transport, lent } = self;
        let (moment, digits) = first_word(words);
        let moment = Moment(number(moment)?);
        go_to(transport, lent, moment.0).ok()?;
        let Transport::Stream(stream) = transport else {
            return None;
        };
        stream.tell_transfer(alloc, lent, digits)?.ok()?;
        let event = Event {
            moment,
            what: What::Tick,
        };
        push_row(alloc, lent, event, text)
    }

    /// Adds the line of the timer that is due first, and of whether the connection is closed.
    fn push_state(&self, text: &mut String) -> Option<()> {
        let Transport::Stream(stream) = &self.transport else {
            return None;
        };
        let closed = stream.connection.is_closed();
        match self.lent.timers.next_due() {
            None => write!(text, "no timer {closed}\n").ok(),
            Some((due, timer)) => {
                let number = timer.0;
                write!(text, "timer {number} due {due} {closed}\n").ok()
            }
        }
    }

    /// Adds what a line of a walk shows.
    pub fn show(&mut self, alloc: Global, line: &str, text: &mut String) -> Option<()> {
        let (word, rest) = first_word(line);
        match word {
            "at" => self.tell(alloc, line, text)?,
            "transfer" => self.transfer(alloc, rest, text)?,
            "cancel" => cancel(&mut self.transport, &mut self.lent, number(rest)?).ok()?,
            _ => return None,
        }
        self.push_state(text)
    }
}
