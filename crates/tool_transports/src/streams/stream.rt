//! One connection by stream.
//!
//! `walk RESPONSE STREAMING IDLE`, three times in microseconds, begins anew with a connection at place 0. Behind it
//! `at 5 bytes 0 00` is an event as in a trace, `transfer MOMENT BASE` asks a transfer of what a message asks, and
//! `cancel TICKET` gives a request up. Of an event the trace of its row is printed, with the results as replies, the end of
//! a transfer as `AlreadyDone`, and of a transfer that row of a tick; and behind each line the timer that is due first, and
//! whether the connection is closed.
//!
//! `go WHAT, ..` begins with a connection of its own, at place 0, and prints what comes of what happens. Beside what each
//! transport is told it knows `response`, `streaming` and `idle` with a time in microseconds, before anything happened;
//! `settings`, which says the three; `transfer BASE` and `transfer BASE SIZE`, which ask a transfer of what a message asks,
//! with a payload size; `full`, which says whether all ids are held; and `by-traits`, from which on the connection is
//! called as a transport, also of transfers.
//!
//! `frames SIZE OCTETS` prints the frames of octets that come in pieces, and whether the rest ends within a frame;
//! `within OCTETS` prints that of octets of which no frame was taken. `ids WHAT, ..` prints what a table of ids answers:
//! `put ITEM ..` the ids, `take ID ..` the items, `back ID` the item that is put back, `slots` and `drain` all items,
//! `count`, `empty`, `next`, and `fill COUNT` how many items get their number for id, and how many are refused.

pub mod frames;
pub mod ids;
mod transfers;
pub mod walk;

use crate::lent::{Lent, Response};
use crate::reading::{first_word, message_of, time_of};
use crate::saying::{say_outcome, say_value};
use client_request::{
    Compose, Cx, Error, GetResponseMulti, ListWords, Pending, RequestMessage, RequestMessageMulti,
    SendRequest, Signal,
};
use client_stream::{Config, Connection, RequestMulti};
use std::alloc::Global;
use transfers::{send_transfer, step_transfers};

pub type Connected = Connection<RequestMessage, RequestMessageMulti>;

/// A connection at place 0.
pub struct Stream {
    pub connection: Connected,
    config: Config,
    /// Whether it is called by its traits, and hears signals as a transport of transfers; that makes no difference.
    by_traits: bool,
}

impl Drop for Stream {
    fn drop(self) {
        let Stream {
            connection: _,
            config: _,
            by_traits: _,
        } = self;
    }
}

/// Says the three times in microseconds.
fn say_settings(config: &Config, said: &mut String) -> Option<()> {
    say_value(said, &config.response_timeout().as_micros())?;
    say_value(said, &config.streaming_response_timeout().as_micros())?;
    say_value(said, &config.idle_timeout().as_micros())
}

impl Stream {
    pub fn with_config(alloc: Global, config: Config) -> Option<Stream> {
        let connection = Connection::with_config(alloc, 0, config).ok()?;
        Some(Stream {
            connection,
            config,
            by_traits: false,
        })
    }

    pub fn hear(&mut self, cx: &mut Cx<'_, ListWords>, signal: Signal<'_>) -> Result<(), Error> {
        if self.by_traits {
            step_transfers(&mut self.connection, cx, signal)
        } else {
            self.connection.step(cx, signal)
        }
    }

    pub fn send(
        &mut self,
        cx: &mut Cx<'_, ListWords>,
        request: RequestMessage,
    ) -> Result<Pending, Error> {
        if self.by_traits {
            self.connection.send_request(cx, request)
        } else {
            self.connection.get_request(cx, request)
        }
    }

    pub fn cancel_transfer(
        &mut self,
        cx: &mut Cx<'_, ListWords>,
        response: RequestMulti,
    ) -> Result<(), Error> {
        transfers::cancel_transfer(&mut self.connection, cx, response)
    }

    /// Asks a transfer.
    fn transfer(&mut self, lent: &mut Lent, request: RequestMessageMulti) -> Result<(), Error> {
        let mut cx = lent.cx();
        let sent = if self.by_traits {
            send_transfer(&mut self.connection, &mut cx, request)
        } else {
            self.connection.get_streaming_request(&mut cx, request)
        };
        let ticket = cx.ticket;
        lent.ticket = ticket;
        match sent {
            Ok(response) => lent.keep(response.ticket(), Some(Response::Transfer(response))),
            Err(error) => Err(error),
        }
    }

    /// Asks a transfer of what a message asks, with a payload size if one stands behind it.
    pub fn tell_transfer(
        &mut self,
        alloc: Global,
        lent: &mut Lent,
        words: &str,
    ) -> Option<Result<(), Error>> {
        let (digits, size) = first_word(words);
        let message = message_of(alloc, digits)?;
        match RequestMessageMulti::new(alloc, message) {
            Ok(mut request) => {
                if let Ok(size) = size.parse::<u16>() {
                    request.set_udp_payload_size(size);
                }
                Some(self.transfer(lent, request))
            }
            Err(error) => Some(Err(error)),
        }
    }

    /// Sets a time in microseconds before anything happened, and tells whether the word is one for it.
    fn set(&mut self, alloc: Global, word: &str, micros: &str) -> Option<bool> {
        match word {
            "response" => self.config.set_response_timeout(time_of(micros)?),
            "streaming" => self.config.set_streaming_response_timeout(time_of(micros)?),
            "idle" => self.config.set_idle_timeout(time_of(micros)?),
            _ => return Some(false),
        }
        self.connection = Connection::with_config(alloc, 0, self.config).ok()?;
        Some(true)
    }

    /// Does what a word of its own says, and tells whether it is one.
    pub fn tell(
        &mut self,
        alloc: Global,
        lent: &mut Lent,
        words: &str,
        said: &mut String,
    ) -> Option<bool> {
        let (word, rest) = first_word(words);
        match word {
            "transfer" => say_outcome(said, self.tell_transfer(alloc, lent, rest)?)?,
            "by-traits" => self.by_traits = true,
            "full" => say_value(said, &self.connection.is_full())?,
            "settings" => say_settings(&self.config.try_clone().ok()?, said)?,
            _ => return self.set(alloc, word, rest),
        }
        Some(true)
    }
}
