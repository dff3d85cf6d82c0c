//! A server that is asked by streams, one after another.
//!
//! `go WHAT, ..` begins with a server of its own, number 3, and prints what comes of what happens. Beside what each
//! transport is told it knows `response`, `frame` and `idle` with a time in microseconds, before anything happened;
//! `settings`, which says the three, and `over-stream`, which makes them of those of a stream; `draws WORD ..`, the words
//! that are drawn; `shutdown`, `fail`, `failed` and `server`. `backs-off TIMES WORD` prints for how many microseconds is
//! backed off after so many earlier times, by a word that was drawn.

use crate::lent::Lent;
use crate::reading::{first_word, number, time_of, word_list};
use crate::saying::{say_outcome, say_value};
use client_multi::multi_stream::{Config, Connection, retry_time};
use client_request::{ListWords, RequestMessage};
use std::alloc::Global;

/// The number by which outs name the server.
const NUMBER: u32 = 3;

pub struct Multi {
    pub connection: Connection<RequestMessage>,
    config: Config,
}

impl Drop for Multi {
    fn drop(self) {
        let Multi {
            connection: _,
            config: _,
        } = self;
    }
}

/// Says the time of a request, of a frame, and without a request, in microseconds.
fn say_settings(config: &Config, said: &mut String) -> Option<()> {
    say_value(said, &config.response_timeout().as_micros())?;
    say_value(said, &config.stream().response_timeout().as_micros())?;
    say_value(said, &config.stream().idle_timeout().as_micros())
}

impl Multi {
    pub fn new(alloc: Global) -> Option<Multi> {
        let connection = Connection::new(alloc, NUMBER).ok()?;
        Some(Multi {
            connection,
            config: Config::new(),
        })
    }

    /// Sets a time in microseconds before anything happened, and tells whether the word is one for it: of a request, of a
    /// frame, and without a request.
    fn set(&mut self, alloc: Global, word: &str, micros: &str) -> Option<bool> {
        match word {
            "response" => self.config.set_response_timeout(time_of(micros)?),
            "frame" => self
                .config
                .stream_mut()
                .set_response_timeout(time_of(micros)?),
            "idle" => self.config.stream_mut().set_idle_timeout(time_of(micros)?),
            _ => return Some(false),
        }
        let config = self.config.try_clone().ok()?;
        self.connection = Connection::with_config(alloc, NUMBER, config).ok()?;
        Some(true)
    }

    /// Does what a word of its own says, and tells whether it is one.
    pub fn tell(
        &mut self,
        alloc: Global,
        lent: &mut Lent,
        words: &str,
        said: &mut String,
    ) -> Option<bool> {
        let (word, rest) = first_word(words);
        match word {
            "shutdown" => say_outcome(said, self.connection.shutdown(&mut lent.cx()))?,
            "draws" => lent.words = ListWords::new(word_list(alloc, rest)?),
            "fail" => self.connection.fail(),
            "failed" => say_value(said, &self.connection.has_failed())?,
            "server" => say_value(said, &self.connection.server())?,
            "settings" => say_settings(&self.config.try_clone().ok()?, said)?,
            "over-stream" => self.config = Config::from(*self.config.stream()),
            _ => return self.set(alloc, word, rest),
        }
        Some(true)
    }
}

/// Says for how many microseconds is backed off, by the earlier times and a word.
pub fn show_retry(words: &str, said: &mut String) -> Option<()> {
    let (times, word) = first_word(words);
    let time = retry_time(number(times)?, number(word)?);
    say_value(said, &time.as_micros())
}
