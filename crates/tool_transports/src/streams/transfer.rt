//! What messages do to a zone transfer.
//!
//! `ask QUERY` begins a transfer by its query, and MESSAGE is a message that comes for it, both in hexadecimal digits.
//! `cut N` begins the transfer anew, and lets the last message come once more, the records of its answer section cut into
//! messages of N. `at STATE QUERY MESSAGE` lets a message come for a transfer that a query began and that is at a state,
//! as `AxfrFirstSoa-7`. Of each message it is printed whether the transfer ends, the state that is left, and whether the
//! message belongs to the transfer. `kept STATE` prints the serial that a state keeps.

mod cutting;
mod states;
mod watch;

use crate::reading::{first_word, message_of};
use cutting::part_of;
use dns_base::Message;
use states::state_named;
use std::alloc::Global;
use std::fmt::Write;
use watch::Watch;

/// The transfer that lines go on with, and its last message.
pub struct Watched {
    pub watch: Option<Watch>,
    pub last: Option<Message>,
}

impl Drop for Watched {
    fn drop(self) {
        let Watched { watch: _, last: _ } = self;
    }
}

/// Adds the line of a message that comes at a state: `STATE QUERY MESSAGE`.
fn check_at(alloc: Global, words: &str, text: &mut String) -> Option<()> {
    let (state, rest) = first_word(words);
    let (query, digits) = first_word(rest);
    let mut watch = Watch::begun(alloc, query)?;
    watch.state = state_named(state)?;
    watch.check(&message_of(alloc, digits)?, text)
}

impl Watched {
    /// Lets a message come.
    fn take(&mut self, alloc: Global, digits: &str, text: &mut String) -> Option<()> {
        let message = message_of(alloc, digits)?;
        self.watch.as_mut()?.check(&message, text)?;
        self.last = Some(message);
        Some(())
    }

    /// Lets the last message come once more, in parts of so many records.
    fn cut(&mut self, alloc: Global, size: u16, text: &mut String) -> Option<()> {
        let Watched { watch, last } = self;
        let (watch, message) = (watch.as_mut()?, last.as_ref()?);
        watch.begin();
        for at in 0..message.header_counts().ancount() {
            if at % size.max(1) == 0 {
                watch.check(&part_of(alloc, message, at, size)?, text)?;
            }
        }
        Some(())
    }

    pub fn show(&mut self, alloc: Global, line: &str, text: &mut String) -> Option<()> {
        let (word, rest) = first_word(line);
        match word {
            "ask" => {
                self.watch = Some(Watch::begun(alloc, rest)?);
                Some(())
            }
            "cut" => self.cut(alloc, rest.parse::<u16>().ok()?, text),
            "at" => check_at(alloc, rest, text),
            "kept" => {
                let serial = state_named(rest)?.kept_serial();
                write!(text, "{serial:?}\n").ok()
            }
            _ => self.take(alloc, line, text),
        }
    }
}
