//! A line that tells how far a transfer is.

use client_request::Moment;
use command_parts::deliver;
use dns_base::Sink;
use std::alloc::Global;
use zone_transfer::Progress;

/// A line on a terminal that tells how far a transfer is, once a second, from the clock's first second on. Without a terminal there is
/// none. What the terminal does not take is left out.
#[derive(Drop)]
pub struct ProgressLine<K> {
    alloc: Global,
    terminal: Option<K>,
    /// The last second in which it was told; 0 before that.
    second: u64,
}

impl<K: Sink> ProgressLine<K> {
    /// A line on this terminal, if there is one.
    pub fn new(alloc: Global, terminal: Option<K>) -> ProgressLine<K> {
        ProgressLine {
            alloc,
            terminal,
            second: 0,
        }
    }

    fn write(&mut self, text: &str) {
        if let Some(terminal) = &mut self.terminal {
            deliver(terminal, text.as_bytes());
        }
    }
}

impl<K: Sink> Progress for ProgressLine<K> {
    fn tell(&mut self, moment: Moment, updates: usize, octets: u64) {
        let second = moment.0 / 1_000_000;
        if second <= self.second || self.terminal.is_none() {
            return;
        }
        self.second = second;
        if let Ok(line) = format!(in self.alloc;
            "\rzone_fetch: {updates} records, {octets} octets"
        ) {
            self.write(line.as_str());
        }
    }

    fn end(&mut self) {
        if self.second > 0 {
            self.write("\n");
        }
    }
}
