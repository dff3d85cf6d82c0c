//! A client, the words that it draws, and the record of what it is told.

use crate::asking::{conf_of, words};
use crate::outs::show;
use crate::trouble::Trouble;
use client_core::{Client, Event, Moment, Row, What};
use client_request::ListWords;
use client_settings::{cache, redundant};
use dns_record::{Ahead, Recorder};
use dns_values::SureSink;
use std::alloc::Global;

/// The one word is drawn and written before the first event. A client that asks more has `Ahead::SMALL` or `Ahead::LARGE`.
const AHEAD: Ahead = Ahead { count: 1, few: 0 };

/// A client that is told what happens, the words that it draws, and what records both.
pub(crate) struct Recorded {
    client: Client,
    words: ListWords,
    recorder: Recorder,
    record: SureSink,
}

impl Drop for Recorded {
    fn drop(self) {
        let Recorded {
            client: _,
            words: _,
            recorder: _,
            record: _,
        } = self;
    }
}

impl Recorded {
    /// A client of the server 192.0.2.53.
    pub(crate) fn new(alloc: Global) -> Result<Recorded, Trouble> {
        let conf = conf_of(alloc, [192, 0, 2, 53])?;
        let (choice, cache) = (redundant::Config::new(), cache::Config::new());
        let mut words = words(alloc)?;
        let mut record = SureSink::new(alloc);
        let recorder = Recorder::begin(
            alloc,
            &conf,
            choice,
            &cache,
            &mut words,
            AHEAD,
            &mut record,
        )?;
        let client = Client::new(alloc, &conf, choice, cache)?;
        Ok(Recorded {
            client,
            words,
            recorder,
            record,
        })
    }

    /// Tells the client what happened at a moment, in microseconds, and shows what it wants done.
    pub(crate) fn tell(
        &mut self,
        rt: &impl Print,
        moment: u64,
        what: What,
    ) -> Result<Row, Trouble> {
        let event = Event {
            moment: Moment(moment),
            what,
        };
        // Without a record: `self.client.step(&mut self.words, event)?`.
        let row = self
            .recorder
            .step(&mut self.client, &mut self.words, &mut self.record, event)?;
        show(rt, &row)?;
        Ok(row)
    }

    /// Prints the record, which `dnsq replay` reads.
    pub(crate) fn print_record(&self, rt: &impl Print) -> Result<(), Trouble> {
        println!(rt; "recorded:")?;
        if let Ok(text) = str::from_utf8(self.record.as_slice()) {
            print!(rt; "{text}")?;
        }
        Ok(())
    }
}
