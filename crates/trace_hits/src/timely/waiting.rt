//! Which requests wait.

ghost use Rattle.std.specs.Prelude.{◌≡◌, OnOk};
ghost use Rattle.number_table.specs.Entries.{frees};
ghost use Rattle.trace_hits.specs.timely.Waiting as plain;

use client_request::{Event, Out, Row, What};
use dns_base::{Duration, NoMemory};
use number_table::NumberTable;
use std::alloc::Global;
use trace_tables::Requests;
use trace_tables::sets::Members;

/// What is known of requests so far.
pub(crate) struct Waiting {
    requests: Requests,
    /// Those that were asked and have no reply.
    numbers: Members,
}

impl Drop for Waiting {
    fn drop(self) {
        let Waiting {
            requests: _,
            numbers: _,
        } = self;
    }
}

/// A request joins those that wait, if it does.
fn join(numbers: &mut Members, request: u64, waits: bool) -> Result<(), NoMemory>
    ensures { OnOk result (numbers.new ≡ plain.joined waits request numbers.old) }
{
    if waits && numbers.insert(request, ()).is_err() {
        return Err(NoMemory);
    }
    Ok(())
}

fn take_out(numbers: &mut Members, request: u64)
    ensures { numbers.new ≡ frees request numbers.old }
{
    numbers.remove(request);
}

impl Waiting {
    /// Before the first row.
    pub(crate) fn new(alloc: Global) -> Waiting
        ensures { result ≡ plain.nothing }
    {
        Waiting {
            requests: Requests::new(alloc),
            numbers: NumberTable::new(alloc),
        }
    }

    /// A request waits that is asked, if it has no reply yet.
    fn note_asked(&mut self, what: &What) -> Result<(), NoMemory>
        ensures numbers { OnOk result (self.new.numbers ≡ plain.asked what.now self.old.requests self.old.numbers) }
        ensures requests { self.new.requests ≡ self.old.requests }
    {
        match what {
            What::Ask { .. } => {
                let number = self.requests.asked;
                let waits = !self.requests.is_replied(number);
                join(&mut self.numbers, number, waits)
            }
            _ => Ok(()),
        }
    }

    /// An event comes.
    fn meet(&mut self, alloc: Global, event: &Event) -> Result<(), NoMemory>
        ensures { OnOk result (self.new ≡ plain.met event.now self.old) }
    {
        self.note_asked(&event.what)?;
        self.requests.meet(alloc, event)
    }

    /// An out is put.
    fn put(&mut self, alloc: Global, out: &Out) -> Result<(), NoMemory>
        ensures { OnOk result (self.new ≡ plain.has_put out.now self.old) }
    {
        if let Out::Reply { request, .. } = out {
            take_out(&mut self.numbers, *request);
        }
        self.requests.put(alloc, out)
    }

    /// The outs of a row are put.
    fn put_all(&mut self, alloc: Global, outs: &[Out]) -> Result<(), NoMemory>
        ensures { OnOk result (self.new ≡ plain.have_put outs.now self.old) }
    {
        for out in outs {
            self.put(alloc, out)?;
        }
        Ok(())
    }

    /// A row goes by.
    pub(crate) fn take(&mut self, alloc: Global, row: &Row) -> Result<(), NoMemory>
        ensures { OnOk result (self.new ≡ plain.after_row row.now self.old) }
    {
        self.meet(alloc, &row.event)?;
        self.put_all(alloc, row.outs.as_slice())
    }

    /// Rows go by.
    pub(crate) fn take_all(&mut self, alloc: Global, rows: &[Row]) -> Result<(), NoMemory>
        ensures { OnOk result (self.new ≡ plain.after_rows rows.now self.old) }
    {
        for row in rows {
            self.take(alloc, row)?;
        }
        Ok(())
    }

    /// The request that was asked first of those that wait.
    pub(crate) fn first(&self) -> Option<u64>
        ensures { result ≡ plain.first_of self.now.numbers }
    {
        self.numbers.first()
    }

    /// Whether no request that waits is at its timeout: that which was asked first is not.
    pub(crate) fn is_in_time(&self, timeout: Duration) -> bool
        ensures { result ≡ plain.in_time_seen timeout self.now }
    {
        match self.numbers.first() {
            None => true,
            Some(request) => !self.requests.is_past_deadline(request, timeout),
        }
    }
}
