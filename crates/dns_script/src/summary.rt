//! The summary of a trace.

ghost use Rattle.std.specs.Prelude.{◌≡◌, ◌+◌, [], ◌∷◌, ◌++◌, IfOk, OnOk};
ghost use Rattle.std.specs.List.{count_by};
ghost use Rattle.std.specs.String.{string_bytes};
ghost use Rattle.dns_script.specs.Summary.{count_line, is_ok_of, nothing_counted, summarized, summary_lines, summary_text_of, with_outs, with_row};

use client_request::{Out, Row, Trace, What};
use dns_base::NoMemory;
use std::alloc::Global;
use std::fmt::Write;

/// What is counted of a trace.
#[derive(Clone, Copy, Debug, PartialEq, Eq)]
pub(crate) struct Summary {
    /// Requests that were asked.
    pub asks: u64,
    /// Replies that are messages.
    pub ok: u64,
    /// Replies that are errors.
    pub errors: u64,
    /// Rows.
    pub rows: u64,
    /// Sockets for datagrams that were to be opened.
    pub dgram_opens: u64,
    /// Streams that were to be opened.
    pub stream_opens: u64,
    /// Sockets that were to be closed.
    pub closes: u64,
    /// Replies that are messages, in the row in which their request was asked.
    pub hits: u64,
}

/// The sum of two counts. No memory holds what is counted past 64 bits.
fn sum(count: u64, more: u64) -> Result<u64, NoMemory>
    ensures { IfOk result (λ n. n ≡ count + more) }
{
    match count.checked_add(more) {
        Some(count) => Ok(count),
        None => Err(NoMemory),
    }
}

/// How many of these are a message for a request.
fn hits(outs: &[Out], number: u64) -> u64
    ensures { result ≡ count_by (is_ok_of number) outs.now }
{
    let mut count = 0;
    for out in outs {
        if is_ok_of(number, out) {
            count += 1;
        }
    }
    count
}

/// Whether this is a message for a request.
fn is_ok_of(number: u64, out: &Out) -> bool
    ensures { result ≡ is_ok_of number out.now }
{
    match out {
        Out::Reply {
            request,
            result: Ok(_),
        } => *request == number,
        _ => false,
    }
}

impl Summary {
    /// Nothing is counted yet.
    fn new() -> Summary
        ensures { result ≡ nothing_counted }
    {
        Summary {
            asks: 0,
            ok: 0,
            errors: 0,
            rows: 0,
            dgram_opens: 0,
            stream_opens: 0,
            closes: 0,
            hits: 0,
        }
    }

    /// Counts what was put out, but for hits.
    fn add_out(&mut self, out: &Out) -> Result<(), NoMemory>
        ensures { OnOk result (self.new ≡ with_outs (out.now ∷ []) self.old) }
    {
        match out {
            Out::OpenDgram { .. } => self.dgram_opens = sum(self.dgram_opens, 1)?,
            Out::OpenStream { .. } => self.stream_opens = sum(self.stream_opens, 1)?,
            Out::Close { .. } => self.closes = sum(self.closes, 1)?,
            Out::Reply { result: Ok(_), .. } => self.ok = sum(self.ok, 1)?,
            Out::Reply { result: Err(_), .. } => self.errors = sum(self.errors, 1)?,
            _ => {}
        }
        Ok(())
    }

    /// Counts what was put out, but for hits.
    #[tactic(auto, using(crate::proofs::Counts::outs_more))]
    fn add_outs(&mut self, outs: &[Out]) -> Result<(), NoMemory>
        ensures { OnOk result (self.new ≡ with_outs outs.now self.old) }
    {
        for out in outs {
            self.add_out(out)?;
        }
        Ok(())
    }

    /// Counts a row.
    fn add_row(&mut self, row: &Row) -> Result<(), NoMemory>
        ensures { OnOk result (self.new ≡ with_row row.now self.old) }
    {
        self.rows = sum(self.rows, 1)?;
        self.add_outs(row.outs.as_slice())?;
        if let What::Ask { .. } = row.event.what {
            self.hits = sum(self.hits, hits(row.outs.as_slice(), self.asks))?;
            self.asks = sum(self.asks, 1)?;
        }
        Ok(())
    }

    /// What is counted of rows.
    #[tactic(auto, using(crate::proofs::Counts::nothing_yet, crate::proofs::Counts::row_more, crate::proofs::Counts::all_counted))]
    fn of(rows: &[Row]) -> Result<Summary, NoMemory>
        ensures { IfOk result (λ s. s ≡ summarized rows.now) }
    {
        let mut summary = Summary::new();
        for row in rows {
            summary.add_row(row)?;
        }
        Ok(summary)
    }
}

/// Adds a line: a word, a blank and a number.
fn push_count(text: &mut String, word: &str, count: u64) -> Result<(), NoMemory>
    ensures { OnOk result (string_bytes text.new ≡ string_bytes text.old ++ count_line word.now count) }
{
    write!(text, "{word} {count}\n")?;
    Ok(())
}

/// A line for each count.
fn summary_lines(alloc: Global, summary: Summary) -> Result<Vec<u8>, NoMemory>
    ensures { IfOk result (λ v. v.items ≡ summary_lines summary) }
{
    let mut text = String::new(alloc);
    push_count(&mut text, "asks", summary.asks)?;
    push_count(&mut text, "ok", summary.ok)?;
    push_count(&mut text, "errors", summary.errors)?;
    push_count(&mut text, "rows", summary.rows)?;
    push_count(&mut text, "dgram-opens", summary.dgram_opens)?;
    push_count(&mut text, "stream-opens", summary.stream_opens)?;
    push_count(&mut text, "closes", summary.closes)?;
    push_count(&mut text, "hits", summary.hits)?;
    Ok(text.into_bytes())
}

/// The summary of a trace: how many requests were asked, how many replies are messages and errors, how
/// many rows there are, how many sockets were to be opened and closed, and how many replies came with
/// their request.
pub fn summary_text(alloc: Global, trace: &Trace) -> Result<Vec<u8>, NoMemory>
    ensures { IfOk result (λ v. v.items ≡ summary_text_of trace.now.rows) }
{
    let summary = Summary::of(trace.rows.as_slice())?;
    summary_lines(alloc, summary)
}
