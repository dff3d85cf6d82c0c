//! Traces, read line by line.

ghost use Rattle.std.specs.Prelude.{◌≡◌, ◌↔◌, IsTrue, IfOk, List};
ghost use Rattle.client_request.specs.declared.event.Row.{Row};
ghost use Rattle.dns_script.specs.declared.trace_lines.TraceStage.TheVariants as stages;
ghost use Rattle.dns_script.specs.Reading.{Gives, Makes, Reads};
ghost use Rattle.dns_script.specs.TextLaws.{AreRows, ReadsBack};
ghost use Rattle.dns_script.specs.TraceText.{trace_text_of};
ghost use Rattle.dns_script.specs.TraceReading.{ReadsTrace, entry_behind, entry_of, line_at, nothing_read, with_entry, with_line};

use crate::line::{LineFault, Words, split_first};
use crate::printing::says_stale;
use crate::reading::{event, out};
use crate::script::ScriptFault;
use client_request::{Event, Out, Outs, Row, Rows, Trace};
use std::alloc::Global;

/// A line of a trace behind the first.
#[derive(Drop)]
pub(crate) enum TraceEntry {
    Came(Event),
    Put(Out),
    End,
}

/// Where in a trace its reader stands: before the first line, among the rows, or behind the last line.
#[derive(Clone, Copy, Debug, PartialEq, Eq)]
pub(crate) enum TraceStage {
    Begin,
    Inside,
    Ended,
}

/// What the lines of a trace said so far.
#[derive(Drop)]
pub(crate) struct TraceReader {
    pub stage: TraceStage,
    /// The first line is that of the second version.
    pub is_second: bool,
    /// A reply was said to be stale.
    pub has_stale: bool,
    /// The rows that are whole.
    pub rows: Rows,
    /// The row that is being read.
    pub row: Option<Row>,
}

fn entry_behind(alloc: Global, name: &[u8], words: &mut Words<'_>) -> Result<TraceEntry, LineFault>
    ensures { Gives result words.new (entry_behind name.now words.old) }
{
    if name == b"at".as_slice() {
        return Ok(TraceEntry::Came(event(alloc, words)?));
    }
    if name == b">".as_slice() {
        return Ok(TraceEntry::Put(out(alloc, words)?));
    }
    if name == b"end".as_slice() {
        return Ok(TraceEntry::End);
    }
    Err(LineFault::Refused)
}

#[tactic(auto, unfolding(crate::specs::TraceReading::entry_of))]
fn entry_of(alloc: Global, line: &[u8]) -> Result<TraceEntry, LineFault>
    ensures { Reads (λ e. e) result (entry_of line.now) }
{
    let mut words = Words::of(line);
    let name = words.word()?;
    let entry = entry_behind(alloc, name, &mut words)?;
    words.end()?;
    Ok(entry)
}

impl TraceReader {
    fn new(alloc: Global) -> TraceReader
        ensures { result ≡ nothing_read }
    {
        TraceReader {
            stage: TraceStage::Begin,
            is_second: false,
            has_stale: false,
            rows: Rows::new(alloc),
            row: None,
        }
    }

    fn has_ended(&self) -> bool
        ensures { IsTrue result ↔ (self.now.stage ≡ stages.Ended) }
    {
        match self.stage {
            TraceStage::Begin => false,
            TraceStage::Inside => false,
            TraceStage::Ended => true,
        }
    }

    fn entry(&mut self, alloc: Global, entry: TraceEntry) -> Result<(), LineFault>
        ensures { Makes result self.new (with_entry entry self.old) }
    {
        match entry {
            TraceEntry::Came(event) => {
                if let Some(row) = self.row.take() {
                    self.rows.push(row)?;
                }
                self.row = Some(Row {
                    event,
                    outs: Outs::new(alloc),
                });
                Ok(())
            }
            TraceEntry::Put(out) => {
                let is_stale = says_stale(&out);
                if is_stale && !self.is_second {
                    return Err(LineFault::Refused);
                }
                let Some(mut row) = self.row.take() else {
                    return Err(LineFault::Refused);
                };
                row.outs.push(out)?;
                self.row = Some(row);
                self.has_stale = self.has_stale || is_stale;
                Ok(())
            }
            TraceEntry::End => {
                if self.is_second && !self.has_stale {
                    return Err(LineFault::Refused);
                }
                if let Some(row) = self.row.take() {
                    self.rows.push(row)?;
                }
                self.stage = TraceStage::Ended;
                Ok(())
            }
        }
    }

    /// Takes a line. A reader that gave an error is not used again.
    fn line(&mut self, alloc: Global, line: &[u8]) -> Result<(), LineFault>
        ensures { Makes result self.new (with_line line.now self.old) }
    {
        match self.stage {
            TraceStage::Begin if line == b"trace 1".as_slice() => {
                self.stage = TraceStage::Inside;
                Ok(())
            }
            TraceStage::Begin if line == b"trace 2".as_slice() => {
                self.stage = TraceStage::Inside;
                self.is_second = true;
                Ok(())
            }
            TraceStage::Begin => Err(LineFault::Refused),
            TraceStage::Inside => self.entry(alloc, entry_of(alloc, line)?),
            TraceStage::Ended => Err(LineFault::Refused),
        }
    }
}

/// Reads the text of a trace, as [`trace_text`](crate::trace_text) writes it: each event and each out, by
/// datagrams and by streams, with any fault.
///
/// Where a reply is stale the first line is `trace 2`, else `trace 1`: a `stale` line is refused in a text of the first
/// version, and the `end` of one of the second in which none stands.
///
/// Any other text gives the first line at which no text of a trace can go on, or the line after the
/// last whole one where the text ends early.
#[tactic(auto, using(crate::proofs::TraceLoop::trace_begins, crate::proofs::TraceLoop::trace_line_read, crate::proofs::TraceLoop::trace_line_refused, crate::proofs::TraceLoop::trace_not_ended, crate::proofs::TraceLoop::trace_has_tail, crate::proofs::TraceLoop::trace_read))]
pub fn read_trace(alloc: Global, text: &[u8]) -> Result<Trace, ScriptFault>
    ensures reads { ReadsTrace text.now result }
    ensures text { IfOk result (λ t. text.now ≡ trace_text_of t.rows) }
    ensures in_range { IfOk result (λ t. AreRows t.rows) }
    ensures back { (rows : List Row) → AreRows rows → text.now ≡ trace_text_of rows → ReadsBack rows result }
{
    let mut reader = TraceReader::new(alloc);
    let mut rest = text;
    let mut count: u64 = 0;
    while let Some((line, behind)) = split_first(rest, b'\n') {
        count += 1;
        match reader.line(alloc, line) {
            Ok(()) => {}
            Err(LineFault::Refused) => return Err(ScriptFault::Line(count)),
            Err(LineFault::NoMemory) => return Err(ScriptFault::NoMemory),
        }
        rest = behind;
    }
    if !reader.has_ended() {
        return Err(ScriptFault::Line(count + 1));
    }
    if rest.len() != 0 {
        return Err(ScriptFault::Line(count + 1));
    }
    Ok(Trace { rows: reader.rows })
}
