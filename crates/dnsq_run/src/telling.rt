//! The trace of a script, taken row by row: each row is let go as soon as it is told, so no trace stands in memory beside
//! its text.

ghost use Rattle.std.specs.Prelude.{◌≡◌, ◌≢◌, [], List, None, IfOk, IfErr};
ghost use Rattle.client_request.specs.declared.event.Row.{Row};
ghost use Rattle.dns_script.specs.TraceText.{trace_text_of};
ghost use Rattle.command_parts.specs.Ends.{IsEarly, status_of, line_of};
ghost use Rattle.dnsq_run.specs.Program.{first_lane, rows_of, IsPlayed, IsTextOf, IsTold, numbers_line};

use crate::lines::refusal;
use client_core::{Client, Settings};
use client_replay::{Replay, TakeRow};
use client_request::{Events, ListWords, Row};
use command_parts::Ending;
use dns_base::NoMemory;
use dns_script::{Lanes, Script, begin_trace, end_trace, has_stale, push_row, set_first_line};
use std::alloc::Global;

/// The events of the first lane.
pub(crate) fn first_lane(alloc: Global, lanes: Lanes) -> Events
    ensures { result ≡ first_lane lanes }
{
    let mut lanes = lanes.into_vec();
    if lanes.is_empty() {
        return Events::new(alloc);
    }
    lanes.swap_remove(0)
}

/// Replays a script with one lane, whose rows are taken as they are made. After an error some of them were taken.
pub(crate) fn play<T: TakeRow>(alloc: Global, script: Script, taker: &mut T) -> Result<(), Ending>
    requires none_taken { T.has taker.old [] }
    ensures played { IfOk result (λ _. (rows : List Row) × IsPlayed script rows × T.has taker.new rows) }
    ensures early { IfErr result IsEarly }
    ensures numbers { IfErr result (λ e. status_of e ≡ 7 → rows_of script ≡ None) }
    ensures numbers_line { IfErr result (λ e. status_of e ≡ 7 → line_of e ≡ numbers_line) }
    ensures no_fault { IfErr result (λ e. (status_of e ≢ 3) × (status_of e ≢ 1)) }
{
    let Script {
        conf,
        redundant,
        cache,
        transports,
        words,
        lanes,
    } = script;
    let settings = Settings {
        redundant,
        cache,
        transports,
    };
    let mut words = ListWords::new(words);
    let events = first_lane(alloc, lanes);
    match Client::replay_into_with(alloc, &conf, settings, &mut words, events, taker) {
        Ok(()) => Ok(()),
        Err(error) => Err(refusal(alloc, error)),
    }
}

/// The text of a trace without its last line, and whether a reply was stale so far.
#[derive(Drop)]
struct TraceText {
    octets: Vec<u8>,
    is_stale: bool,
}

impl TraceText {
    /// That of no rows, in memory that other octets had.
    fn new(alloc: Global, room: Vec<u8>) -> Result<TraceText, NoMemory>
        ensures { IfOk result (λ text. IsTextOf text.octets.items text.is_stale []) }
    {
        let first = begin_trace(alloc, false)?;
        let mut octets = room;
        octets.clear();
        octets.extend_from_slice(&first)?;
        Ok(TraceText {
            octets,
            is_stale: false,
        })
    }

    /// The whole text.
    #[tactic(auto, using(crate::proofs::ToldTexts::is_of_first, crate::proofs::ToldTexts::whole_text))]
    fn finish(self) -> Result<Vec<u8>, NoMemory>
        requires rows { (rows : List Row) × IsTextOf self.octets.items self.is_stale rows }
        ensures { (rows : List Row) → IsTextOf self.octets.items self.is_stale rows → IfOk result (λ v. v.items ≡ trace_text_of rows) }
    {
        let mut octets = self.octets;
        end_trace(&mut octets)?;
        set_first_line(&mut octets, self.is_stale);
        Ok(octets)
    }
}

/// Its rows are told as text.
impl TakeRow for TraceText {
    ghost use Rattle.dnsq_run.specs.Program.{IsTextOf};

    ghost has = { λ text rows. IsTextOf text.octets.items text.is_stale rows };

    fn take(&mut self, row: Row) -> Result<(), NoMemory> {
        push_row(&mut self.octets, &row)?;
        self.is_stale = self.is_stale || has_stale(&row);
        Ok(())
    }
}

/// The text of the trace of a script with one lane, which is right and timely, gives what is kept, and serves what has
/// expired. It takes the memory of `room`, whose octets are let go: a script's own text is nearly long enough for that of
/// its trace.
pub fn text_of(alloc: Global, script: Script, room: Vec<u8>) -> Result<Vec<u8>, Ending>
    ensures told { IfOk result (λ v. IsTold script v.items) }
    ensures early { IfErr result IsEarly }
    ensures numbers { IfErr result (λ e. status_of e ≡ 7 → rows_of script ≡ None) }
    ensures numbers_line { IfErr result (λ e. status_of e ≡ 7 → line_of e ≡ numbers_line) }
    ensures no_fault { IfErr result (λ e. (status_of e ≢ 3) × (status_of e ≢ 1)) }
{
    let mut text = TraceText::new(alloc, room)?;
    play(alloc, script, &mut text)?;
    Ok(text.finish()?)
}
