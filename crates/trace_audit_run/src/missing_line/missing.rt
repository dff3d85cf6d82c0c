//! What is missing at a row.

ghost use Rattle.std.specs.Prelude.{◌≡◌, ◌++◌, OnOk, slice_get};
ghost use Rattle.trace_audit_run.specs.missing_line.Missing as plain;
ghost use Rattle.trace_audit_run.specs.missing_line.Words.{place_of};

use crate::missing_line::happenings::{place_of, push_event};
use crate::missing_line::outs::{is_asked_of_some, push_asked};
use crate::missing_line::places::last_at;
use crate::missing_line::texts::{push_number, push_words};
use client_request::{Out, Row, What};
use dns_base::NoMemory;
use std::alloc::Global;
use trace_hits::timely::longest_waiting;
use trace_judge::Clause;

/// What a clause asks, and is not so. It is said whether it is asked of an out of the row.
fn sentence(clause: Clause, is_of_outs: bool) -> &'static str
    ensures { result.now ≡ plain.sentence clause is_of_outs }
{
    match clause {
        Clause::Events => ": the script says otherwise here, or has ended",
        Clause::Messages => {
            ": no such message came for the request in this row, no earlier reply gives it, or another server could still answer better"
        }
        Clause::Firsts => ": a reply is given to a request that was not asked, or has one",
        Clause::Causes => {
            ": nothing in this row or before is the cause of such an error, or another server could still answer"
        }
        Clause::Orders => orders(is_of_outs),
        Clause::Prompts => {
            ": it brings a final answer to a request that is not given it in this row"
        }
    }
}

/// What is not so where the clause on outs that are no replies fails.
fn orders(is_of_outs: bool) -> &'static str
    ensures { result.now ≡ plain.orders is_of_outs }
{
    if is_of_outs {
        ": one of these was not to be done then, or a request that waits behind them has nothing under way, or a server has too few places or too many"
    } else {
        ": a request that waits has nothing under way, or a server has too few places or too many"
    }
}

/// Adds words and the number of a request, if there is one.
fn push_named(
    alloc: Global,
    text: &mut Vec<u8>,
    words: &str,
    request: Option<u64>,
) -> Result<(), NoMemory>
    ensures { OnOk result (text.new.items ≡ text.old.items ++ plain.named words.now request) }
{
    match request {
        None => Ok(()),
        Some(request) => push_number(alloc, text, words, request),
    }
}

/// The request that was sent or written last at the place of an event.
fn last_of(what: &What, before: &[Row]) -> Option<u64>
    ensures { result ≡ plain.last_of (place_of what.now) before.now }
{
    match place_of(what) {
        None => None,
        Some(place) => last_at(place, before),
    }
}

/// Adds which request was sent or written last at the place of an event, if one was.
fn push_last(alloc: Global, text: &mut Vec<u8>, what: &What, before: &[Row]) -> Result<(), NoMemory>
    ensures { OnOk result (text.new.items ≡ text.old.items ++ plain.last_words what.now before.now) }
{
    let request = last_of(what, before);
    push_named(
        alloc,
        text,
        ", where what was sent or written last was request ",
        request,
    )
}

/// Adds which request waits longest behind some rows, if one waits.
fn push_waiting(alloc: Global, text: &mut Vec<u8>, rows: &[Row]) -> Result<(), NoMemory>
    ensures { OnOk result (text.new.items ≡ text.old.items ++ plain.waiting_words rows.now) }
{
    let request = longest_waiting(alloc, rows)?;
    push_named(alloc, text, "; longest waits request ", request)
}

/// Adds what a clause asks of a row but for its outs: of what came the place's last request, and of what waits the first.
fn push_more(
    alloc: Global,
    text: &mut Vec<u8>,
    clause: Clause,
    outs: &[Out],
    rows: &[Row],
) -> Result<(), NoMemory>
    ensures { OnOk result (text.new.items ≡ text.old.items ++ plain.said_of clause outs.now rows.now) }
{
    push_words(text, sentence(clause, is_asked_of_some(clause, outs)))?;
    match clause {
        Clause::Orders => push_waiting(alloc, text, rows),
        _ => Ok(()),
    }
}

/// Adds at what place an answer came, where it is asked whether a reply was given at once.
fn push_where(
    alloc: Global,
    text: &mut Vec<u8>,
    clause: Clause,
    what: &What,
    before: &[Row],
) -> Result<(), NoMemory>
    ensures { OnOk result (text.new.items ≡ text.old.items ++ plain.where_words clause what.now before.now) }
{
    match clause {
        Clause::Prompts => push_last(alloc, text, what, before),
        _ => Ok(()),
    }
}

/// Adds what is missing at a row, behind these rows; `rows` are they and it.
fn push_row(
    alloc: Global,
    text: &mut Vec<u8>,
    clause: Clause,
    before: &[Row],
    row: &Row,
    rows: &[Row],
) -> Result<(), NoMemory>
    ensures { OnOk result (text.new.items ≡ text.old.items ++ plain.row_words clause before.now row.now rows.now) }
{
    push_event(alloc, text, &row.event)?;
    push_where(alloc, text, clause, &row.event.what, before)?;
    push_asked(alloc, text, clause, row.outs.as_slice())?;
    push_more(alloc, text, clause, row.outs.as_slice(), rows)
}

/// Adds what is missing at the row with a number, if there is one.
#[tactic(auto, using(std::proofs::lemmas::Option::slice_get_within))]
fn push_at(
    alloc: Global,
    text: &mut Vec<u8>,
    clause: Clause,
    rows: &[Row],
    number: usize,
) -> Result<(), NoMemory>
    ensures { OnOk result (text.new.items ≡ text.old.items ++ plain.missing_at clause number rows.now (slice_get rows.now number)) }
{
    match rows.get(number) {
        None => push_words(text, "the trace ends here, and the script goes on"),
        Some(row) => push_row(
            alloc,
            text,
            clause,
            &rows[..number],
            row,
            &rows[..number + 1],
        ),
    }
}

/// Adds a line that says what is missing at a row of a trace where a clause fails: when and what happened there, of which of its outs
/// the clause is asked, and what it asks. Where there is no such row, the trace has ended before its script.
///
/// `NoMemory` where memory runs out. What was added until then stays.
pub fn push_missing(
    alloc: Global,
    text: &mut Vec<u8>,
    clause: Clause,
    rows: &[Row],
    number: u64,
) -> Result<(), NoMemory>
    ensures { OnOk result (text.new.items ≡ text.old.items ++ plain.missing clause number rows.now) }
{
    push_at(alloc, text, clause, rows, number as usize)?;
    push_words(text, "\n")
}

/// Adds that at a row, which is the last of these, a request is late.
fn push_late_row(alloc: Global, text: &mut Vec<u8>, row: &Row, rows: &[Row]) -> Result<(), NoMemory>
    ensures { OnOk result (text.new.items ≡ text.old.items ++ plain.late_words row.now rows.now) }
{
    push_event(alloc, text, &row.event)?;
    push_words(
        text,
        ": a request has no reply though its timeout has passed",
    )?;
    push_waiting(alloc, text, rows)?;
    push_words(text, "\n")
}

/// Adds a line that says of which request the timeout has passed at the end of a row that is not timely.
///
/// `NoMemory` where memory runs out. What was added until then stays.
#[tactic(auto, using(std::proofs::lemmas::Option::slice_get_within))]
pub fn push_late(
    alloc: Global,
    text: &mut Vec<u8>,
    rows: &[Row],
    number: u64,
) -> Result<(), NoMemory>
    ensures { OnOk result (text.new.items ≡ text.old.items ++ plain.late number rows.now) }
{
    let at = number as usize;
    match rows.get(at) {
        None => Ok(()),
        Some(row) => push_late_row(alloc, text, row, &rows[..at + 1]),
    }
}
