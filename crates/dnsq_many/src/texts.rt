//! The text of a journal.

ghost use Rattle.std.specs.Prelude.{◌≡◌, ◌++◌, IfOk, OnOk};
ghost use Rattle.std.specs.List.{list_any};
ghost use Rattle.client_shared.specs.History.{row_of};
ghost use Rattle.dns_script.specs.TraceText.{has_stale};
ghost use Rattle.dnsq_many.specs.Lanes.{first_line, entry_text, many_text_of};

use client_request::{Out, Row};
use client_shared::{Entry, Journal};
use dns_base::NoMemory;
use dns_script::{end_trace, push_row};
use std::alloc::Global;

/// Adds whose an entry is, and then its row.
fn push_entry(alloc: Global, text: &mut Vec<u8>, entry: Entry) -> Result<(), NoMemory>
    ensures { OnOk result (text.new.items ≡ text.old.items ++ entry_text entry) }
{
    let caller = entry.caller;
    let whose = format!(in alloc; "lane {caller} ")?;
    text.extend_from_slice(whose.as_bytes())?;
    let row = Row {
        event: entry.event,
        outs: entry.outs,
    };
    push_row(text, &row)
}

/// Whether an entry says that a reply is stale.
fn has_stale(entry: &Entry) -> bool
    ensures { result ≡ has_stale (row_of entry.now) }
{
    entry.outs.as_slice().iter().any(|out| match out {
        Out::Stale { request: _ } => true,
        _ => false,
    })
}

fn have_stale(entries: &[Entry]) -> bool
    ensures { result ≡ list_any (λ e. has_stale (row_of e)) entries.now }
{
    entries.iter().any(|entry| has_stale(entry))
}

/// The text of a journal before its entries, one of which says that a reply is stale, or none.
fn begun(alloc: Global, is_stale: bool) -> Result<Vec<u8>, NoMemory>
    ensures { IfOk result (λ v. v.items ≡ first_line is_stale) }
{
    let mut text = Vec::new(alloc);
    if is_stale {
        text.extend_from_slice(b"many 2\n")?;
    } else {
        text.extend_from_slice(b"many 1\n")?;
    }
    Ok(text)
}

/// The text of a journal: the line `many 2` where a reply is stale and else `many 1`, each entry behind the number of its lane, and the line `end`. Each entry is let go
/// as soon as it is written.
///
/// `NoMemory` where memory runs out.
pub fn many_text(alloc: Global, journal: Journal) -> Result<Vec<u8>, NoMemory>
    ensures { IfOk result (λ v. v.items ≡ many_text_of journal) }
{
    let mut text = begun(alloc, have_stale(journal.as_slice()))?;
    for entry in journal.into_vec() {
        push_entry(alloc, &mut text, entry)?;
    }
    end_trace(&mut text)?;
    Ok(text)
}
