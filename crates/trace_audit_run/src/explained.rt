//! What is missing at the row that is told, in words.

ghost use Rattle.std.specs.Prelude.{◌≡◌, ◌++◌, OnOk, IfOk};
ghost use Rattle.trace_audit_run.specs.Lines as plain;

use crate::missing_line::{push_late, push_missing};
use client_request::Row;
use dns_values::NoMemory;
use std::alloc::Global;
use trace_judge::Verdict;

/// Adds what is missing where a trace is wrong, or where it is not timely, as a line.
fn push_explained(
    alloc: Global,
    text: &mut Vec<u8>,
    verdict: Verdict,
    untimely: Option<u64>,
    rows: &[Row],
) -> Result<(), NoMemory>
    ensures { OnOk result (text.new.items ≡ text.old.items ++ plain.explained verdict untimely rows.now) }
{
    match verdict {
        Verdict::Wrong { clause, row } => push_missing(alloc, text, clause, rows, row),
        Verdict::Right => match untimely {
            None => Ok(()),
            Some(row) => push_late(alloc, text, rows, row),
        },
    }
}

/// The line that says what is missing, where that is asked; else nothing.
pub(crate) fn explained(
    alloc: Global,
    explain: bool,
    verdict: Verdict,
    untimely: Option<u64>,
    rows: &[Row],
) -> Result<Vec<u8>, NoMemory>
    ensures { IfOk result (λ v. v.items ≡ plain.explained_if explain verdict untimely rows.now) }
{
    let mut text = Vec::new(alloc);
    if explain {
        push_explained(alloc, &mut text, verdict, untimely, rows)?;
    }
    Ok(text)
}
