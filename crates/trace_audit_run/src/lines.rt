//! The lines that are written.

ghost use Rattle.std.specs.Prelude.{◌≡◌, ◌++◌, IfOk, codes};
ghost use Rattle.std.specs.Fmt.{decimal};
ghost use Rattle.trace_audit_run.specs.Lines as plain;

use std::alloc::{AllocError, Global};
use trace_judge::Clause;

/// What is written where the words are not two.
pub(crate) const USAGE_LINE: &str = "usage: trace_audit SCRIPT TRACE\n";

/// What is written where a trace is right.
pub(crate) const RIGHT_LINE: &str = "right\n";

/// How a clause is called: `Events`, or `H1` to `H5` in the order in which they are asked.
pub(crate) fn name_of(clause: Clause) -> &'static str
    ensures { result.now ≡ plain.name_of clause }
{
    match clause {
        Clause::Events => "Events",
        Clause::Messages => "H1",
        Clause::Firsts => "H2",
        Clause::Causes => "H3",
        Clause::Orders => "H4",
        Clause::Prompts => "H5",
    }
}

/// A line, and what stands behind it.
fn joined(alloc: Global, line: &[u8], behind: &[u8]) -> Result<Vec<u8>, AllocError>
    ensures { IfOk result (λ v. v.items ≡ line.now ++ behind.now) }
{
    let mut text = Vec::from_slice(alloc, line)?;
    text.extend_from_slice(behind)?;
    Ok(text)
}

/// Which clause fails first, and where; and behind it what is missing there, if that is said.
pub(crate) fn wrong_line(
    alloc: Global,
    clause: Clause,
    row: u64,
    missing: &[u8],
) -> Result<Vec<u8>, AllocError>
    ensures { IfOk result (λ v. v.items ≡ plain.wrong_line clause row ++ missing.now) }
{
    let name = name_of(clause);
    let text = format!(in alloc; "wrong {name} row {row}\n")?;
    joined(alloc, text.as_bytes(), missing)
}

/// At which row the trace is not timely; and behind it what is missing there, if that is said.
pub(crate) fn untimely_line(alloc: Global, row: u64, missing: &[u8]) -> Result<Vec<u8>, AllocError>
    ensures { IfOk result (λ v. v.items ≡ plain.untimely_line row ++ missing.now) }
{
    let text = format!(in alloc; "untimely row {row}\n")?;
    joined(alloc, text.as_bytes(), missing)
}

/// At which row a request should have been answered from the cache.
pub(crate) fn missed_hit_line(alloc: Global, row: u64) -> Result<Vec<u8>, AllocError>
    ensures { IfOk result (λ v. v.items ≡ plain.missed_hit_line row) }
{
    let text = format!(in alloc; "missed hit row {row}\n")?;
    Vec::from_slice(alloc, text.as_bytes())
}

/// At which row a request was asked that what had expired should have served.
pub(crate) fn missed_stale_line(alloc: Global, row: u64) -> Result<Vec<u8>, AllocError>
    ensures { IfOk result (λ v. v.items ≡ plain.missed_stale_line row) }
{
    let text = format!(in alloc; "missed stale row {row}\n")?;
    Vec::from_slice(alloc, text.as_bytes())
}
