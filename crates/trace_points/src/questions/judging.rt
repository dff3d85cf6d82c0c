//! The least row at which a reply stands to a request that was not asked, or has one.

ghost use Rattle.std.specs.Prelude.{◌≡◌, ◌&&◌, IfOk, OnOk};
ghost use Rattle.trace_tables.specs.Books as tables;
ghost use Rattle.trace_points.specs.questions.Judging as plain;
ghost use Rattle.trace_points.specs.questions.Judging.{IsVerdict};

use crate::questions::outs::is_first;
use client_request::{Out, Row, What};
use dns_base::NoMemory;
use std::alloc::Global;
use trace_tables::Books;

/// Whether an out is no reply, or the first to a request that was asked.
fn is_out_first(books: &Books, out: &Out) -> bool
    ensures { result ≡ plain.out_first out.now books.now }
{
    match out {
        Out::Reply { request, .. } => is_first(books, *request),
        _ => true,
    }
}

/// Whether each reply among outs is the first; the outs are put.
fn judge_outs(alloc: Global, books: &mut Books, what: &What, outs: &[Out]) -> Result<bool, NoMemory>
    ensures right { IfOk result (λ right. right ≡ plain.outs_first what.now outs.now books.old) }
    ensures stands { OnOk result (books.new ≡ tables.have_put what.now outs.now books.old) }
{
    let mut right = true;
    for out in outs {
        right = right && is_out_first(books, out);
        books.put(alloc, what, out)?;
    }
    Ok(right)
}

/// Whether each reply of a row is the first; the row is taken.
fn judge_row(alloc: Global, books: &mut Books, row: &Row) -> Result<bool, NoMemory>
    ensures right { IfOk result (λ right. right ≡ plain.row_first row.now books.old) }
    ensures stands { OnOk result (books.new ≡ tables.after_row row.now books.old) }
{
    books.meet(alloc, &row.event)?;
    judge_outs(alloc, books, &row.event.what, row.outs.as_slice())
}

/// The first row that is judged so.
fn find(alloc: Global, rows: &[Row]) -> Result<Option<usize>, NoMemory>
    ensures { IfOk result (λ least. least ≡ plain.least_from 0 rows.now tables.nothing) }
{
    let mut books = Books::new(alloc);
    for (i, row) in rows.iter().enumerate() {
        if !judge_row(alloc, &mut books, row)? {
            return Ok(Some(i));
        }
    }
    Ok(None)
}

/// The least row of a trace at which a reply is not the first to a request that was asked.
#[tactic(auto, using(crate::proofs::lemmas::questions::Verdicts::verdict))]
pub fn first_replied_again(alloc: Global, rows: &[Row]) -> Result<Option<usize>, NoMemory>
    ensures { IfOk result (λ least. IsVerdict rows.now least) }
{
    find(alloc, rows)
}
