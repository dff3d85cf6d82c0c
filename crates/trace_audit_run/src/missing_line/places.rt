//! Which request was sent or written last at a place.

ghost use Rattle.std.specs.Prelude.{◌≡◌, None};
ghost use Rattle.trace_audit_run.specs.missing_line.Places as plain;

use client_request::{Out, Row};

/// The request that was sent or written last at a place, once this is put out.
fn last_with(place: u64, out: &Out, before: Option<u64>) -> Option<u64>
    ensures { result ≡ plain.last_with place out.now before }
{
    match out {
        Out::Send {
            place: at,
            request,
            ..
        }
        | Out::Write {
            place: at,
            request,
            ..
        } => { if *at == place { Some(*request) } else { before } }
        _ => before,
    }
}

/// The same once all of these are put out.
fn last_among(place: u64, outs: &[Out], before: Option<u64>) -> Option<u64>
    ensures { result ≡ plain.last_among place outs.now before }
{
    let mut last = before;
    for out in outs {
        last = last_with(place, out, last);
    }
    last
}

/// The request that was sent or written last at a place in these rows.
pub(crate) fn last_at(place: u64, rows: &[Row]) -> Option<u64>
    ensures { result ≡ plain.last_at place rows.now None }
{
    let mut last = None;
    for row in rows {
        last = last_among(place, row.outs.as_slice(), last);
    }
    last
}
