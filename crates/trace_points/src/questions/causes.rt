//! Why a request gets an error.

ghost use Rattle.std.specs.Prelude.{◌≡◌};
ghost use Rattle.trace_points.specs.questions.Causes as plain;
ghost use Rattle.number_table.specs.Entries.{entry_at};

use client_request::{Fault, Via, What};
use number_table::NumberTable;
use trace_tables::{Place, Requests, Stand};

/// Whether a place was opening before the row, or the row itself opened it and it failed.
fn was_opening(past: &NumberTable<Place>, number: u64, here: &Place) -> bool
    ensures { result ≡ plain.was_opening (entry_at number past.now) here.now.stand }
{
    match past.get(number) {
        None => matches!(here.stand, Stand::Gone),
        Some(place) => matches!(place.stand, Stand::Opening),
    }
}

/// The fault of an opening that a request may be told of, in a row with this event: what was known of places before the row,
/// what is known here, and what is known of requests.
pub fn opening_fault(
    past: &NumberTable<Place>,
    here: &NumberTable<Place>,
    requests: &Requests,
    what: &What,
    request: u64,
) -> Option<Fault>
    ensures { result ≡ plain.opening_fault past.now here.now requests.now request what.now }
{
    let What::OpenFailed {
        place: number,
        fault,
    } = what
    else {
        return None;
    };
    let place = here.get(*number)?;
    if was_opening(past, *number, place)
        && matches!(place.via, Via::Dgram)
        && requests.is_started(request, place.server, Via::Dgram)
    {
        Some(*fault)
    } else {
        None
    }
}
