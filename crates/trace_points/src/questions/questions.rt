//! Questions about all places, found by going through the table.

ghost use Rattle.std.specs.Prelude.{◌≡◌, ◌≤◌, ◌↔◌, true, IsTrue};
ghost use Rattle.trace_points.specs.questions.Searching as plain;
ghost use Rattle.number_table.specs.Entries.{entry_at};

use client_request::Via;
use number_table::NumberTable;
use trace_tables::{Place, Stand};

/// Whether a place is opening or alive.
pub fn is_live(places: &NumberTable<Place>, number: u64) -> bool
    ensures { result ≡ plain.live_seen (entry_at number places.now) }
{
    match places.get(number) {
        None => false,
        Some(place) => !matches!(place.stand, Stand::Gone),
    }
}

/// Whether a place is a stream to a server, and opening.
fn is_opening_stream(places: &NumberTable<Place>, server: u32, number: u64) -> bool
    ensures { result ≡ plain.opening_stream server (entry_at number places.now) }
{
    match places.get(number) {
        None => false,
        Some(place) => {
            matches!(place.via, Via::Stream)
                && place.server == server
                && matches!(place.stand, Stand::Opening)
        }
    }
}

/// Whether some stream to a server is opening.
pub fn some_stream_opens(places: &NumberTable<Place>, server: u32) -> bool
    ensures { result ≡ plain.some_entry (plain.opening_stream server) places.now places.now }
{
    for (number, _) in places {
        if is_opening_stream(places, server, number) {
            return true;
        }
    }
    false
}
