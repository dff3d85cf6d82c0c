//! Whether a stream place may be opened.

ghost use Rattle.std.specs.Prelude.{◌≡◌};
ghost use Rattle.number_table.specs.Entries.{entry_at};
ghost use Rattle.trace_tables.specs.sets.Sets.{members, some_of};
ghost use Rattle.trace_outs.specs.loads.Opening as plain;

use crate::loads::held::Held;
use crate::loads::loads::Loads;
use number_table::NumberTable;
use trace_tables::sets::Members;
use trace_tables::{Place, Stand};

/// Whether a place is in the way of another: it opens, or it is alive and not all its ids are held.
fn blocks(places: &NumberTable<Place>, held: &Held, number: u64) -> bool
    ensures { result ≡ plain.blocks_at places.now held.now number }
{
    match places.get(number) {
        None => false,
        Some(place) => match place.stand {
            Stand::Opening => true,
            Stand::Alive => !held.is_full(number),
            Stand::Gone => false,
        },
    }
}

/// Whether one of these is.
fn some_blocks(places: &NumberTable<Place>, held: &Held, numbers: &Members) -> bool
    ensures { result ≡ some_of (plain.blocks_at places.now held.now) numbers.now }
{
    for (number, _) in numbers {
        if blocks(places, held, number) {
            return true;
        }
    }
    false
}

/// The same of a server's live stream places.
fn some_blocks_at(places: &NumberTable<Place>, loads: &Loads, held: &Held, server: u32) -> bool
    ensures { result ≡ some_of (plain.blocks_at places.now held.now) (members server loads.now.streams) }
{
    match loads.streams.get(u64::from(server)) {
        None => false,
        Some(numbers) => some_blocks(places, held, numbers),
    }
}

/// Whether a stream place may be opened to a server: none of the server opens, and each that is alive holds all ids. It goes
/// over the server's live stream places.
pub fn may_open_stream(places: &NumberTable<Place>, loads: &Loads, held: &Held, server: u32) -> bool
    ensures value { result ≡ plain.may_open_seen server places.now loads.now held.now }
    ensures told { plain.TellsOpenStream server places.now loads.now held.now result }
{
    !some_blocks_at(places, loads, held, server)
}
