//! When back-offs of requests by stream were begun at servers.

ghost use Rattle.std.specs.Prelude.{◌≡◌, OnOk, option_copied};
ghost use Rattle.number_table.specs.Entries.{entry_at};
ghost use Rattle.trace_outs.specs.busy.Backs as plain;

use crate::loads::Held;
use client_request::{Out, Via, What};
use dns_base::NoMemory;
use number_table::NumberTable;
use trace_tables::sets::Members;
use trace_tables::{Place, Stand};

/// By server, the latest moment, in microseconds, at which something made its requests by stream back off.
pub type Backs = NumberTable<u64>;

/// A server is noted at a moment, if so it is.
fn note(backs: &mut Backs, is_so: bool, server: u32, moment: u64) -> Result<(), NoMemory>
    ensures { OnOk result (backs.new ≡ plain.notes is_so server moment backs.old) }
{
    if is_so && backs.insert(u64::from(server), moment).is_err() {
        return Err(NoMemory);
    }
    Ok(())
}

/// A stream place fails to open.
fn fail(backs: &mut Backs, place: Option<&Place>, moment: u64) -> Result<(), NoMemory>
    ensures { OnOk result (backs.new ≡ plain.fails moment (option_copied place.entry) backs.old) }
{
    let Some(place) = place else {
        return Ok(());
    };
    let is_so = matches!(place.via, Via::Stream) && matches!(place.stand, Stand::Opening);
    note(backs, is_so, place.server, moment)
}

/// All ids of a place are held.
fn note_place(backs: &mut Backs, place: Option<&Place>, moment: u64) -> Result<(), NoMemory>
    ensures { OnOk result (backs.new ≡ plain.is_used moment (option_copied place.entry) backs.old) }
{
    let Some(place) = place else {
        return Ok(());
    };
    let is_so = matches!(place.via, Via::Stream) && matches!(place.stand, Stand::Alive);
    note(backs, is_so, place.server, moment)
}

fn note_all(
    backs: &mut Backs,
    places: &NumberTable<Place>,
    full: &Members,
    moment: u64,
) -> Result<(), NoMemory>
    ensures { OnOk result (backs.new ≡ plain.are_used moment places.now full.now backs.old) }
{
    for (number, _) in full {
        note_place(backs, places.get(number), moment)?;
    }
    Ok(())
}

/// Behind an event or an out the servers are noted of which a stream is alive with all ids held. It goes over such places alone.
pub fn note_used(
    backs: &mut Backs,
    places: &NumberTable<Place>,
    held: &Held,
    moment: u64,
) -> Result<(), NoMemory>
    ensures { OnOk result (backs.new ≡ plain.are_used moment places.now held.now.full backs.old) }
{
    note_all(backs, places, &held.full, moment)
}

/// A stream place fails to open as soon as it is opened.
fn open(
    backs: &mut Backs,
    places: &NumberTable<Place>,
    what: &What,
    number: u64,
    server: u32,
    moment: u64,
) -> Result<(), NoMemory>
    ensures { OnOk result (backs.new ≡ plain.opens what.now number server moment (entry_at number places.now) backs.old) }
{
    if places.contains_key(number) {
        return Ok(());
    }
    match what {
        What::OpenFailed { place, .. } => note(backs, *place == number, server, moment),
        _ => Ok(()),
    }
}

/// A place is closed, and ends badly or not.
fn close(
    backs: &mut Backs,
    place: Option<&Place>,
    is_bad: bool,
    moment: u64,
) -> Result<(), NoMemory>
    ensures { OnOk result (backs.new ≡ plain.closes is_bad moment (option_copied place.entry) backs.old) }
{
    let Some(place) = place else {
        return Ok(());
    };
    let is_so = matches!(place.via, Via::Stream) && !matches!(place.stand, Stand::Gone) && is_bad;
    note(backs, is_so, place.server, moment)
}

/// An event comes, at the moment that it is then, over the places as they were.
pub fn meet_backs(
    backs: &mut Backs,
    places: &NumberTable<Place>,
    what: &What,
    moment: u64,
) -> Result<(), NoMemory>
    ensures { OnOk result (backs.new ≡ plain.met what.now moment places.now backs.old) }
{
    match what {
        What::OpenFailed { place, .. } => fail(backs, places.get(*place), moment),
        _ => Ok(()),
    }
}

/// An out is put, over the places as they were, in a row with this event. Where it closes a place, it is said whether that ends
/// badly.
pub fn put_backs(
    backs: &mut Backs,
    places: &NumberTable<Place>,
    what: &What,
    out: &Out,
    is_bad: bool,
    moment: u64,
) -> Result<(), NoMemory>
    ensures { OnOk result (backs.new ≡ plain.has_put what.now out.now is_bad moment places.now backs.old) }
{
    match out {
        Out::OpenStream { place, server } => open(backs, places, what, *place, *server, moment),
        Out::Close { place } => close(backs, places.get(*place), is_bad, moment),
        _ => Ok(()),
    }
}
