//! What is known of each place, by its number.

ghost use Rattle.std.specs.Prelude.{◌≡◌, OnOk, IfErr};
ghost use Rattle.trace_tables.specs.Tables as plain;
ghost use Rattle.number_table.specs.Entries.{entry_at};

use client_request::{Out, Via, What};
use dns_base::NoMemory;
use number_table::NumberTable;

/// How a place that was opened stands.
#[derive(Clone, Copy, Debug, PartialEq, Eq)]
pub enum Stand {
    Opening,
    Alive,
    Gone,
}

/// A place that an out opened.
#[derive(Clone, Copy, Debug, Drop)]
pub struct Place {
    pub via: Via,
    pub server: u32,
    pub stand: Stand,
}

/// How a place stands that is opened in a row with this event.
fn begun(what: &What, number: u64) -> Stand
    ensures { result ≡ plain.begun_stand what.now number }
{
    match what {
        What::Opened { place } => {
            if *place == number {
                Stand::Alive
            } else {
                Stand::Opening
            }
        }
        What::OpenFailed { place, .. } => {
            if *place == number {
                Stand::Gone
            } else {
                Stand::Opening
            }
        }
        _ => Stand::Opening,
    }
}

/// An out opens a place, if it was not opened before.
fn open(
    places: &mut NumberTable<Place>,
    what: &What,
    via: Via,
    server: u32,
    number: u64,
) -> Result<(), NoMemory>
    ensures { OnOk result (places.new ≡ plain.opens what.now via server number (entry_at number places.old) places.old) }
{
    if places.contains_key(number) {
        return Ok(());
    }
    let stand = begun(what, number);
    let place = Place { via, server, stand };
    if places.insert(number, place).is_err() {
        return Err(NoMemory);
    }
    Ok(())
}

/// A place that opens is alive, or has failed.
fn settle(places: &mut NumberTable<Place>, stand: Stand, number: u64) -> Result<(), NoMemory>
    ensures { OnOk result (places.new ≡ plain.settles stand number (entry_at number places.old) places.old) }
{
    let Some(place) = places.get(number) else {
        return Ok(());
    };
    let place = *place;
    if place.stand != Stand::Opening {
        return Ok(());
    }
    if places.insert(number, Place { stand, ..place }).is_err() {
        return Err(NoMemory);
    }
    Ok(())
}

/// A place is closed.
fn close(places: &mut NumberTable<Place>, number: u64) -> Result<(), NoMemory>
    ensures { OnOk result (places.new ≡ plain.closes number (entry_at number places.old) places.old) }
{
    let Some(place) = places.get(number) else {
        return Ok(());
    };
    let place = *place;
    if places
        .insert(
            number,
            Place {
                stand: Stand::Gone,
                ..place
            },
        )
        .is_err()
    {
        return Err(NoMemory);
    }
    Ok(())
}

/// What an event makes of the places.
pub fn meet(places: &mut NumberTable<Place>, what: &What) -> Result<(), NoMemory>
    ensures { OnOk result (places.new ≡ plain.met what.now places.old) }
{
    match what {
        What::Opened { place } => settle(places, Stand::Alive, *place),
        What::OpenFailed { place, .. } => settle(places, Stand::Gone, *place),
        _ => Ok(()),
    }
}

/// What an out makes of the places, in a row with this event.
pub fn put(places: &mut NumberTable<Place>, what: &What, out: &Out) -> Result<(), NoMemory>
    ensures { OnOk result (places.new ≡ plain.has_put what.now out.now places.old) }
{
    match out {
        Out::OpenDgram { place, server } => open(places, what, Via::Dgram, *server, *place),
        Out::OpenStream { place, server } => open(places, what, Via::Stream, *server, *place),
        Out::Close { place } => close(places, *place),
        _ => Ok(()),
    }
}
