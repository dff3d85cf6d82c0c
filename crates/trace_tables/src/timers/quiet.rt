//! Since when stream places are quiet: the moment of the last frame, else of the opening.

ghost use Rattle.std.specs.Prelude.{◌≡◌, OnOk};
ghost use Rattle.right_trace.specs.Frames.{has_frame};
ghost use Rattle.number_table.specs.Entries.{entry_at, puts};
ghost use Rattle.trace_tables.specs.timers.Quiet as plain;

use crate::frames::Brought;
use crate::{Place, Stand};
use client_request::{Event, Out, What};
use dns_base::{NoMemory, Octets};
use number_table::NumberTable;

/// Moments in microseconds, by place; the frames of the newest row are not counted.
pub type Quiet = NumberTable<u64>;

fn note(quiet: &mut Quiet, place: u64, moment: u64) -> Result<(), NoMemory>
    ensures { OnOk result (quiet.new ≡ puts place moment quiet.old) }
{
    if quiet.insert(place, moment).is_err() {
        return Err(NoMemory);
    }
    Ok(())
}

fn has_frame(frames: &[Octets]) -> bool
    ensures { result ≡ has_frame frames.now }
{
    match frames.split_first() {
        None => false,
        Some(_) => true,
    }
}

/// A row is over, and what it brought is taken, at its moment.
fn take(quiet: &mut Quiet, before: &Option<Brought>, moment: u64) -> Result<(), NoMemory>
    ensures { OnOk result (quiet.new ≡ plain.taken before.now moment quiet.old) }
{
    let Some(brought) = before else {
        return Ok(());
    };
    if !has_frame(brought.frames.as_slice()) {
        return Ok(());
    }
    note(quiet, brought.place, moment)
}

/// An event tells that a place opened.
fn tell_opened(
    quiet: &mut Quiet,
    places: &NumberTable<Place>,
    place: u64,
    moment: u64,
) -> Result<(), NoMemory>
    ensures { OnOk result (quiet.new ≡ plain.opened_at place moment (entry_at place places.now) quiet.old) }
{
    let Some(known) = places.get(place) else {
        return Ok(());
    };
    if !matches!(known.stand, Stand::Opening) {
        return Ok(());
    }
    note(quiet, place, moment)
}

fn tell(
    quiet: &mut Quiet,
    places: &NumberTable<Place>,
    what: &What,
    moment: u64,
) -> Result<(), NoMemory>
    ensures { OnOk result (quiet.new ≡ plain.told what.now places.now moment quiet.old) }
{
    match what {
        What::Opened { place } => tell_opened(quiet, places, *place, moment),
        _ => Ok(()),
    }
}

/// An event comes, over the places as they were, what the row before brought, and its moment.
pub fn meet_quiet(
    quiet: &mut Quiet,
    places: &NumberTable<Place>,
    before: &Option<Brought>,
    moment: u64,
    event: &Event,
) -> Result<(), NoMemory>
    ensures { OnOk result (quiet.new ≡ plain.met event.now places.now before.now moment quiet.old) }
{
    take(quiet, before, moment)?;
    tell(quiet, places, &event.what, event.moment.0.max(moment))
}

/// A place is opened in a row with this event.
fn open(
    quiet: &mut Quiet,
    places: &NumberTable<Place>,
    what: &What,
    place: u64,
    moment: u64,
) -> Result<(), NoMemory>
    ensures { OnOk result (quiet.new ≡ plain.opens what.now place moment (entry_at place places.now) quiet.old) }
{
    if places.get(place).is_some() {
        return Ok(());
    }
    match what {
        What::Opened { place: told } => {
            if *told == place {
                note(quiet, place, moment)
            } else {
                Ok(())
            }
        }
        _ => Ok(()),
    }
}

/// An out is put in a row with this event, over the places as they were, at a moment.
pub fn put_quiet(
    quiet: &mut Quiet,
    places: &NumberTable<Place>,
    what: &What,
    moment: u64,
    out: &Out,
) -> Result<(), NoMemory>
    ensures { OnOk result (quiet.new ≡ plain.has_put what.now out.now places.now moment quiet.old) }
{
    match out {
        Out::OpenStream { place, .. } => open(quiet, places, what, *place, moment),
        _ => Ok(()),
    }
}

/// Since when a place is quiet, with frames of the newest row, at a moment.
pub fn quiet_since(quiet: &Quiet, place: u64, frames: &[Octets], moment: u64) -> u64
    ensures { result ≡ plain.quiet_counted place frames.now moment quiet.now }
{
    if has_frame(frames) {
        return moment;
    }
    match quiet.get(place) {
        None => 0,
        Some(since) => *since,
    }
}
