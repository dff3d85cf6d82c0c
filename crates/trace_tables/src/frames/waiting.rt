//! What was written to streams and waits for a frame with its id.

ghost use Rattle.std.specs.Prelude.{◌≡◌, [], OnOk};
ghost use Rattle.number_table.specs.Entries.{frees, puts};
ghost use Rattle.trace_tables.specs.Lists.{listed};
ghost use Rattle.trace_tables.specs.frames.Waiting as plain;

use crate::frames::frames::Brought;
use crate::{Newest, add};
use client_request::Out;
use dns_base::{NoMemory, Octets};
use number_table::NumberTable;
use std::alloc::Global;
use std::marker::Model;

/// What was written: of which request, as what, and when, in microseconds.
pub struct Written {
    pub request: u64,
    pub octets: Octets,
    pub moment: u64,
}

impl Drop for Written {
    fn drop(self) {
        let Written {
            request: _,
            octets: _,
            moment: _,
        } = self;
    }
}

impl Model for Written {
    ghost use Rattle.right_trace.specs.Writes as writes;

    ghost Value = { writes.Written };

    ghost view = { λ w. record { request = w.request; octets = w.octets; moment = w.moment } };
}

/// By id, what waits at one place.
pub type AtPlace = NumberTable<Newest<Written>>;

/// What waits, by place and id; the frames of the newest row are not counted.
pub type Waiting = NumberTable<AtPlace>;

/// The id of a frame that has a whole header.
fn id_of(frame: &[u8]) -> Option<u16>
    ensures { result ≡ plain.id_read frame.now }
{
    if frame.len() < 12 {
        return None;
    }
    Some(u16::from_be_bytes([frame[0], frame[1]]))
}

/// Frames free their ids.
fn free(waiting: &mut AtPlace, alloc: Global, frames: &[Octets]) -> Result<(), NoMemory>
    ensures { OnOk result (waiting.new ≡ plain.freed_by frames.now waiting.old) }
{
    for frame in frames {
        if let Some(id) = id_of(frame.as_slice()) {
            if waiting.insert(u64::from(id), Newest::new(alloc)).is_err() {
                return Err(NoMemory);
            }
        }
    }
    Ok(())
}

/// What waits at a place is taken out.
fn take_place(waiting: &mut Waiting, alloc: Global, place: u64) -> AtPlace
    ensures taken { result ≡ listed place waiting.old }
    ensures left { waiting.new ≡ frees place waiting.old }
{
    match waiting.remove(place) {
        Some(at) => at,
        None => NumberTable::new(alloc),
    }
}

/// What waits at a place is put there.
fn put_place(waiting: &mut Waiting, place: u64, at: AtPlace) -> Result<(), NoMemory>
    ensures { OnOk result (waiting.new ≡ puts place at waiting.old) }
{
    if waiting.insert(place, at).is_err() {
        return Err(NoMemory);
    }
    Ok(())
}

/// A row begins, and what the one before brought frees ids.
pub fn meet_frames(
    waiting: &mut Waiting,
    alloc: Global,
    before: &Option<Brought>,
) -> Result<(), NoMemory>
    ensures { OnOk result (waiting.new ≡ plain.met before.now waiting.old) }
{
    let Some(brought) = before else {
        return Ok(());
    };
    let mut at = take_place(waiting, alloc, brought.place);
    free(&mut at, alloc, brought.frames.as_slice())?;
    put_place(waiting, brought.place, at)
}

/// Something is written at a place under an id.
fn write(
    waiting: &mut Waiting,
    alloc: Global,
    place: u64,
    id: u16,
    written: Written,
) -> Result<(), NoMemory>
    ensures { OnOk result (waiting.new ≡ plain.writes place id written waiting.old) }
{
    let mut at = take_place(waiting, alloc, place);
    add(&mut at, alloc, u64::from(id), written)?;
    put_place(waiting, place, at)
}

/// An out is put, at a moment.
pub fn put_write(
    waiting: &mut Waiting,
    alloc: Global,
    moment: u64,
    out: &Out,
) -> Result<(), NoMemory>
    ensures { OnOk result (waiting.new ≡ plain.has_put out.now moment waiting.old) }
{
    match out {
        Out::Write {
            place,
            request,
            id,
            octets,
        } => {
            let written = Written {
                request: *request,
                octets: octets.try_clone()?,
                moment,
            };
            write(waiting, alloc, *place, *id, written)
        }
        _ => Ok(()),
    }
}

/// Whether nothing waits under an id.
fn is_free_at(at: &AtPlace, id: u16) -> bool
    ensures { result ≡ plain.is_empty (listed id at.now) }
{
    match at.get(u64::from(id)) {
        None => true,
        Some(list) => list.is_empty(),
    }
}

/// Whether nothing waits at a place under an id.
pub fn is_free(waiting: &Waiting, place: u64, id: u16) -> bool
    ensures { result ≡ plain.free_seen place id waiting.now }
{
    match waiting.get(place) {
        None => true,
        Some(at) => is_free_at(at, id),
    }
}
