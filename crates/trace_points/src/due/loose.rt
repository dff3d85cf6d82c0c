//! Places whose last frame left something unwritten, or had an id that nothing held.

ghost use Rattle.std.specs.Prelude.{◌≡◌, ◌&&◌, ◌||◌, ◌==◌, not, nat_lt, length, OnOk};
ghost use Rattle.dns_base.specs.Header.{id_of};
ghost use Rattle.trace_tables.specs.frames.Frames.{frames_of};
ghost use Rattle.number_table.specs.Entries.{puts};
ghost use Rattle.trace_points.specs.due.Loose as plain;

use dns_base::{NoMemory, Octets};
use number_table::NumberTable;
use trace_tables::frames::{Brought, Ledger, Waiting, is_free};
use trace_tables::writes::Writing;

/// Whether it was so, by place, in the row of the last frame there before the newest row.
pub type Loose = NumberTable<bool>;

/// The id of a frame, of which as much is read as there is.
pub(crate) fn id_of(frame: &[u8]) -> u16
    ensures { result ≡ id_of frame.now }
{
    match frame {
        [] => 0,
        [high] => u16::from_be_bytes([*high, 0]),
        [high, low, ..] => u16::from_be_bytes([*high, *low]),
    }
}

/// Whether a frame with a whole header among these has an id.
pub(crate) fn brings(id: u64, frames: &[Octets]) -> bool
    ensures { result ≡ plain.brings_seen id frames.now }
{
    for frame in frames {
        let octets = frame.as_slice();
        if octets.len() >= 12 && u64::from(id_of(octets)) == id {
            return true;
        }
    }
    false
}

/// Whether something is unwritten at a place, or a frame had an id that nothing held behind others.
fn is_loose_behind(
    before: &[Octets],
    last: &Octets,
    place: u64,
    waiting: &Waiting,
    writing: &Writing,
) -> bool
    ensures { result ≡ plain.loose_behind before.now last.now place waiting.now writing.now }
{
    let id = id_of(last.as_slice());
    writing.is_unwritten(place) || brings(u64::from(id), before) || is_free(waiting, place, id)
}

/// Whether frames of a row left something unwritten at a place, or the last of them had an id that nothing held.
#[tactic(auto, using(crate::proofs::lemmas::due::Waits::loose_split))]
fn is_loose_end(frames: &[Octets], place: u64, waiting: &Waiting, writing: &Writing) -> bool
    ensures { result ≡ plain.loose_end frames.now place waiting.now writing.now }
{
    match frames.split_last() {
        None => false,
        Some((last, before)) => is_loose_behind(before, last, place, waiting, writing),
    }
}

fn note(loose: &mut Loose, place: u64, is_loose: bool) -> Result<(), NoMemory>
    ensures { OnOk result (loose.new ≡ puts place is_loose loose.old) }
{
    if loose.insert(place, is_loose).is_err() {
        return Err(NoMemory);
    }
    Ok(())
}

/// A row is over, and what it brought is taken.
pub(crate) fn meet_loose(
    loose: &mut Loose,
    before: &Option<Brought>,
    waiting: &Waiting,
    writing: &Writing,
) -> Result<(), NoMemory>
    ensures { OnOk result (loose.new ≡ plain.met before.now waiting.now writing.now loose.old) }
{
    let Some(brought) = before else {
        return Ok(());
    };
    let frames = brought.frames.as_slice();
    if frames.is_empty() {
        return Ok(());
    }
    let is_loose = is_loose_end(frames, brought.place, waiting, writing);
    note(loose, brought.place, is_loose)
}

/// The frames that the newest row brought to a place.
pub(crate) fn frames_at(brought: &Option<Brought>, place: u64) -> &[Octets]
    ensures { result.now ≡ frames_of place brought.now }
{
    match brought {
        None => &[],
        Some(brought) => {
            if brought.place == place {
                brought.frames.as_slice()
            } else {
                &[]
            }
        }
    }
}

/// Whether it is so in the row of the last frame at a place.
pub(crate) fn ends_loose(loose: &Loose, place: u64, ledger: &Ledger, writing: &Writing) -> bool
    ensures { result ≡ plain.ends_loose_seen place ledger.now writing.now loose.now }
{
    let frames = frames_at(&ledger.frames.brought, place);
    if !frames.is_empty() {
        return is_loose_end(frames, place, &ledger.waiting, writing);
    }
    match loose.get(place) {
        None => false,
        Some(is_loose) => *is_loose,
    }
}
