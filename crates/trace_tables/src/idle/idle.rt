//! How long stream places may be idle: what their servers told last, else the usual time.

ghost use Rattle.std.specs.Prelude.{◌≡◌, OnOk};
ghost use Rattle.number_table.specs.Entries.{puts};
ghost use Rattle.trace_tables.specs.idle.Idle as plain;

use crate::frames::Brought;
use crate::idle::keepalive::last_told;
use dns_base::{Duration, NoMemory};
use number_table::NumberTable;

/// Lengths of time, by place; the frames of the newest row are not counted.
pub type Idle = NumberTable<Duration>;

/// How long a place may be idle: the usual time where its server told none.
pub fn idle_of(usual: Duration, idle: &Idle, place: u64) -> Duration
    ensures { result ≡ plain.idle_seen usual place idle.now }
{
    match idle.get(place) {
        None => usual,
        Some(time) => *time,
    }
}

fn note(idle: &mut Idle, place: u64, time: Duration) -> Result<(), NoMemory>
    ensures { OnOk result (idle.new ≡ puts place time idle.old) }
{
    if idle.insert(place, time).is_err() {
        return Err(NoMemory);
    }
    Ok(())
}

/// A row begins, and what the one before brought is taken.
pub fn meet_idle(usual: Duration, idle: &mut Idle, before: &Option<Brought>) -> Result<(), NoMemory>
    ensures { OnOk result (idle.new ≡ plain.met usual before.now idle.old) }
{
    let Some(brought) = before else {
        return Ok(());
    };
    let time = idle_of(usual, idle, brought.place);
    let time = last_told(brought.frames.as_slice(), time)?;
    note(idle, brought.place, time)
}
