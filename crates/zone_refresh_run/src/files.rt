//! Files of zones that are kept.

ghost use Rattle.std.specs.Prelude.{IfOk, IfErr, IfSome};
ghost use Rattle.zone_refresh_run.specs.Files.{HasTimers, IsAt, RoseUnread, SaysTimers};

use crate::timers::timers_among;
use dns_base::{Name, ReadFault, read_to_end};
use resolv_conf::OpenFile;
use std::alloc::Global;
use zone_refresh::ZoneTimers;
use zone_text::zone_of;

/// Why there are no octets of a file.
#[derive(Clone, Copy)]
pub(crate) enum FileFault {
    /// It can't be read.
    Unread,
    NoMemory,
}

/// The octets of the file at a path.
pub(crate) fn octets_at<O: OpenFile>(
    alloc: Global,
    opener: &mut O,
    path: &str,
) -> Result<Vec<u8>, FileFault>
    ensures octets { IfOk result (λ v. IsAt path.now (O.files opener.old) v.items) }
    ensures unread { IfErr result (RoseUnread (O.faults opener.old) (O.faults opener.new)) }
{
    if opener.open_file(path).is_err() {
        return Err(FileFault::Unread);
    }
    match read_to_end(alloc, opener, usize::MAX) {
        Ok(octets) => Ok(octets),
        Err(ReadFault::Failed) => Err(FileFault::Unread),
        Err(ReadFault::TooLong | ReadFault::NoMemory) => Err(FileFault::NoMemory),
    }
}

/// The serial and the times of a zone, if these octets have it and there is memory.
fn timers_of_octets(alloc: Global, octets: &[u8], apex: &Name) -> Option<ZoneTimers>
    ensures { IfSome result (SaysTimers octets.now apex.now) }
{
    let own = apex.try_clone(alloc).ok()?;
    let zone = zone_of(alloc, octets, own).ok()?;
    timers_among(zone.records())
}

/// The serial and the times of the zone with this apex, if the file at a path has it and there is memory to read it.
pub fn held_at<O: OpenFile>(
    alloc: Global,
    opener: &mut O,
    apex: &Name,
    path: &str,
) -> Option<ZoneTimers>
    ensures { IfSome result (HasTimers apex.now path.now (O.files opener.old)) }
{
    let octets = octets_at(alloc, opener, path).ok()?;
    timers_of_octets(alloc, octets.as_slice(), apex)
}
