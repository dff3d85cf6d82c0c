//! The list of the zones that are kept, as a file has it.

ghost use Rattle.std.specs.Prelude.{◌≡◌, ◌≢◌, ◌⊎◌, ◌<◌, length, IfOk, IfErr};
ghost use Rattle.command_parts.specs.Ends.{IsSaid};
ghost use Rattle.zone_refresh_run.specs.Listing as spec;
ghost use Rattle.zone_refresh_run.specs.Listing.{IsListed, IsUnlisted};
ghost use Rattle.zone_refresh_run.specs.Sentences.{unlisted_sentence};

use crate::files::{FileFault, octets_at};
use crate::sentences::unlisted_sentence;
use command_parts::{end_by, statuses};
use dns_base::{NoMemory, Sink, Status};
use resolv_conf::OpenFile;
use std::alloc::Global;
use zone_list::{ListFault, Listed, zones_of};

/// What is told where memory ran out.
pub(crate) const MEMORY: &[u8] = b"zone_fetch: memory ran out\n";

/// Why there is no list.
#[derive(Clone, Copy)]
pub(crate) enum Unlisted {
    /// There are no octets of its file.
    File(FileFault),
    /// They are no list.
    List(ListFault),
    /// The list names no zone.
    NoZone,
}

/// The zones that the list at a path names, one at least.
pub(crate) fn listed_at<O: OpenFile>(
    alloc: Global,
    opener: &mut O,
    path: &str,
) -> Result<Vec<Listed>, Unlisted>
    ensures zones { IfOk result (λ zones. IsListed path.now (O.files opener.old) zones.items) }
    ensures some { IfOk result (λ zones. 0 < length zones.items) }
    ensures fault { IfErr result (IsUnlisted path.now (O.files opener.old) (O.faults opener.old) (O.faults opener.new)) }
{
    let octets = match octets_at(alloc, opener, path) {
        Ok(octets) => octets,
        Err(fault) => return Err(Unlisted::File(fault)),
    };
    match zones_of(alloc, &octets) {
        Ok(zones) => {
            if zones.is_empty() {
                return Err(Unlisted::NoZone);
            }
            Ok(zones)
        }
        Err(fault) => Err(Unlisted::List(fault)),
    }
}

/// The status of that.
fn status_of(unlisted: Unlisted) -> Status
    ensures { result.0 ≡ spec.status_of unlisted }
{
    match unlisted {
        Unlisted::File(FileFault::Unread) => statuses::SOURCE_FAULT,
        Unlisted::List(ListFault::Wrong(_) | ListFault::TooLong) | Unlisted::NoZone => {
            statuses::REFUSED
        }
        Unlisted::File(FileFault::NoMemory) | Unlisted::List(ListFault::NoMemory) => {
            statuses::NO_MEMORY
        }
    }
}

/// Tells why there is no list.
pub(crate) fn tell_unlisted<L: Sink>(
    alloc: Global,
    path: &str,
    unlisted: Unlisted,
    errors: &mut L,
) -> Status
    ensures status { (result.0 ≡ spec.status_of unlisted) ⊎ (result.0 ≡ 6) }
    ensures said { result.0 ≢ 6 → IsSaid (unlisted_sentence path.now unlisted) (L.held errors.old) (L.held errors.new) (L.faults errors.old) (L.faults errors.new) }
{
    match unlisted_sentence(alloc, path, unlisted) {
        Ok(sentence) => end_by(errors, status_of(unlisted), sentence.as_bytes()),
        Err(NoMemory) => end_by(errors, statuses::NO_MEMORY, MEMORY),
    }
}
