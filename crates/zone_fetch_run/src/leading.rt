//! Whether what a server sent leads on from a zone that has a serial.

ghost use Rattle.std.specs.Prelude.{◌≡◌, None, Some, if◌then◌else◌, ◌==◌};
ghost use Rattle.zone_fetch_run.specs.Leading as plain;

use dns_base::{Rcode, Serial};
use zone_records::XfrFault;
use zone_transfer::FetchFault;

/// Half of the number of serials (RFC 1982 3.2).
const HALF: u32 = 2_147_483_648;

/// Why the whole zone is asked for in place of its changes (RFC 1995 4).
#[derive(Clone, Copy)]
pub(crate) enum Detour {
    /// The server answered the request for changes with this response code.
    Refused(Rcode),
    /// It has no changes, and a zone of this serial.
    NoChanges(Serial),
    /// So many changes delete what is not there, or add what is.
    Misfits(u64),
}

/// Why a zone is left as it was.
#[derive(Clone, Copy)]
pub(crate) enum Left {
    /// Nothing was fetched.
    NotFetched(FetchFault),
    /// The server's zone has the serial of the one that is there.
    Unchanged(Serial),
    /// The server's zone has a serial that is not greater.
    NotNewer { have: Serial, got: Serial },
}

/// Whether a serial is greater than another (RFC 1982 3.2).
fn is_greater(serial: u32, than: u32) -> bool
    ensures { result ≡ plain.is_greater serial than }
{
    if than < serial {
        serial - than < HALF
    } else {
        HALF < than - serial
    }
}

fn judged(have: Serial, got: Serial) -> Result<(), Left>
    ensures { result ≡ plain.judged have got }
{
    if got.0 == have.0 {
        return Err(Left::Unchanged(have));
    }
    if is_greater(got.0, have.0) {
        Ok(())
    } else {
        Err(Left::NotNewer { have, got })
    }
}

/// Whether a zone of a serial is taken, where one with that serial is there already, or none.
pub(crate) fn judged_by(have: Option<Serial>, got: Serial) -> Result<(), Left>
    ensures { result ≡ plain.judged_by have got }
{
    match have {
        Some(have) => judged(have, got),
        None => Ok(()),
    }
}

fn course_to(end: Result<(), Left>, detour: Option<Detour>) -> Result<Option<Detour>, Left>
    ensures { result ≡ plain.course_to end detour }
{
    match end {
        Ok(()) => Ok(detour),
        Err(left) => Err(left),
    }
}

/// What comes of changes to a zone of a serial, of which so many do not fit the zone that is there.
pub(crate) fn course_of_changes(
    have: Serial,
    got: Serial,
    misfits: u64,
) -> Result<Option<Detour>, Left>
    ensures { result ≡ plain.course_of_changes have got misfits }
{
    if misfits == 0 {
        return course_to(judged(have, got), None);
    }
    course_to(judged(have, got), Some(Detour::Misfits(misfits)))
}

/// Whether the server knows no such request, does not serve it, or fails at it, where that counts.
fn is_unwilling(whole_at_servfail: bool, code: Rcode) -> bool
    ensures { result ≡ plain.is_unwilling whole_at_servfail code.0 }
{
    code == Rcode::FORMERR
        || code == Rcode::NOTIMP
        || code == Rcode::REFUSED
        || (whole_at_servfail && code == Rcode::SERVFAIL)
}

fn course_alone(have: Serial, fault: XfrFault) -> Result<Option<Detour>, Left>
    ensures { result ≡ plain.course_alone have fault }
{
    match fault {
        XfrFault::SingleSoa(got) => course_to(judged(have, got), Some(Detour::NoChanges(got))),
        fault => Err(Left::NotFetched(FetchFault::Xfr(fault))),
    }
}

/// What comes of a request for changes that were not fetched.
pub(crate) fn course_of_fault(
    whole_at_servfail: bool,
    have: Serial,
    fault: FetchFault,
) -> Result<Option<Detour>, Left>
    ensures { result ≡ plain.course_of_fault whole_at_servfail have fault }
{
    match fault {
        FetchFault::Refused(code) => {
            if is_unwilling(whole_at_servfail, code) {
                Ok(Some(Detour::Refused(code)))
            } else {
                Err(Left::NotFetched(FetchFault::Refused(code)))
            }
        }
        FetchFault::Xfr(fault) => course_alone(have, fault),
        fault => Err(Left::NotFetched(fault)),
    }
}
