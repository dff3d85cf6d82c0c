//! What a record is to a transfer.

ghost use Rattle.std.specs.Prelude.{◌≡◌};
ghost use Rattle.dns_base.specs.RecordData.{data_view};
ghost use Rattle.client_transfer.specs.States.{soa_kind, kind_of};

use crate::state::XfrState;
use dns_base::{RecordData, Serial};

/// What a record is to a transfer.
#[derive(Clone, Copy, Debug, PartialEq, Eq)]
pub enum RecordKind {
    /// An SOA with the serial of the first one.
    KeptSoa(Serial),
    /// An SOA with another serial, or the first one.
    OtherSoa(Serial),
    /// Any other record.
    NoSoa,
}

/// Why the records of a message are refused.
#[derive(Clone, Copy, Debug, PartialEq, Eq)]
pub enum Refusal {
    /// The section isn't found, or a record can't be read, its data included: the transfer ends.
    Unreadable,
    /// A record stands where it can't: the sender may be out of step, and the transfer goes on.
    Wrong,
}

fn soa_kind(kept: Option<Serial>, serial: Serial) -> RecordKind
    ensures { result ≡ soa_kind kept serial }
{
    match kept {
        None => RecordKind::OtherSoa(serial),
        Some(kept) => {
            if kept == serial {
                RecordKind::KeptSoa(serial)
            } else {
                RecordKind::OtherSoa(serial)
            }
        }
    }
}

/// What a record is at a state, by its data.
pub(crate) fn kind_of(state: XfrState, content: &RecordData<'_>) -> RecordKind
    ensures { result ≡ kind_of state (data_view content.now) }
{
    match content {
        RecordData::Soa { serial, .. } => soa_kind(state.kept_serial(), *serial),
        _ => RecordKind::NoSoa,
    }
}
