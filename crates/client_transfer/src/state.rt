//! The states of a transfer.

ghost use Rattle.std.specs.Prelude.{◌≡◌};
ghost use Rattle.client_transfer.specs.States.{kept_serial, next_state};

use crate::kind::RecordKind::{self, KeptSoa, NoSoa, OtherSoa};
use dns_base::Serial;

/// Where a transfer is: what was asked for, and what came of it. The serial is that of the first SOA,
/// with which a transfer ends too.
///
/// ```text
/// AxfrInit ── SOA ──► AxfrFirstSoa ── SOA with the kept serial ──► Done
///                          ▲
///                          │ another record
/// IxfrInit ── SOA ──► IxfrFirstSoa ── SOA with the kept serial ──► Done
///                          │ SOA with another serial                ▲
///                          ▼                                        │ SOA with the kept serial
///                    IxfrFirstDiffSoa ──── SOA ────► IxfrSecondDiffSoa
///                          ▲                                │
///                          └──── SOA with another serial ───┘
/// ```
///
/// In the three states where a zone's records are awaited another record changes nothing, and all else
/// is wrong, which leads to `Error`.
#[derive(Clone, Copy, Debug, PartialEq, Eq)]
pub enum XfrState {
    /// A whole zone was asked for, and no record came.
    AxfrInit,
    /// The records of a whole zone come.
    AxfrFirstSoa(Serial),
    /// The changes of a zone were asked for, and no record came.
    IxfrInit,
    /// One SOA came in answer to a request for changes.
    IxfrFirstSoa(Serial),
    /// The records that are deleted come.
    IxfrFirstDiffSoa(Serial),
    /// The records that are added come.
    IxfrSecondDiffSoa(Serial),
    /// The last record came.
    Done,
    /// A message was refused, and none is taken any more.
    Error,
}

impl XfrState {
    /// The serial of the first SOA, once there was one and as long as it counts.
    pub fn kept_serial(self) -> Option<Serial>
        ensures { result ≡ kept_serial self }
    {
        match self {
            XfrState::AxfrFirstSoa(kept)
            | XfrState::IxfrFirstSoa(kept)
            | XfrState::IxfrFirstDiffSoa(kept)
            | XfrState::IxfrSecondDiffSoa(kept) => Some(kept),
            XfrState::AxfrInit | XfrState::IxfrInit | XfrState::Done | XfrState::Error => None,
        }
    }

    /// The state after a record. None where the record is wrong there.
    pub(crate) fn after(self, kind: RecordKind) -> Option<XfrState>
        ensures { result ≡ next_state self kind }
    {
        match (self, kind) {
            (Self::AxfrInit, KeptSoa(serial)) => Some(Self::AxfrFirstSoa(serial)),
            (Self::AxfrInit, OtherSoa(serial)) => Some(Self::AxfrFirstSoa(serial)),
            (Self::AxfrInit, NoSoa) => None,

            (Self::AxfrFirstSoa(_), KeptSoa(_)) => Some(Self::Done),
            (Self::AxfrFirstSoa(_), OtherSoa(_)) => None,
            (Self::AxfrFirstSoa(kept), NoSoa) => Some(Self::AxfrFirstSoa(kept)),

            (Self::IxfrInit, KeptSoa(serial)) => Some(Self::IxfrFirstSoa(serial)),
            (Self::IxfrInit, OtherSoa(serial)) => Some(Self::IxfrFirstSoa(serial)),
            (Self::IxfrInit, NoSoa) => None,

            (Self::IxfrFirstSoa(_), KeptSoa(_)) => Some(Self::Done),
            (Self::IxfrFirstSoa(kept), OtherSoa(_)) => Some(Self::IxfrFirstDiffSoa(kept)),
            (Self::IxfrFirstSoa(kept), NoSoa) => Some(Self::AxfrFirstSoa(kept)),

            (Self::IxfrFirstDiffSoa(kept), KeptSoa(_)) => Some(Self::IxfrSecondDiffSoa(kept)),
            (Self::IxfrFirstDiffSoa(kept), OtherSoa(_)) => Some(Self::IxfrSecondDiffSoa(kept)),
            (Self::IxfrFirstDiffSoa(kept), NoSoa) => Some(Self::IxfrFirstDiffSoa(kept)),

            (Self::IxfrSecondDiffSoa(_), KeptSoa(_)) => Some(Self::Done),
            (Self::IxfrSecondDiffSoa(kept), OtherSoa(_)) => Some(Self::IxfrFirstDiffSoa(kept)),
            (Self::IxfrSecondDiffSoa(kept), NoSoa) => Some(Self::IxfrSecondDiffSoa(kept)),

            (Self::Done | Self::Error, _) => None,
        }
    }
}
