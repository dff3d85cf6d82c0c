//! Causes of errors in a trace: why a request gets each error, in a row or in one before, and what a forward pass keeps for that.
//!
//! Whether the first final message that comes and matches is the reply at once stands in `promptness`; what servers still owe a request in `owed`;
//! whether an error has a cause of its own, where it may be deferred, in `deferred`.
//!
//! Whether an error of a request has a cause that is no kept error, in a row or, where it is deferred, in a row before, is
//! decided both ways for every error; what is kept for that of rows that are right is what the definitions say. By
//! `direct_cause`, `server_cause`, `Earlier`, `earlier_goes_on`.
//!
//! `Earlier` has what is kept of rows that are done for deferred errors: `Openings` which openings failed at a server, and
//! in which row, and in which row it got each request by datagrams; `Noted` the other errors that servers gave a request,
//! where their cause may be gone later; `Arrivals` for whom a message came that may not be passed over, and for whom one
//! that is deferred and has no validity. Each is what the definitions say, before the first row and behind each row that is
//! right (`earlier_goes_on`), and no row walks over all requests or all places: of the openings that failed at a server
//! with a fault the newest row is kept. `Earlier::was_caused` tells whether a server gave an error in such a row
//! (`TellsEarlier`), and `direct_cause` decides `DirectCause` both ways for every error (`TellsDirect`). `are_all_done`
//! decides `AllAreDone` (`TellsDone`) by one walk over where the request was sent and written, which `Exchanged` keeps, and
//! `own_cause` decides `OwnCause` (`TellsOwn`). Kept errors are not decided here.
#![tactic(auto)]

mod arrivals;
pub mod deferred;
mod direct;
mod earlier;
mod failing;
mod failures;
mod laws;
mod noted;
mod openings;
pub mod owed;
pub mod promptness;

pub use arrivals::{Arrivals, is_excused, is_unkept, matches};
pub use direct::{direct_cause, is_asked_here};
pub use earlier::Earlier;
pub use failing::Failing;
pub use failures::server_cause;
pub use laws::earlier_goes_on;
pub use noted::{Noted, is_noted, note_row};
pub use openings::{Begun, Openings, Refused};
