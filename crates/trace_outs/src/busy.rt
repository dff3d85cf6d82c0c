//! Why a request waits, and whether each valid request that waits is busy: what a forward pass over a trace keeps of requests
//! that wait and of back-offs, and the walk over those that wait.
//!
//! Whether each valid request that waits is busy is decided both ways; what is kept of back-offs and of requests that wait,
//! and what is noted of the octets by which they were sent or written, is what the definitions say. By
//! `Scene::are_waiting_busy`, `backs_go_on`, `waits_go_on`.
//!
//! `Waits` keeps the valid requests that have no reply, and where each was sent or written; `Backs` keeps by server the
//! latest moment at which its streams broke off (`backs_go_on`; the places at which all ids are held are gone over behind
//! each event and out, and no others). Behind a row `Scene::are_waiting_busy` decides `WaitingIsBusy` (`TellsBusy`) by one
//! walk over the requests that wait, each by its own servers and exchanges; those that have a reply are not gone over.

mod backs;
mod busy;
mod laws;
mod taken;
mod waits;

pub use backs::{Backs, meet_backs, note_used, put_backs};
pub use busy::Scene;
pub use laws::{backs_go_on, waits_go_on};
pub use waits::{Carried, Spot, Waits};
