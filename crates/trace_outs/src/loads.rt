//! What a forward pass over a trace keeps of servers: which places of each are live, which requests wait there, and which ids
//! are held; whether places are as many as they must be, and whether a stream may be opened.
//!
//! Which places of a server are live, which requests wait there and which ids are held is what the definitions say; whether
//! places are as many as they must be, and whether a stream may be opened, are decided both ways. By `Loads::are_met`,
//! `may_open_stream`, `Loads`, `Held`, `loads_go_on`, `held_goes_on`.
//!
//! `Loads` keeps by server which datagram and stream places are live and which requests wait there by datagram and not by
//! stream, as sets whose sizes are the counts of the definitions (`sets_go_on`), and notes each server whose places are not
//! as many as they must be: so `Loads::are_met` decides `PlacesAreMet` with no walk over servers (`TellsMet`). `Held` keeps
//! which ids are held at each place, and at which places all are. `may_open_stream` decides `MayOpenStream` by a walk over
//! the server's live streams (`TellsOpenStream`).

mod held;
mod laws;
mod loads;
mod opening;

pub use held::Held;
pub use laws::{held_goes_on, loads_go_on};
pub use loads::Loads;
pub use opening::may_open_stream;
