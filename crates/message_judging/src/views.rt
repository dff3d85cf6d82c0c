//! What messages say: whether two say the same, and whether one is what another says to a later request.
//!
//! Whether two messages are read by type and say the same but for the case of names, and whether one is the valid view of a
//! kept one for a later request at an age, or what that says when it has expired, are decided both ways. By
//! `is_same_message`, `Served::is_view`, `Served::is_stale`.
//!
//! `is_same_message` says whether two messages are read by type and say the same but for the case of names (`TellsSame`),
//! by one walk over both. Of a message that was kept, `Served::is_view` says whether another is its valid view for a later
//! request at an age (`TellsView`), and `Served::is_stale` whether it is what the kept one says when it has expired
//! (`TellsStale`): the view is composed by `cache_rules` once for its validity and once for its age, and compared.

mod same;
mod serving;

pub use same::is_same_message;
pub use serving::{Flags, Served, is_kept, validity_of};
