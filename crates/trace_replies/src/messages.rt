//! Whether a message that is put as a reply is right: fresh, the view of an earlier one, or stale.
//!
//! Whether a message is right as a reply is decided both ways: fresh, the view of an earlier one, or stale. By
//! `Place::judge`.
//!
//! `Place::judge` decides `MessageIsRight` of a message where it is put, both ways, and says whether it is fresh
//! (`IsJudged`). Three things are told to it: whether an error had its own cause before a mark, whether a deferred message
//! came in an earlier row, and whether a deferred one may be given at all. `Firsts` keeps of each request the messages that
//! came in rows that are done, and which of them were the first; `came_earlier` and `came_first` decide the second and a
//! part of the third (`CameFirst`).

mod message;

pub use message::{Judged, Place, Told};
