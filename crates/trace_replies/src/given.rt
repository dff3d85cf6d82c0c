//! What replies gave: whether a message came for its request in a row, and the earlier replies that a later request may share,
//! by what they answer.
//!
//! Whether a message came for its request in a row is decided both ways; earlier replies are kept by question, newest
//! first. By `came_for`, `Earliers`.
//!
//! `Earliers` keeps of fresh replies and of errors by their own cause those whose requests may share them, by question:
//! under the key without AD, DO and RD. `earlier_replies_go_on` says that it has just these; that a reply is fresh, or an
//! error's cause its own, is told where it is put (`IsTold`). It goes on over the event of a row where what was given was
//! given to requests that were asked (`EachWasAsked`), as it is behind rows that are right. `came_for` says whether a
//! message came for a request in a row and matches it (`TellsCame`). `is_view`, `is_supplied` and `is_kept_error` go over
//! the replies to one question, the newest first, up to the first that is too old for any use, and say both ways whether
//! one of them gives a message as its view, as what it says when it has expired, or an error (`IsView`, `IsSupplied`,
//! `IsKeptError`). The most that this costs is one composing and comparing for each earlier reply to the same question that
//! is still within the greatest validity; flags that don't cover, errors and requests that were asked later cost nothing.

mod asks;
mod coming;
mod earlier;
mod laws;

pub use asks::{Asks, asks_of};
pub use coming::came_for;
pub use earlier::{Earlier, Earliers};
pub use laws::earlier_replies_go_on;
