//! Tables whose keys are numbers that are drawn in rising order.
//!
//! A table by number is a list of entries in rising order of keys, and each call is exact: what is put in, taken out, found
//! and first, and what a loop goes through; an insertion for which there is no memory gives its pair back and changes
//! nothing. By `NumberTable`.
//!
//! Plain machines keep tables by number (`Numbered`): ordered lists of pairs, with `puts`, `frees` and `entry_at`. The code
//! keeps them as `NumberTable` (`number_table`). A `NumberTable` is seen as such a list, and `Entries` has the same three
//! functions:
//!
//! - `insert` leaves `puts` and gives what stood there. Only a new key can fail, for want of memory: then the pair comes
//!   back and the list stays. `remove` gives `entry_at` and leaves `frees`, and where it gives nothing the list stays;
//!   `pop_first` parts the list at its first pair, `clear` leaves none; none of the three can fail. `get`, `contains_key`,
//!   `first`, `len` and `is_empty` are exact, and a loop over a table goes through the list in order.
//! - The entries stand in slots in rising order of keys. A key above all others goes to the end, an entry that is taken out
//!   leaves its slot empty, and empty slots go once they are more than half of more than 16. So it is quick where keys
//!   mostly rise and the least leave first. No bound on steps or on slots is claimed.
//!
//! # Why it is so
//!
//! - **Tables by number** are slots in rising order of keys and no ordered maps: tickets, places and timers rise, and
//!   mostly the least leave first. A search looks where the key is if it is the least, and where it is if each number
//!   behind it has a slot, before it halves the slots. Sets of tickets are ordered sets.
#![tactic(auto)]

mod entries;
mod slots;
mod table;

pub use entries::Entries;
pub use table::NumberTable;
