//! What octets carry, and what messages say: whether octets carry a request, and whether a message answers it.
//!
//! Whether octets carry a request under an id, by datagram or stream, and whether a message answers it, are decided both
//! ways. By `carries`, `carrying_is_decided`, `answers_are_decided`.
//!
//! `carries` says of octets and a request whether those carry this under an id, by datagram or by stream. The answer is a
//! test (`carries_by`), and `carrying_is_decided` says both ways that it is `CarriesBy` of `right_trace`: the records are
//! compared where they lie, names without case and data by its type (`Shape`, the parts of data), and nothing is copied but
//! the options to which the empty option 11 is added. `is_answer_to` is `answers` (`answers_are_decided`).
//!
//! # Why it is so
//!
//! - **Data of records is compared by its parts** (`Shape`: kind, octets, five numbers, two names), from which the data is
//!   told back, so that two kinds are never compared with each other one by one.

mod carrying;
mod laws;
mod opt;
mod records;
mod shapes;

pub use carrying::{carries, is_answer_to};
pub use laws::{answers_are_decided, carrying_is_decided};
pub use shapes::is_same_data;
