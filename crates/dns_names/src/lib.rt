//! Domain names: owned, and as they stand in a message (RFC 1035 3.1 and 4.1.4).
//!
//! A name in a message is what RFC 1035 4.1.4 says, both ways; texts are read exactly, `Long` only where the grammar holds,
//! and printed so that they are read back; equality ignores case and agrees with the hash. By `name_laws`, `grammar_laws`,
//! `text_laws`, `Name::from_text`.
//!
//! - `Name::lower` leaves the name in lower case (`lowered`), `Name::respell` the one that octets spell, or the root where
//!   memory is wanting.
//!
//! # Why it is so
//!
//! - **An owned name has room for 32 octets at first.** Most names have fewer, and so take memory once, in place of once
//!   more each time that they double.
#![tactic(auto)]

mod draft;
mod fault;
mod fault_text;
mod laws;
mod name;
mod owned;
mod relative;
mod reverse;
mod show;
mod text;

pub use fault::{ChainFault, NameFault};
pub use laws::{grammar_laws, name_is_read_back, name_laws, relative_name_is_read_back, text_laws};
pub use name::{LabelIter, ParsedName};
pub use owned::{Name, ToName, are_same_labels, is_same_name};
pub use relative::RelativeName;
