//! Octets and the small values of the DNS: no messages and no names.
//!
//! Addresses, and types, classes and codes by their names, are read exactly by their grammar and printed so that they are
//! read back; errors print exact texts; sources and sinks tell what is left, held and handed on, a fault only where their
//! count rose; a read or write that a signal interrupted is tried again. By `IpAddr::from_text`, `address_laws`,
//! `Rtype::from_text`, `number_name_laws`, `Source`, `Sink`, `read_to_end`, `write_all`.
//!
//! - A type, class or code prints by its registered name, or by a word and its number (`TYPE123`), from one table
//!   (`NumberNames.antt`); `from_text` reads the name or the number, in any case, and nothing else (`number_of_text`).
//!   `number_name_laws`: what is printed is read as the same number.
//! - Each error is a `std::error::Error`, and what it prints is exact (`ErrorText.antt`, `FaultText.antt`).
//! - `decimal_number` reads digits alone, one or more, up to a greatest number that the caller names, and nothing else
//!   (`Decimal.antt`).
//! - `Seq` is a list of items of any type, which a contract sees as a list; it is made from a `Vec` and gives it back.
//! - `Source` and `Sink` tell what is left and what is held, where they know it (`left`, `held`), and a count of faults
//!   that never falls. A sink also tells what it handed on (`flushed`), where it knows it: after a `flush` that is Ok that
//!   is all that it holds (`IsFlushed`). `Failed` comes only where the count rose; `Rose` also holds where a counter stands
//!   at its last value. `StdSource` and `StdSink` try a call that a signal interrupted again, 2^64 - 1 times at most,
//!   before they call it a fault.
//! - Objects in memory (`MemSource`, `MemSink`, `MemFiles`, `ListDgram`, `ListConnect`, `ListEdge`, `ListClock`) have exact
//!   clauses on each call, beside those of their trait: what the call answers by its number, what it leaves, and that want
//!   of memory leaves an edge as it was.
//!
//! # Why it is so
//!
//! - **What a sink handed on** is a ghost member with a default (nothing is told), so that a sink that can't know needs no
//!   word on it. `StdSink` tells nothing of it: the standard library says of `flush` only that known octets stay.
//! - **`MemFiles` takes no memory**: it keeps where the open file stands among its files, and no copy.
#![tactic(auto)]

mod address;
mod code_names;
mod decimal;
mod duration;
mod error;
mod error_text;
mod laws;
mod number_names;
mod numbers;
mod octets;
mod seq;
mod sink;
mod source;
mod std_edge;
mod streams;
mod type_names;

pub use address::{IpAddr, SocketAddr};
pub use decimal::decimal_number;
pub use duration::Duration;
pub use error::{Failed, LongName, LongOptData, NoMemory, ParseError, ShortMessage};
pub use laws::{address_laws, number_name_laws};
pub use numbers::{Class, Opcode, OptRcode, Rcode, Rtype, Section, Serial, Status, Ttl};
pub use octets::Octets;
pub use seq::Seq;
pub use sink::{MemSink, Sink, SinkFault, SureSink};
pub use source::{MemSource, Source, SureSource, copy_front};
pub use std_edge::{StdSink, StdSource};
pub use streams::{MOST_TEXT, ReadFault, read_to_end, write_all};
