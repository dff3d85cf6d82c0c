//! The records of a zone, what a zone transfer does to them (RFC 5936, RFC 1995), and a zone that it is done to.
//!
//! An interpreter reads the messages of a transfer one by one and says what each does. A zone takes all of that at once, or is
//! left as it was. Nothing is asked here, and nothing is sent.
//!
//! ```text
//! let mut interpreter = Interpreter::new(apex, XfrKind::Axfr);
//! for message in messages {
//!     for update in interpreter.interpret(alloc, message)? {
//!         updates.push(update)?;
//!     }
//! }
//! let missing = zone.apply(updates)?;
//! ```
//!
//! - `entry_of`: the record as a zone keeps it, with an SOA's serial, or that it is outside the zone; None exactly where
//!   its data can't be read, its class is not IN, its type is one that no zone holds, or it is an SOA of another name.
//! - `Interpreter::interpret`: `read`: what the message does, `interpreted`; `refused`: each refusal but want of memory is
//!   that of `interpreted`; `kept`: after a refusal it is as it was.
//! - `Interpreter::outside`: how many records outside the zone came, as far as 64 bits count them.
//! - `Zone::apply`: `applied`: the fold of the updates, the serial of their end, and how many changes did not fit
//!   (`Applies`); `refused`: each refusal but want of memory is that of `checked`; `kept`: after a refusal the zone is as
//!   it was.
//! - `Zone::records`: the records, strictly sorted.
//! - `equal_records_law`, `transfers_law`, `zones_law`: records that are equal by their order are the same; the theorem on
//!   transfers over messages; zones with the same records are the same.
//! - `held_law`: what a transfer makes is a zone (`IsZone`): one SOA, of the apex, and records of one class and of no meta
//!   type at the apex or below it.
//!
//! # Why it is so
//!
//! - **A record of a zone has its owner and its data as octets** in lower case and without compression (`OctetList`), since
//!   records are sorted by octets. Names in data are in lower case where the type is one whose data is read (RFC 4034 6.2):
//!   servers send them as they were spelled, and a zone that was fetched from one and changed by another would keep old
//!   records for ever. Beside a record stand the first eight octets of its owner as one number (`Keyed`), by which nearly
//!   all comparisons are decided; the order is the same (`less_from`).
//! - **`Zone::apply` takes the updates by value**: records move into the zone, which halves the memory. It tells how many
//!   deletions met no record, by which a wrong base is seen; as RFC 1995 has it such a deletion changes nothing.
#![tactic(auto)]

mod bringing;
mod changes;
mod folding;
mod inside;
mod interpreter;
mod keyed;
mod laws;
mod lowering;
mod octets;
mod ordering;
mod reading;
mod record;
mod whole;
mod zone;

pub use interpreter::{Interpreter, XfrFault};
pub use laws::{equal_records_law, held_law, transfers_law, zones_law};
pub use octets::OctetList;
pub use reading::entry_of;
pub use record::ZoneRecord;
pub use zone::{ApplyFault, Zone};
pub use zone_reading::XfrKind;

/// What is to be done to a zone, with records of zones.
pub type Update = zone_reading::Update<ZoneRecord>;
