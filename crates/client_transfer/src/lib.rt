//! Where a zone transfer is, and what each message does to it: when it ends, and which messages belong
//! to it (RFC 5936 2.2, RFC 1995 4).
//!
//! What a message does to a zone transfer is a table of states and records, folded over the answer section: when it ends,
//! and which messages belong to it. By `check_stream`, `transfer_law`.
//!
//! A transfer is watched, and not carried out: no record is kept, and no zone is made of them.
//!
//! `check_stream` gives `checked` (`crates/client_transfer/specs/States.antt`): whether the transfer ends with a message,
//! the state that is left, and whether the message belongs to the transfer. It takes no memory, and no record is kept.
//!
//! - `next_state` is the whole table of states and records, a case for each; none where the record is wrong. What a record
//!   is (`RecordKind`) its data says, read as `dns_base` reads it, and for an SOA whether its serial equals the kept one:
//!   serials are compared for equality alone.
//! - The rest is a fold: `takes_items` over the answer section up to the first record that is refused, `at_end` behind the
//!   last one, and before the records `is_open` (only the first message must answer its request) and `by_code` (a response
//!   code).
//! - `transfer_law`: what messages give is the fold of what each gives (`transferred`), wherever the list of them is cut;
//!   the records of two sections one behind the other lead where those of one do; an end is given once, last, and nothing
//!   behind it; and after a message was refused none is taken any more.
//!
//! # Why it is so
//!
//! - **What a transfer asks for is read from its message**, as it is composed, and not from its base: so a request of any
//!   type can be a transfer. `RequestMessageMulti` takes no base of another type, so `FormError` never comes of one.
//! - **The states of a transfer are a crate**, `client_transfer`: what a message does to a transfer has to do with no id,
//!   frame or timer. There are two kinds of SOA, each with its serial; before the first record none is kept, so the first
//!   SOA is `OtherSoa`. `Error` has no row of records, since no message gets so far there.
//! - **A first SOA that stands alone** in its message ends a transfer of changes, as the server may have none. So a server
//!   that sends changes with the first SOA in a message of its own is cut short, and what it sends later is refused.
//! - **A later message of a transfer** is asked neither for its id nor for QR or the question, as long as its response code
//!   is 0: a connection hands on only messages with the transfer's id. The response code that ends a transfer is that of
//!   the header alone, without the bits of an OPT record.
#![tactic(auto)]

mod checking;
mod kind;
mod laws;
mod state;

pub use checking::check_stream;
pub use kind::{RecordKind, Refusal};
pub use laws::transfer_law;
pub use state::XfrState;
