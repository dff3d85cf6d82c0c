//! Queries of DNS clients: which are taken, how the others are refused, the request that is made of one, and
//! how it is answered.
//!
//! Of octets that came of a DNS client: whether they are a query that is taken, and if not the exact refusal by its first
//! cause; the request that is made of one, which has no record and no option of it; and the exact octets of its answer,
//! under its id and spelling, with or without an OPT record, cut for a datagram or behind a length. By `sort`,
//! `request_of`, `answer_to`, `turned_away`.
//!
//! Nothing is asked and nothing is kept here. A query that is taken is kept as its header, its question, and what its
//! OPT record says: no other record and no option of it goes on to a server, and so none decides what a cache keeps for
//! others (RFC 6891 6.1.1).
//!
//! `sort` says what becomes of octets that came of a client, exactly (`sorted`): nothing where they have no header or are a
//! response, the octets of a refusal, or a query that is taken. Each refusal is the first cause of `refusal_asking`:
//! another opcode (NOTIMP), a zone (REFUSED), another form (FORMERR), a version of EDNS above 0 (BADVERS), a type of which
//! there is no data (FORMERR). A refusal is a header alone, and with BADVERS an OPT record.
//!
//! A `Query` is seen as its header, its question, and what its OPT record says of sizes and of DNSSEC. No record and no
//! option of the octets is in it, so `request_of` and `answer_to`, which are functions of it, can hand none on.
//! `request_of` gives exactly the question under the query's id, RD, AD and CD, and an OPT record of this host where DO is
//! set; want of memory is its only error, since a query that is taken may be asked (`may_be_asked`). `Query::key` is what
//! is asked, whatever the case of the name: its octets are exactly `key_of`.
//!
//! `answer_to` gives exactly `answer_to` of the definitions: what the reply says (`says_to`) as a builder takes it, under
//! the query's id and spelling, or SERVFAIL; by a stream behind its length, and as a datagram cut where it is too long. A
//! reply with the query's question, of which each record belongs to the question's name by a pointer to it and has data in
//! which no name is written anew, but for an OPT record without options in the last place, is not composed anew
//! (`simple_of`): its own octets stand between a header, counts and this host's OPT record. That this is what would be
//! composed is a law (`is_answered`).
//!
//! # Why it is so
//!
//! - **What is kept of a query is what its answer needs.** A `Query` has a header, a name, a type, a class and two facts of
//!   its OPT record, and not the octets that came: then no call can hand a record or an option of it on, and 10,000 that
//!   wait are small. Its key is octets (`Query::key`): a table that is ordered by them needs no hash, and no seed.
//! - **Causes of a refusal have an order**: the opcode first, then a zone, then the form, then the version of EDNS, then
//!   the type. A query for a change of a zone has a record in its authority section (RFC 1995 3) and is refused as one for
//!   a zone; one of a later version whose options can't be read is refused for its form, as BIND does. BADVERS tells DO as
//!   the query has it (RFC 3225 3).
//! - **An answer to no question has none.** Where a server tells an error by a header alone, the client gets a header
//!   alone, with an OPT record where it sent one. SERVFAIL keeps the flags of the query but for QR and AD, as that of a
//!   choice without a server does.
//! - **A datagram that answers by a reply of more than 4,096 octets is cut by definition**, before its records are read:
//!   its header with TC, the question and the OPT record. Composing it only to throw it away took 1.8 ms for a query of 40
//!   octets, so 600 such queries a second held all others up. That so long a reply would have fitted once its names are
//!   compressed anew is lost: the client asks by a stream, as TC says (RFC 2181 9).
#![tactic(auto)]

mod answering;
mod asking;
mod copying;
mod query;
mod refusal;
mod simple;
mod sorting;
mod spelling;

pub use answering::{answer_to, framed, turned_away};
pub use asking::request_of;
pub use query::{Extension, Query};
pub use refusal::Refusal;
pub use sorting::{Sorted, sort};
