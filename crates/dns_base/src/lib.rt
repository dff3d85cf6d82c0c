//! DNS messages: read where they lie, and written (RFC 1035 4.1).
//!
//! Messages are read by the grammar of RFC 1035 4.1 on whole octets, every section both ways; what a builder was pushed is
//! read back, its names compressed; a refused push changes nothing. By `Message`, `Record::data`, `Builder`, `draft_laws`.
//!
//! - `Octets`, `Name`, `Message` are seen as lists: octets, labels, octets. Whole octets are what definitions speak of; the
//!   code has cursors.
//! - `Message::query` gives the message of one question: its octets, what they are read as, and the draft that they are.
//! - A reader answers exactly where the grammar has something (`MatchResult` with both cases). The iterator of a section is
//!   the list of its items; after the first item that can't be read there is none.
//! - `Builder` is seen as a `Draft`. Each push is a function on drafts (`pushed_question`, `pushed_record`), and `finish`
//!   gives the octets of the draft (`finished`). `draft_laws` says what these functions are worth: what was pushed is read
//!   back, names up to case, whatever the header is and whatever follows. Each name that a pointer may name is read alike
//!   under every header, with fewer pointers than labels, so the limit of 255 pointers is never met (`Holds.places`).
//! - `Draft` is closed to the crates above: they cite `draft_laws`, `draft_steps` (counts, limits, sizes, headers,
//!   refusals) and the clauses of the calls, and open none of its definitions.
//! - `Count` comes exactly at a 65536th entry of a section. `Limit` only where it has fewer and the octets would pass the
//!   limit with this item uncompressed (`question_size`, `record_size`). Ok only where the octets written don't pass it
//!   (`fits`). Each entry is written straight into the message's octets; where memory runs out halfway the octets and the
//!   remembered places are cut back, so a refused push leaves all as it was (`err`).
//! - All suffixes of a name are found by one search of a table of names, sorted by their labels from the last on, so a name
//!   costs in line with its octets whatever was written before. The table is no part of a `Draft`: `IsIndex` says that what
//!   it finds is what a look at one place after the other finds (`found_at`), and each call of the crate keeps it so.
//!
//! # Why it is so
//!
//! - **Names are compressed by a sorted table of names.** Up to sixteen places are looked at one after the other, which
//!   costs less than a table. Beyond that a table has the names of the entries before, and a second one those of the entry
//!   that is being written, since the length of its data is still to be written. The key of a name is its labels from the
//!   last to the first, each behind its length, in lower case, so names that share a suffix stand together, and a name
//!   takes a few searches however many labels it has. Names that a server chooses make no search long; a hash would need a
//!   secret. A header that is set anew drops the table, since a pointer might lead into the header.
//! - **Aliases are followed by a table that takes no memory**, so `Message::canonical_name` has no error, and the getters
//!   of lookups that call it have none. The table is an array of places on the stack, 12 KB, in the order of the owners'
//!   names: no peer can make names collide in it. It has room for all records of a message of 65,535 octets, which no frame
//!   or datagram passes; a longer one, which a program may make by itself, is walked once a step.
//! - **The texts of `CopyRecordsError`** are chosen here.
#![tactic(auto)]

mod alias_table;
mod answer;
mod builder;
mod compressor;
mod debug;
mod header;
mod laws;
mod lookups;
mod message;
mod named_data;
mod numbers;
mod opt_record;
mod place;
mod push_error;
mod query;
mod question;
mod record;
mod record_data;
mod spelling;
mod suffixes;
mod writing;

pub use answer::{are_same_questions, is_answer};
pub use builder::Builder;
pub use dns_names::{
    ChainFault, LabelIter, Name, NameFault, ParsedName, RelativeName, ToName, is_same_name,
    name_is_read_back, name_laws, relative_name_is_read_back, text_laws,
};
pub use dns_values::{
    Class, Duration, Failed, IpAddr, LongName, LongOptData, MemSink, MemSource, NoMemory, Octets,
    Opcode, OptRcode, ParseError, Rcode, ReadFault, Rtype, Section, Seq, Serial, ShortMessage,
    Sink, SinkFault, SocketAddr, Source, Status, StdSink, StdSource, SureSink, SureSource, Ttl,
    address_laws, number_name_laws, read_to_end, write_all,
};
pub use header::{Header, HeaderCounts};
pub use laws::{draft_laws, draft_steps, reading_laws};
pub use message::Message;
pub use opt_record::OptRecord;
pub use push_error::PushError;
pub use question::{Question, QuestionSection};
pub use record::{Record, RecordSection};
pub use record_data::RecordData;
