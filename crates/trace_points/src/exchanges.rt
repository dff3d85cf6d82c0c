//! Exchanges of a trace: what was sent and waits for its answer, and the messages that come for requests in a row.
//!
//! All messages that come for requests in a row are found, and only those, for one request or for all; in rows that are
//! right nobody is sent or handed on who was not asked. By `find_coming`, `meet_open`, `put_open`, `right_rows_ask`,
//! `open_sends_go_on`.
//!
//! `Open` keeps by place what was sent by datagrams and not answered: a datagram takes away what it answers, so a place
//! with many datagrams costs no more each. `open_sends_go_on` says of each request that was asked that this is `unanswered`
//! of `right_trace`. Here, and for the servers that got invalid requests (`Invalid`), what is kept is right behind rows
//! that are right alone: a step over an event has the premise `AskedFirst`, that nobody was sent or handed on who was not
//! asked, and `right_rows_ask` says that rows that are right keep it.
//!
//! `find_coming` gives the messages that come in a row, of one request or of all (`TellsComing`): each in the list is one
//! by `Comes`, and each that comes is in it, with whether it answers. It looks at the one place that the row's event names:
//! by datagram at what is open there, by stream at the first frame of each id, up to a bad one, and what waits under that
//! id.
//!
//! # Why it is so
//!
//! - **Two tables count behind rows that are right alone**: what was sent by datagrams and not answered, and which servers
//!   got invalid requests. Both ask what a request is when it is sent or handed on; the definitions ask it later, and the
//!   two agree where nobody is sent or handed on who was not asked, which each row that is right owes. All other tables
//!   count for every trace. `sends` is counted to one more than the tries that are set, since no definition asks for more.
//! - **Messages that come in a row are a list**, made once for the end of a row, or for one request where it is asked in
//!   mid-row. Of frames the first of each id counts.

mod coming;
mod laws;
mod open;

pub use coming::{Coming, all_coming, find_coming};
pub use laws::{open_sends_go_on, right_rows_ask};
pub use open::{Open, meet_open, put_open};
