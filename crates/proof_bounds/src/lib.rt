//! What bounds a forwarder, that streams may be cut anywhere, and that listeners answer senders alone: mathematics.
//!
//! Mathematics alone, of the rows of a forwarder, whatever comes: a peer has at most one answer for each of its datagrams,
//! and by a stream at most one for each 14 octets that came; a row has at most as many answers as queries waited before it
//! and things come of its event; of a stream at most 65,536 octets are kept; the client keeps at most as many results as
//! its cache may have. The messages of a stream are a function of its octets, wherever these are cut, and two events at one
//! moment come to what one does. Of the books of listeners: to any addresses a listener sends no more datagrams than came
//! from them there, and at most 20,000 senders are kept. Not said: how many queries wait beyond 10,000, since one is asked
//! there where the cache serves it, and no law says that its reply comes in the same row. By `every_answer_is_earned`,
//! `answers_in_a_row_are_few`, `streams_keep_little`, `entries_are_few`, `octets_are_cut`, `every_event_may_be_cut`,
//! `listeners_answer_senders`, `worked_bounds`.
#![tactic(auto)]

mod laws;

pub use laws::{
    answers_in_a_row_are_few, entries_are_few, every_answer_is_earned, every_event_may_be_cut,
    listeners_answer_senders, octets_are_cut, streams_keep_little, worked_bounds,
};
