//! That every run of a client of small moves is right, for any number of servers, by datagrams and streams: mathematics alone.
//!
//! Mathematics alone: every run of a client of small moves, of any number of servers, is right and timely, however it
//! composes and in whatever order timers that are due fire, and where its cache is exact it hits, and serves what has
//! expired where servers fail; a client of one server by datagrams makes only such runs; wrong traces are refused. By
//! `every_run_is_right`, `every_cached_run_hits`, `every_cached_run_serves_stale`, `runs_of_one_server_are_runs`,
//! `composing_composes`, `worked_traces_are_runs`, and the refusals.
//!
//! # Why it is so
//!
//! - **A part has no laws.** What a server is for the client above it (`crates/proof_right/specs/machine/Part.antt`) has
//!   only states and moves, so that no proof stands in what a reader must believe; the laws that it keeps stand among the
//!   proofs.
//! - **The machine of one server stays** (`machine/Single.antt`): its runs are runs of the machine of all servers.
#![tactic(auto)]

mod examples;
mod laws;
mod refusals;

pub use examples::{
    slot_is_given_on, worked_cache, worked_datagrams, worked_hit, worked_names, worked_servers,
    worked_stale, worked_streams, worked_traces_are_runs,
};
pub use laws::{
    composing_composes, every_cached_run_hits, every_cached_run_serves_stale, every_run_is_right,
    headers_have_all_bits, runs_of_one_server_are_runs,
};
pub use refusals::{
    carried_can_be_composed, copied_pointers_are_refused, missed_hits_are_refused,
    short_bases_are_refused, wrong_datagrams_are_refused, wrong_places_are_refused,
    wrong_replies_are_refused, wrong_sends_are_refused, wrong_stale_replies_are_refused,
    wrong_streams_are_refused,
};
