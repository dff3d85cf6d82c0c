//! What holds of a client above any transport that is tied to all that `proof_right`'s client of small moves has
//! below it.
//!
//! Laws, each a function whose contract names the statement: `silence_is_tied`, `silence_is_shared`, `servers_open_next`,
//! `kept_is_read`, `waits_are_told`, `frames_carry`, `lines_are_tied`, `links_read` (one connection by stream),
//! `streams_are_tied`, `streams_are_shared` (reconnection), `fresh_is_alike`, `calls_are_moves`, `slots_are_known`,
//! `requests_stay`, `places_stay` (one connection by datagrams), `servers_move`, `streams_move`, `openings_are_new`,
//! `streams_give`, `tables_change` (the fallback), `silent_choices_move` (a choice among tied servers),
//! `fallbacks_are_tied`, `fallbacks_are_shared` (each server by datagrams), `plain_traces_are_runs` and
//! `every_plain_trace_is_right` (each plain trace of a configuration). What they say is read aloud in docs/DEFINITIONS.md.
//! `Client::replay` has the last in its clauses. Of a choice among servers (`proof_choice`): `silent_choices_move`,
//! `silent_choices_are_whole`, `silent_choices_refuse`.
//!
//! # Why it is so
//!
//! - **A tie is a record over a given relation**, and no type that holds one, so that the contract of a law can state it. A
//!   transport is tied to the machine once, and the client above any: the relation of each transport is to the part of one
//!   server, so a fallback is tied where its two halves are. A server's kind is fitted in as a layer that puts out `Start`
//!   first, and servers that are not asked only have to rest.
#![tactic(auto)]

mod laws;

pub use laws::{
    every_plain_trace_hits, every_plain_trace_is_right, every_plain_trace_serves_stale,
    fallbacks_are_shared, fallbacks_are_tied, plain_traces_are_runs, traces_with_settings,
};
