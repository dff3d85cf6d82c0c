//! What holds of the transports beside the mathematics of a right trace.
//!
//! Mathematics alone: each call of a stream connection, of reconnection over such connections, of a datagram connection, of
//! the fallback over both and of a choice among servers that are tied so leaves what moves of `proof_right`'s machine
//! leave, what is written carries its request, and the client above any transport that is tied as a cache over these is
//! makes only runs of that machine; so each plain trace is right and timely, whatever comes. By `lines_are_tied`,
//! `links_read`, `frames_carry`, `streams_are_tied`, `calls_are_moves`, `servers_move`, `streams_move`,
//! `silent_choices_move`, `silent_choices_refuse`, `plain_traces_are_runs`, `every_plain_trace_is_right`.
#![tactic(auto)]

mod laws;

pub use laws::{
    frames_carry, kept_is_read, lines_are_tied, links_read, servers_open_next, silence_is_shared,
    silence_is_tied, waits_are_told,
};
