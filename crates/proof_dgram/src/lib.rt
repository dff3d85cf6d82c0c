//! What holds of a server by datagrams, and of one that falls back to streams, beside the mathematics of a right trace.
#![tactic(auto)]

mod laws;

pub use laws::{
    calls_are_moves, fresh_is_alike, openings_are_new, places_stay, requests_stay, servers_move,
    slots_are_known, streams_give, streams_move, tables_change,
};
