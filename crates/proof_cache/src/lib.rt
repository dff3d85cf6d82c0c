//! What a cache does beside the moves of the machine of `proof_right`.
//!
//! Mathematics alone: what looking up does to the table is what an asking does in `proof_right`'s machine with an exact
//! cache; what a request finds in a cache is an answer that `proof_right`'s machine may give it at once, after moves that
//! derive; what is given and kept of a result is what its reply gives and stores; what servers give is a message in octets;
//! beside the machine the table is the list of `proof_right`'s exact cache: an asking uses and stores what that does, and
//! is answered from the entry under its own key where that serves it; so a cache above any transport that is tied to the
//! machine is tied to the whole of its client. By `requests_are_answered`, `requests_are_listed`, `results_are_given`,
//! `look_ups_are_askings`, `look_ups_are_answers`, `look_ups_are_listed`, `what_is_kept_is_stored`,
//! `asked_are_of_requests`, `deriving_is_moving`, `standing_laws`, `keys_are_told`.
#![tactic(auto)]

mod laws;

pub use laws::{
    asked_are_of_requests, deriving_is_moving, keys_are_told, look_ups_are_answers,
    look_ups_are_askings, look_ups_are_listed, requests_are_answered, requests_are_listed,
    results_are_given, standing_laws, what_is_kept_is_stored,
};
