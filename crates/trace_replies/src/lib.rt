//! Replies of a trace: which message came first, what replies gave and give later requests, and whether a message is right as a reply.
//!
//! Which message came first for a request stands in `firsts`; earlier replies by what they answer in `given`; what these give later requests in
//! `views`; whether a message is right where it is put in `messages`.
#![tactic(auto)]

pub mod firsts;
pub mod given;
pub mod messages;
pub mod views;
