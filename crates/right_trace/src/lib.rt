//! What a right trace is, for any number of servers, by datagrams and streams, with deferring and a cache: definitions, and
//! what holds of covering and of views by themselves. It knows no client, neither the code's nor the machine's.
//!
//! What a right trace is, with any number of servers, datagrams, streams, deferred results and a cache: definitions, and
//! the laws of covering and of views. By `covering_is_an_order`, `no_ttl_falls_below_zero`, `views_compose`.
#![tactic(auto)]

mod laws;

pub use laws::{covering_is_an_order, no_ttl_falls_below_zero, views_compose};
