//! A walk from the root down to a name, as `dig +trace` makes it: the servers of each zone are asked in turn, and each refers to those of
//! a zone further down, until one answers.
//!
//! ```text
//!  the servers that are given ──► the root ──► a zone below ──► .. ──► answered, no such name, no such data, or stranded
//! ```
//!
//! It asks nothing itself: a `World` asks one server one question, by datagram and then by stream where that came cut, looks up the
//! addresses of a name, and is told what each answer means.
//!
//! A walk has at most one step for the servers that are given, one for the root, and one for each label of the name. A step asks at most
//! 16 addresses that stand beside a referral, and where each of these failed looks up at most 8 names and asks at most 16 of their
//! addresses. How long each of these takes is the world's to bound.
//!
//! ```text
//! let ending = walk(alloc, &mut world, &ask, servers)?;
//! ```
//! - `walk`: `Walked`: the world's deeds are a list of steps and nothing else. Each referral that was heard leads to
//!   the next step's zone, strictly below its own and at or above the name (`Warrants`); the last step has a final
//!   answer, or each of its servers failed (`EndsAt`).
//! - `walk_laws`: steps go strictly down. `received_line`, `silent_line`: exact text.
//!
//! # Why it is so
//!
//! - **A server that refuses or fails is passed by**, where dig stops, and a referral that doesn't lead strictly down
//!   is none, where dig follows it.
#![tactic(auto)]

mod asked;
mod judging;
mod laws;
mod line;
mod names;
mod records;
mod server;
mod station;
mod step;
mod targets;
mod targets_of;
mod trying;
mod verdict;
mod walking;
mod world;

pub use laws::walk_laws;
pub use line::{received_line, silent_line};
pub use server::NameServer;
pub use station::Station;
pub use targets::Targets;
pub use verdict::{Ending, Failure, Verdict};
pub use walking::walk;
pub use world::World;
