//! What the auditor of traces says of the client's traces. It is mathematics alone, and does nothing.
//!
//! Mathematics alone: each replay of the client is judged right and timely and to miss no hit and no expired answer, and
//! nothing else is said of it. By `every_replay_is_judged_right`.
//!
//! `every_replay_is_judged_right`: each replay of the client is judged right by the script's configuration and settings,
//! and no other verdict is so; and no row of it is named as late.
#![tactic(auto)]

mod laws;

pub use laws::every_replay_is_judged_right;
