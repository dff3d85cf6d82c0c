//! What holds of a choice among servers that are tied to parts of `proof_right`'s machine.
#![tactic(auto)]

mod laws;

pub use laws::{silent_choices_are_whole, silent_choices_move, silent_choices_refuse};
