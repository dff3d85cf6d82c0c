//! What octets carry, when a request is valid, and what messages say, decided.
//!
//! Whether octets carry a request and whether a message answers it stands in `matching`; whether a request's base is read and its message
//! is composed within all limits in `validity`; whether two messages say the same, and whether one is what another says to a later request,
//! in `views`.
#![tactic(auto)]

pub mod matching;
pub mod validity;
pub mod views;
