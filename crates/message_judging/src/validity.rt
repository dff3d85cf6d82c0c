//! When a request is valid: whether its base is read, and whether its message is composed within all limits.
//!
//! Whether a request's base is read, has too many entries to be composed, is valid and may be kept is what the definitions
//! say, by one walk over its base. By `RequestValidity::of`.
//!
//! `RequestValidity::of` tells four things of a request (`IsFound`): whether its base is read, whether its message would
//! have more entries in a section than can be counted, whether it is valid, and whether its answer may be kept. It goes
//! over the base once, counts entries and octets without compression, each up to 65536, and takes no memory.

mod sizes;
mod validity;

pub use validity::RequestValidity;
