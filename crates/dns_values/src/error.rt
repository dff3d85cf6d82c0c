//! Why something was not done.

use std::alloc::{AllocError, AllocFailed};

/// The octets do not follow the grammar.
#[derive(Clone, Copy, Debug, PartialEq, Eq)]
pub struct ParseError;

/// A message has twelve octets at least.
#[derive(Clone, Copy, Debug, PartialEq, Eq)]
pub struct ShortMessage;

/// A name passes its greatest length.
#[derive(Clone, Copy, Debug, PartialEq, Eq)]
pub struct LongName;

/// The data of an OPT record would pass 65535 octets.
#[derive(Clone, Copy, Debug, PartialEq, Eq)]
pub struct LongOptData;

/// Reading, writing or opening failed.
#[derive(Clone, Copy, Debug, PartialEq, Eq)]
pub struct Failed;

/// Memory ran out.
#[derive(Clone, Copy, Debug, PartialEq, Eq)]
pub struct NoMemory;

impl From<AllocError> for NoMemory {
    fn from(_e: AllocError) -> NoMemory {
        NoMemory
    }
}

impl<T: Drop> From<AllocFailed<T>> for NoMemory {
    fn from(_e: AllocFailed<T>) -> NoMemory {
        NoMemory
    }
}
