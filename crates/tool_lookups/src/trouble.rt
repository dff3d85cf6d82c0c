//! Why the program ends early.

use client_request::Error;
use dns_base::{NoMemory, ShortMessage};
use std::alloc::{AllocError, AllocFailed};
use std::io;

/// Why nothing more was printed.
#[derive(Debug, Drop)]
pub enum Trouble {
    /// Standard input or standard output failed.
    Io(io::Error),
    /// A line is none that the program takes.
    Usage,
    /// Memory ran out.
    NoMemory,
}

impl From<io::Error> for Trouble {
    fn from(error: io::Error) -> Trouble {
        Trouble::Io(error)
    }
}

impl From<AllocError> for Trouble {
    fn from(_error: AllocError) -> Trouble {
        Trouble::NoMemory
    }
}

impl<T: Drop> From<AllocFailed<T>> for Trouble {
    fn from(_error: AllocFailed<T>) -> Trouble {
        Trouble::NoMemory
    }
}

impl From<NoMemory> for Trouble {
    fn from(_error: NoMemory) -> Trouble {
        Trouble::NoMemory
    }
}

impl From<ShortMessage> for Trouble {
    fn from(_error: ShortMessage) -> Trouble {
        Trouble::Usage
    }
}

impl From<Error> for Trouble {
    fn from(_error: Error) -> Trouble {
        Trouble::NoMemory
    }
}
