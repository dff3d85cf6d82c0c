//! Why the program ends early.

use dns_base::NoMemory;
use std::alloc::AllocError;
use std::io;

#[derive(Debug, Drop)]
pub enum TableFault {
    /// Standard input or standard output failed.
    Io(io::Error),
    /// Memory ran out.
    NoMemory,
}

impl From<io::Error> for TableFault {
    fn from(e: io::Error) -> TableFault {
        TableFault::Io(e)
    }
}

impl From<AllocError> for TableFault {
    fn from(_e: AllocError) -> TableFault {
        TableFault::NoMemory
    }
}

impl From<NoMemory> for TableFault {
    fn from(_e: NoMemory) -> TableFault {
        TableFault::NoMemory
    }
}
