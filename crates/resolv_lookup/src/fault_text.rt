//! What faults say when they are printed.

ghost use Rattle.std.specs.Prelude.{Some};
ghost use Rattle.resolv_lookup.specs.FaultText.{host_text, query_text, service_text};

use crate::fault::{HostFault, QueryFault, SrvError};
use std::error::Error;
use std::fmt;

impl fmt::Display for QueryFault {
    ghost output = { λ fault. Some (query_text fault) };

    fn fmt<W: fmt::Write>(&self, f: &mut fmt::Formatter<W>) -> fmt::Result {
        match self {
            QueryFault::Client(error) => write!(f, "{error}"),
            QueryFault::NoReply => f.write_str("no reply"),
        }
    }
}

impl Error for QueryFault {}

impl fmt::Display for HostFault {
    ghost output = { λ fault. Some (host_text fault) };

    fn fmt<W: fmt::Write>(&self, f: &mut fmt::Formatter<W>) -> fmt::Result {
        match self {
            HostFault::Query(fault) => write!(f, "{fault}"),
            HostFault::NoQuestion => f.write_str("no question in the answer"),
            HostFault::CnameLoop => f.write_str("no canonical name in the answer"),
            HostFault::NoMemory => f.write_str("out of memory"),
        }
    }
}

impl Error for HostFault {}

impl fmt::Display for SrvError {
    ghost output = { λ error. Some (service_text error) };

    fn fmt<W: fmt::Write>(&self, f: &mut fmt::Formatter<W>) -> fmt::Result {
        match self {
            SrvError::LongName => f.write_str("name too long"),
            SrvError::MalformedAnswer => f.write_str("malformed answer"),
            SrvError::Query(fault) => write!(f, "error executing query {fault}"),
            SrvError::NoMemory => f.write_str("out of memory"),
        }
    }
}

impl Error for SrvError {}
