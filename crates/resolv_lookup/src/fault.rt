//! Why a question got no answer, and why a lookup found nothing.

ghost use Rattle.std.specs.Prelude.{◌≡◌};
ghost use Rattle.client_request.specs.declared.error.Error.TheVariants as errors;
ghost use Rattle.resolv_lookup.specs.declared.fault.QueryFault.TheVariants as queries;
ghost use Rattle.resolv_lookup.specs.declared.fault.HostFault.TheVariants as hosts;
ghost use Rattle.resolv_lookup.specs.declared.fault.SrvError.TheVariants as services;
ghost use Rattle.resolv_lookup.specs.Faults.{error_of_chain};

use client_request::Error;
use dns_base::{ChainFault, NoMemory};

/// Why a question got no answer.
#[derive(Clone, Copy, Debug, PartialEq, Eq)]
pub enum QueryFault {
    /// The client's reply is this error. Of `NoMemory` alone a resolver counts no fault.
    Client(Error),
    /// No reply came.
    NoReply,
}

/// Why the addresses of a host were not found.
#[derive(Clone, Copy, Debug, PartialEq, Eq)]
pub enum HostFault {
    /// Both questions failed: the fault of the one for IPv6 addresses.
    Query(QueryFault),
    /// The answer has no question that can be read.
    NoQuestion,
    /// The answer leads to no canonical name: its aliases go in a circle, or it can't be read.
    CnameLoop,
    /// Memory ran out.
    NoMemory,
}

/// Why a service was not found.
#[derive(Clone, Copy, Debug, PartialEq, Eq)]
pub enum SrvError {
    /// The name of the service passes 255 octets. Nothing was asked.
    LongName,
    /// The answer leads to no canonical name, or a section that is needed can't be found in it.
    MalformedAnswer,
    /// The question failed.
    Query(QueryFault),
    /// Memory ran out.
    NoMemory,
}

impl From<NoMemory> for QueryFault {
    ghost from_gives = { λ _ e. e ≡ queries.Client errors.NoMemory };

    fn from(_error: NoMemory) -> QueryFault {
        QueryFault::Client(Error::NoMemory)
    }
}

impl From<NoMemory> for HostFault {
    ghost from_gives = { λ _ e. e ≡ hosts.NoMemory };

    fn from(_error: NoMemory) -> HostFault {
        HostFault::NoMemory
    }
}

impl From<NoMemory> for SrvError {
    ghost from_gives = { λ _ e. e ≡ services.NoMemory };

    fn from(_error: NoMemory) -> SrvError {
        SrvError::NoMemory
    }
}

impl From<ChainFault> for SrvError {
    ghost from_gives = { λ fault e. e ≡ error_of_chain fault };

    fn from(fault: ChainFault) -> SrvError {
        match fault {
            ChainFault::Long => SrvError::LongName,
            ChainFault::NoMemory => SrvError::NoMemory,
        }
    }
}

impl From<QueryFault> for SrvError {
    ghost from_gives = { λ fault e. e ≡ services.Query fault };

    fn from(fault: QueryFault) -> SrvError {
        SrvError::Query(fault)
    }
}
