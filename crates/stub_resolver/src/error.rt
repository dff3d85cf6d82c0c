//! One error for all that a program does with a resolver.

ghost use Rattle.std.specs.Prelude.{◌≡◌};
ghost use Rattle.stub_resolver.specs.ErrorText.{error_text};
ghost use Rattle.stub_resolver.specs.declared.error.Error.TheVariants as errors;

use client_request::Error as ClientError;
use dns_base::{NameFault, NoMemory};
use resolv_lookup::{HostFault, QueryFault, SrvError};
use std::alloc::{AllocError, AllocFailed};
use std::{fmt, io};

/// Why a program got nothing of a resolver. `?` makes it of each error that a call of this crate answers, and of those that come with
/// such calls: a text that is no name, standard output that failed, and memory that ran out.
#[derive(Debug, Drop)]
pub enum Error {
    /// No resolver could be made, it could take no server, or all of many questions failed.
    Client(ClientError),
    /// A question got no answer.
    Query(QueryFault),
    /// The addresses of a host were not found.
    Host(HostFault),
    /// A service was not found.
    Service(SrvError),
    /// A text is no name.
    Name(NameFault),
    /// The program's own input or output failed.
    Io(io::Error),
    /// Memory ran out.
    NoMemory,
}

impl From<ClientError> for Error {
    ghost from_gives = { λ error e. e ≡ errors.Client error };

    fn from(error: ClientError) -> Error {
        Error::Client(error)
    }
}

impl From<QueryFault> for Error {
    ghost from_gives = { λ fault e. e ≡ errors.Query fault };

    fn from(fault: QueryFault) -> Error {
        Error::Query(fault)
    }
}

impl From<HostFault> for Error {
    ghost from_gives = { λ fault e. e ≡ errors.Host fault };

    fn from(fault: HostFault) -> Error {
        Error::Host(fault)
    }
}

impl From<SrvError> for Error {
    ghost from_gives = { λ error e. e ≡ errors.Service error };

    fn from(error: SrvError) -> Error {
        Error::Service(error)
    }
}

impl From<NameFault> for Error {
    ghost from_gives = { λ fault e. e ≡ errors.Name fault };

    fn from(fault: NameFault) -> Error {
        Error::Name(fault)
    }
}

impl From<io::Error> for Error {
    ghost from_gives = { λ error e. e ≡ errors.Io error };

    fn from(error: io::Error) -> Error {
        Error::Io(error)
    }
}

impl From<NoMemory> for Error {
    ghost from_gives = { λ _ e. e ≡ errors.NoMemory };

    fn from(_error: NoMemory) -> Error {
        Error::NoMemory
    }
}

impl From<AllocError> for Error {
    ghost from_gives = { λ _ e. e ≡ errors.NoMemory };

    fn from(_error: AllocError) -> Error {
        Error::NoMemory
    }
}

impl<T: Drop> From<AllocFailed<T>> for Error {
    ghost from_gives = { λ _ e. e ≡ errors.NoMemory };

    fn from(_error: AllocFailed<T>) -> Error {
        Error::NoMemory
    }
}

impl fmt::Display for Error {
    ghost output = { λ error. error_text error };

    fn fmt<W: fmt::Write>(&self, f: &mut fmt::Formatter<W>) -> fmt::Result {
        match self {
            Error::Client(error) => write!(f, "{error}"),
            Error::Query(fault) => write!(f, "{fault}"),
            Error::Host(fault) => write!(f, "{fault}"),
            Error::Service(error) => write!(f, "{error}"),
            Error::Name(fault) => write!(f, "{fault}"),
            Error::Io(error) => write!(f, "{error}"),
            Error::NoMemory => f.write_str("out of memory"),
        }
    }
}

impl std::error::Error for Error {}
