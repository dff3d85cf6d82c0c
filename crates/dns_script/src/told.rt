//! The faults that a script tells: those of a socket.

ghost use Rattle.std.specs.Prelude.{◌≡◌};
ghost use Rattle.dns_script.specs.Reading.{Checks};
ghost use Rattle.dns_script.specs.Told.{is_of_socket, tells_well};

use crate::line::LineFault;
use client_request::{Fault, What};

/// The client itself finds the others.
fn is_of_socket(fault: Fault) -> bool
    ensures { result ≡ is_of_socket fault }
{
    match fault {
        Fault::Expired => false,
        Fault::ShortSend => false,
        Fault::NothingTaken => false,
        Fault::EndOfData => false,
        _ => true,
    }
}

/// Refuses an event with a fault that is not of a socket.
pub(crate) fn check_what(what: &What) -> Result<(), LineFault>
    ensures { Checks result (tells_well what.now) }
{
    let told = match what {
        What::OpenFailed { place: _, fault } => is_of_socket(*fault),
        What::SendFailed { place: _, fault } => is_of_socket(*fault),
        What::RecvFailed { place: _, fault } => is_of_socket(*fault),
        What::WriteFailed { place: _, fault } => is_of_socket(*fault),
        What::ReadFailed { place: _, fault } => is_of_socket(*fault),
        _ => true,
    };
    if told {
        Ok(())
    } else {
        Err(LineFault::Refused)
    }
}
