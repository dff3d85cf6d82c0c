//! The system's errors as faults.

ghost use Rattle.std.specs.Prelude.{◌≡◌, ◌≤◌, Ok, IfOk, OnErr};
ghost use Rattle.dns_values.specs.Source.{Rose};
ghost use Rattle.client_dgram.specs.Sockets.{after_answer};

use client_request::Fault;
use std::io::{self, ErrorKind};

/// The fault that a kind of error is.
pub fn fault_of(kind: ErrorKind) -> Fault
    ensures refused { kind ≡ ErrorKind.ConnectionRefused → result ≡ Fault.Refused }
    ensures reset { kind ≡ ErrorKind.ConnectionReset → result ≡ Fault.Reset }
    ensures aborted { kind ≡ ErrorKind.ConnectionAborted → result ≡ Fault.Reset }
    ensures no_host { kind ≡ ErrorKind.HostUnreachable → result ≡ Fault.Unreachable }
    ensures no_network { kind ≡ ErrorKind.NetworkUnreachable → result ≡ Fault.Unreachable }
    ensures network_down { kind ≡ ErrorKind.NetworkDown → result ≡ Fault.Unreachable }
    ensures no_address { kind ≡ ErrorKind.AddrNotAvailable → result ≡ Fault.Unreachable }
    ensures in_use { kind ≡ ErrorKind.AddrInUse → result ≡ Fault.InUse }
    ensures broken { kind ≡ ErrorKind.BrokenPipe → result ≡ Fault.Broken }
    ensures not_connected { kind ≡ ErrorKind.NotConnected → result ≡ Fault.Broken }
    ensures late { kind ≡ ErrorKind.TimedOut → result ≡ Fault.Expired }
    ensures nothing_yet { kind ≡ ErrorKind.WouldBlock → result ≡ Fault.Expired }
    ensures interrupted { kind ≡ ErrorKind.Interrupted → result ≡ Fault.Expired }
{
    match kind {
        ErrorKind::ConnectionRefused => Fault::Refused,
        ErrorKind::ConnectionReset | ErrorKind::ConnectionAborted => Fault::Reset,
        ErrorKind::HostUnreachable
        | ErrorKind::NetworkUnreachable
        | ErrorKind::NetworkDown
        | ErrorKind::AddrNotAvailable => Fault::Unreachable,
        ErrorKind::AddrInUse => Fault::InUse,
        ErrorKind::BrokenPipe | ErrorKind::NotConnected => Fault::Broken,
        ErrorKind::TimedOut | ErrorKind::WouldBlock | ErrorKind::Interrupted => Fault::Expired,
        _ => Fault::Other,
    }
}

/// Whether the call is to be made again: it would have waited, or a signal came between.
pub fn is_for_later(kind: ErrorKind) -> bool {
    matches!(kind, ErrorKind::WouldBlock | ErrorKind::Interrupted)
}

/// An answer of the system, whose error is counted and becomes a fault.
pub fn count_fault<T>(faults: &mut u64, answer: io::Result<T>) -> Result<T, Fault>
    ensures same { IfOk result (λ value. answer ≡ Ok value) }
    ensures count { faults.old ≤ faults.new }
    ensures failed { OnErr result (Rose faults.old faults.new) }
    ensures counted { faults.new ≡ after_answer result faults.old }
{
    match answer {
        Ok(value) => Ok(value),
        Err(error) => {
            *faults = faults.saturating_add(1);
            Err(fault_of(error.kind()))
        }
    }
}
