//! Sockets that are not connected, which the standard library makes of datagrams alone, and bound.

use libc::net::{AF_INET, AF_INET6, SOCK_CLOEXEC, SOCK_DGRAM, SOCK_NONBLOCK, SOCK_STREAM, socket};
use os::FromRawFd;
use std::io;
use std::net::SocketAddr;
use std::os::fd::OwnedFd;

/// A socket of a kind (`SOCK_DGRAM`, and else `SOCK_STREAM`) for an address, on which no call waits and which no other program
/// inherits. It is not connected yet.
pub fn unconnected(addr: SocketAddr, kind: i32) -> io::Result<OwnedFd> {
    let family = match addr {
        SocketAddr::V4(_) => AF_INET,
        SocketAddr::V6(_) => AF_INET6,
    };
    let kind = if kind == SOCK_DGRAM {
        SOCK_DGRAM | SOCK_NONBLOCK | SOCK_CLOEXEC
    } else {
        SOCK_STREAM | SOCK_NONBLOCK | SOCK_CLOEXEC
    };
    let descriptor = unsafe { socket(family, kind, 0) };
    if descriptor < 0 {
        return Err(io::Error::from_raw_os_error(os::errno()));
    }
    Ok(unsafe { OwnedFd::from_raw_fd(descriptor) })
}
