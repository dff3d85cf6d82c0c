//! A server that a walk asks.

use dns_base::{IpAddr, Name};

/// A server: an address, and its name, if it is known by one.
#[derive(Debug, Drop)]
pub struct NameServer {
    pub name: Option<Name>,
    pub ip: IpAddr,
}
