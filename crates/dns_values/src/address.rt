//! Addresses of IPv4 and IPv6, and their texts (RFC 4291 2.2, RFC 5952).

ghost use Rattle.std.specs.Prelude.{◌≡◌, Some};
ghost use Rattle.std.specs.Net.Grammar.{Parses};
ghost use Rattle.dns_values.specs.Address.{IsAddressText, address_text, socket_address_text};

use crate::error::ParseError;
use std::fmt::{self, Display};
use std::net;
use std::net::{Ipv4Addr, Ipv6Addr};

/// An address: four octets, or eight groups of 16 bits.
#[derive(Clone, Copy, Debug, PartialEq, Eq, PartialOrd, Ord, Hash)]
pub enum IpAddr {
    /// Its four octets, the highest first.
    V4([u8; 4]),
    /// Its eight groups, the highest first.
    V6([u16; 8]),
}

impl IpAddr {
    /// Reads four decimal numbers with dots between, or eight groups of hexadecimal digits with
    /// colons between, where `::` may stand for some zero groups and the last two groups may be
    /// written as an IPv4 address. Any other text is a `ParseError`.
    pub fn from_text(text: &str) -> Result<IpAddr, ParseError>
        ensures { Parses IsAddressText text.now result }
    {
        match text.parse::<net::IpAddr>() {
            Ok(net::IpAddr::V4(ip)) => Ok(IpAddr::V4(ip.octets())),
            Ok(net::IpAddr::V6(ip)) => Ok(IpAddr::V6(ip.segments())),
            Err(_) => Err(ParseError),
        }
    }
}

/// IPv6 in lower case, with `::` for the longest run of two zero groups or more, the first of
/// equal ones; an IPv4-mapped address ends in its IPv4 address.
impl Display for IpAddr {
    ghost output = { λ a. Some (address_text a) };

    fn fmt<W: fmt::Write>(&self, f: &mut fmt::Formatter<W>) -> fmt::Result {
        match self {
            IpAddr::V4(octets) => Display::fmt(&Ipv4Addr::from_octets(*octets), f),
            IpAddr::V6(groups) => Display::fmt(&Ipv6Addr::from_segments(*groups), f),
        }
    }
}

/// An address and a port.
#[derive(Clone, Copy, Debug, PartialEq, Eq, PartialOrd, Ord, Hash)]
pub struct SocketAddr {
    /// The address of a host.
    pub ip: IpAddr,
    /// The port there, of UDP or TCP.
    pub port: u16,
}

/// `a.b.c.d:port` or `[v6]:port`.
impl Display for SocketAddr {
    ghost output = { λ a. Some (socket_address_text a) };

    fn fmt<W: fmt::Write>(&self, f: &mut fmt::Formatter<W>) -> fmt::Result {
        let ip = self.ip;
        let port = self.port;
        match ip {
            IpAddr::V4(_) => write!(f, "{ip}:{port}"),
            IpAddr::V6(_) => write!(f, "[{ip}]:{port}"),
        }
    }
}
