//! Addresses as the system takes them.

ghost use Rattle.std.specs.Prelude.{◌≡◌};
ghost use Rattle.std.specs.Net.Socket.{socket_ip, socket_port};
ghost use Rattle.client_edge.specs.Address.{IsSameIp};

use dns_base::{IpAddr, SocketAddr};
use std::net::{self, Ipv4Addr, Ipv6Addr};

/// The address as the system takes it.
pub fn system_address(addr: SocketAddr) -> net::SocketAddr
    ensures ip { IsSameIp addr.ip (socket_ip result) }
    ensures port { socket_port result ≡ addr.port }
{
    let ip = match addr.ip {
        IpAddr::V4(octets) => net::IpAddr::V4(Ipv4Addr::from(octets)),
        IpAddr::V6(groups) => net::IpAddr::V6(Ipv6Addr::from(groups)),
    };
    net::SocketAddr::new(ip, addr.port)
}
