//! Addresses that the system gives.

ghost use Rattle.std.specs.Prelude.{◌≡◌};
ghost use Rattle.std.specs.Net.Socket.{socket_ip, socket_port};
ghost use Rattle.client_edge.specs.Address.{IsSameIp};

use dns_values::{IpAddr, SocketAddr};
use std::net;

/// The address that the system gave. What it says beside the address and the port of IPv6 is left out.
pub fn address_of(addr: net::SocketAddr) -> SocketAddr
    ensures ip { IsSameIp result.ip (socket_ip addr) }
    ensures port { result.port ≡ socket_port addr }
{
    let ip = match addr.ip() {
        net::IpAddr::V4(ip) => IpAddr::V4(ip.octets()),
        net::IpAddr::V6(ip) => IpAddr::V6(ip.segments()),
    };
    SocketAddr {
        ip,
        port: addr.port(),
    }
}
