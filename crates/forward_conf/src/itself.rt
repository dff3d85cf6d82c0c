//! Whether a forwarder would ask itself.

ghost use Rattle.std.specs.Prelude.{◌≡◌};
ghost use Rattle.forward_conf.specs.Itself as spec;

use dns_base::IpAddr;
use dns_values::SocketAddr;
use resolv_conf::{ResolvConf, ServerConf};

/// Whether two addresses are the same.
fn is_same_ip(a: &IpAddr, b: &IpAddr) -> bool
    ensures { result ≡ spec.is_same_ip a.now b.now }
{
    match (a, b) {
        (IpAddr::V4(a), IpAddr::V4(b)) => a.as_slice() == b.as_slice(),
        (IpAddr::V6(a), IpAddr::V6(b)) => a.as_slice() == b.as_slice(),
        _ => false,
    }
}

/// Whether an address is among these.
fn is_among(ip: &IpAddr, listened: &[IpAddr]) -> bool
    ensures { result ≡ spec.is_among ip.now listened.now }
{
    listened.iter().any(|it| is_same_ip(ip, it))
}

/// Whether a server is the forwarder itself.
fn is_itself(listened: &[IpAddr], port: u16, server: &ServerConf) -> bool
    ensures { result ≡ spec.is_itself listened.now port server.now }
{
    server.addr.port == port && is_among(&server.addr.ip, listened)
}

/// The first server of a configuration that is the forwarder itself, where it is listened at these addresses and this port.
pub fn asked_itself(listened: &[IpAddr], port: u16, conf: &ResolvConf) -> Option<SocketAddr>
    ensures { result ≡ spec.asked_itself listened.now port conf.now }
{
    conf.servers
        .as_slice()
        .iter()
        .find(|server| is_itself(listened, port, server))
        .map(|server| server.addr)
}
