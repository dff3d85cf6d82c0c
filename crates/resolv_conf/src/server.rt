//! Servers, and how they are asked.

ghost use Rattle.std.specs.Prelude.{◌≡◌, [], map, IfOk};
ghost use Rattle.resolv_conf.specs.Server.{or_this_host, with_timeout};

use dns_values::{Duration, IpAddr, NoMemory, Seq, SocketAddr};
use std::alloc::Global;

/// The port of the DNS (RFC 1035 4.2).
pub(crate) const DNS_PORT: u16 = 53;

/// The greatest datagram that a server is asked for, in octets.
const DATAGRAM_SIZE: u16 = 1232;

/// By which transports a server is asked.
#[derive(Clone, Copy, Debug, PartialEq, Eq, Hash)]
pub enum Transport {
    /// By datagrams, and by a stream where an answer is truncated.
    UdpTcp,
    /// By a stream alone.
    Tcp,
}

/// A server and how it is asked.
#[derive(Clone, Copy, Debug, PartialEq, Eq)]
pub struct ServerConf {
    /// Where it is asked.
    pub addr: SocketAddr,
    /// By which transports it is asked.
    pub transport: Transport,
    /// Kept alone, nothing reads it: how long a request may take.
    pub request_timeout: Duration,
    /// Kept alone, nothing reads it: the greatest answer that is received, in octets.
    pub recv_size: usize,
    /// Kept alone, nothing reads it: the greatest answer that is asked for, in octets (RFC 6891 6.2.3).
    pub udp_payload_size: u16,
}

impl ServerConf {
    /// A server with two seconds for a request, and datagrams of at most 1232 octets.
    pub fn new(addr: SocketAddr, transport: Transport) -> ServerConf
        ensures { result ≡ record { addr = addr; transport = transport; request_timeout = 2000000; recv_size = 1232; udp_payload_size = 1232 } }
    {
        ServerConf {
            addr,
            transport,
            request_timeout: Duration::from_secs(2),
            recv_size: DATAGRAM_SIZE as usize,
            udp_payload_size: DATAGRAM_SIZE,
        }
    }
}

/// A list of servers.
pub type Servers = Seq<ServerConf>;

/// This host alone, at the port of the DNS.
pub(crate) fn this_host(alloc: Global) -> Result<Servers, NoMemory>
    ensures { IfOk result (λ s. s ≡ or_this_host []) }
{
    let ip = IpAddr::V4([127, 0, 0, 1]);
    let addr = SocketAddr { ip, port: DNS_PORT };
    let mut servers = Servers::new(alloc);
    servers.push(ServerConf::new(addr, Transport::UdpTcp))?;
    Ok(servers)
}

/// The servers, each with this time for a request.
pub(crate) fn with_request_timeout(servers: Servers, timeout: Duration) -> Servers
    ensures { result ≡ map (with_timeout timeout) servers }
{
    let mut items = servers.into_vec();
    for server in items.iter_mut() {
        server.request_timeout = timeout;
    }
    Servers::from_vec(items)
}
