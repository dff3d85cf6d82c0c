//! The servers of a service.

ghost use Rattle.std.specs.Prelude.{◌≡◌, ◌≤◌, [], IfOk, IfErr};
ghost use Rattle.resolv_lookup.specs.Asked.{AsksBoth};
ghost use Rattle.resolv_lookup.specs.Hosts.{HostIsCounted, with_port};
ghost use Rattle.resolv_lookup.specs.Resolving.{Resolves};

use crate::fault::HostFault;
use crate::host::{FoundHostsSocketIter, lookup_host};
use crate::resolver::Resolver;
use dns_base::{IpAddr, Name, NoMemory, SocketAddr};
use std::alloc::Global;
use std::marker::Model;
use std::sync::Arc;

/// Where a server of a service is (RFC 2782).
#[derive(Debug, Drop)]
pub struct Srv {
    /// Servers of lower priorities are tried first.
    pub priority: u16,
    /// Of servers of one priority, a greater weight makes it more likely to be tried early.
    pub weight: u16,
    /// The port of the service there.
    pub port: u16,
    /// The host.
    pub target: Name,
}

impl Srv {
    /// The same server.
    pub fn try_clone(&self, alloc: Global) -> Result<Srv, NoMemory>
        ensures { IfOk result (λ s. s ≡ self.now) }
    {
        Ok(Srv {
            priority: self.priority,
            weight: self.weight,
            port: self.port,
            target: self.target.try_clone(alloc)?,
        })
    }
}

/// A server of a service, and the addresses of its host that came with it.
#[derive(Debug, Drop)]
pub struct SrvItem {
    srv: Srv,
    addresses: Arc<Vec<IpAddr>>,
}

impl Model for SrvItem {
    ghost use Rattle.resolv_lookup.specs.Items.{Item};

    ghost Value = { Item };

    ghost view = { λ i. record { srv = i.srv; addresses = i.addresses.value.items } };
}

impl SrvItem {
    /// A server, and addresses of its host.
    pub(crate) fn new(srv: Srv, addresses: Arc<Vec<IpAddr>>) -> SrvItem
        ensures { result ≡ record { srv = srv; addresses = addresses.value.items } }
    {
        SrvItem { srv, addresses }
    }

    /// Where the server is.
    pub fn srv(&self) -> &Srv
        ensures { result.now ≡ self.now.srv }
    {
        &self.srv
    }

    /// Where the server is. It takes no memory.
    pub(crate) fn into_srv(self) -> Srv
        ensures { result ≡ self.srv }
    {
        self.srv
    }

    /// The same server with its addresses.
    pub fn try_clone(&self, alloc: Global) -> Result<SrvItem, NoMemory>
        ensures { IfOk result (λ i. i ≡ self.now) }
    {
        let srv = self.srv.try_clone(alloc)?;
        let addresses = Arc::try_clone(&self.addresses)?;
        Ok(SrvItem { srv, addresses })
    }

    /// The addresses of the server with its port: those that came with it, and nothing is asked, or
    /// else those that a lookup of its host finds.
    pub fn resolve<R: Resolver>(
        self,
        alloc: Global,
        resolver: &mut R,
    ) -> Result<ResolvedSrvItem, HostFault>
        ensures asked { Resolves (AsksBoth R.says R.together R.asked) self resolver.old resolver.new result }
        ensures count { R.faults resolver.old ≤ R.faults resolver.new }
        ensures failed { IfErr result (HostIsCounted (R.faults resolver.old) (R.faults resolver.new)) }
    {
        let port = self.srv.port;
        let resolved = if self.addresses.is_empty() {
            let found = lookup_host(alloc, resolver, &self.srv.target)?;
            found_at(alloc, found.port_iter(port))?
        } else {
            all_at(alloc, port, &self.addresses)?
        };
        Ok(ResolvedSrvItem {
            srv: self.srv,
            resolved,
        })
    }
}

/// The addresses that are left to give.
fn found_at(alloc: Global, addresses: FoundHostsSocketIter<'_>) -> Result<Vec<SocketAddr>, NoMemory>
    ensures { IfOk result (λ all. all.items ≡ addresses.entry) }
{
    let mut all = Vec::new(alloc);
    for address in addresses {
        all.push(address)?;
    }
    Ok(all)
}

/// Addresses with a port.
fn all_at(alloc: Global, port: u16, addresses: &[IpAddr]) -> Result<Vec<SocketAddr>, NoMemory>
    ensures { IfOk result (λ all. all.items ≡ with_port port addresses.now) }
{
    let mut all = Vec::new(alloc);
    for ip in addresses {
        all.push(SocketAddr { ip: *ip, port })?;
    }
    Ok(all)
}

/// A server of a service, and where it is reached.
#[derive(Debug, Drop)]
pub struct ResolvedSrvItem {
    srv: Srv,
    resolved: Vec<SocketAddr>,
}

impl Model for ResolvedSrvItem {
    ghost use Rattle.resolv_lookup.specs.Items.{Resolved};

    ghost Value = { Resolved };

    ghost view = { λ r. record { srv = r.srv; resolved = r.resolved.items } };
}

impl ResolvedSrvItem {
    /// Where the server is.
    pub fn srv(&self) -> &Srv
        ensures { result.now ≡ self.now.srv }
    {
        &self.srv
    }

    /// The addresses of its host with its port.
    pub fn resolved(&self) -> &[SocketAddr]
        ensures { result.now ≡ self.now.resolved }
    {
        &self.resolved
    }

    /// The same server with its addresses.
    pub fn try_clone(&self, alloc: Global) -> Result<ResolvedSrvItem, NoMemory>
        ensures { IfOk result (λ r. r ≡ self.now) }
    {
        let srv = self.srv.try_clone(alloc)?;
        let resolved = Vec::from_slice(alloc, &self.resolved)?;
        Ok(ResolvedSrvItem { srv, resolved })
    }
}
