//! The addresses of a host.

ghost use Rattle.std.specs.Prelude.{◌≡◌, ◌≤◌, IfErr, Some, option_map};
ghost use Rattle.std.specs.Iterator.{YieldsFirst, item_count};
ghost use Rattle.dns_base.specs.Message.{first_question};
ghost use Rattle.dns_base.specs.Canonical.{canonical_name};
ghost use Rattle.resolv_lookup.specs.Asked.{AsksBoth, octets_in};
ghost use Rattle.resolv_lookup.specs.Codes.{code_got};
ghost use Rattle.resolv_lookup.specs.Hosts.{hosts_found, chosen_of, has_none, are_empty, addresses_found, with_port, LooksUpHost, HostIsCounted, AreChecked};

use crate::address_iter::{AddressIter, Kind};
use crate::fault::{HostFault, QueryFault};
use crate::resolver::{AsMessage, Resolver};
use dns_base::{IpAddr, Message, Name, OptRcode, ParsedName, Rtype, SocketAddr};
use std::alloc::{AllocError, Global};
use std::fmt;
use std::marker::Model;

/// Asks for the addresses of a host: for its A records, and then for its AAAA records, side by side where the resolver can.
pub fn lookup_host<R: Resolver>(
    alloc: Global,
    resolver: &mut R,
    name: &Name,
) -> Result<FoundHosts<R>, HostFault>
    ensures asked { LooksUpHost (AsksBoth R.says R.together R.asked) name.now resolver.old resolver.new result }
    ensures count { R.faults resolver.old ≤ R.faults resolver.new }
    ensures failed { IfErr result (HostIsCounted (R.faults resolver.old) (R.faults resolver.new)) }
{
    let (a, aaaa) = resolver.query_both(alloc, name, Rtype::A, Rtype::AAAA);
    FoundHosts::new(aaaa, a)
}

/// The answers for the addresses of a host.
pub struct FoundHosts<R: Resolver> {
    aaaa: Result<R::Answer, QueryFault>,
    a: Result<R::Answer, QueryFault>,
}

impl<R: Resolver> Model for FoundHosts<R> {
    ghost use Rattle.resolv_lookup.specs.Asked.{octets_in};
    ghost use Rattle.resolv_lookup.specs.Hosts.{Hosts, AreChecked};

    ghost Value = { Hosts };

    ghost view = { λ f. record { aaaa = octets_in R.Answer.octets_of f.aaaa; a = octets_in R.Answer.octets_of f.a } };

    ghost invariant = { λ f. AreChecked (record { aaaa = octets_in R.Answer.octets_of f.aaaa; a = octets_in R.Answer.octets_of f.a }) };
}

impl<R: Resolver> Drop for FoundHosts<R> {
    fn drop(self) {
        let FoundHosts { aaaa: _, a: _ } = self;
    }
}

impl<R: Resolver> fmt::Debug for FoundHosts<R>
where
    R::Answer: fmt::Debug,
{
    fn fmt<W: fmt::Write>(&self, f: &mut fmt::Formatter<W>) -> fmt::Result {
        f.debug_struct("FoundHosts")
            .field("aaaa", &self.aaaa)
            .field("a", &self.a)
            .finish()
    }
}

impl<R: Resolver> FoundHosts<R> {
    /// What was found, where one of the two is an answer, and the chosen one, that for AAAA if it is
    /// an answer, has a question and leads to a canonical name.
    pub fn new(
        aaaa: Result<R::Answer, QueryFault>,
        a: Result<R::Answer, QueryFault>,
    ) -> Result<FoundHosts<R>, HostFault>
        ensures { result ≡ hosts_found (octets_in R.Answer.octets_of aaaa) (octets_in R.Answer.octets_of a) }
    {
        let answer = match (&aaaa, &a) {
            (Ok(answer), _) | (Err(_), Ok(answer)) => answer.as_message(),
            (Err(fault), Err(_)) => return Err(HostFault::Query(*fault)),
        };
        if answer.first_question().is_none() {
            return Err(HostFault::NoQuestion);
        }
        if answer.canonical_name().is_none() {
            return Err(HostFault::CnameLoop);
        }
        Ok(FoundHosts { aaaa, a })
    }

    /// Whether each question failed or got an answer with no record.
    pub fn is_empty(&self) -> bool
        ensures { result ≡ are_empty self.now }
    {
        has_none(&self.aaaa) && has_none(&self.a)
    }

    /// The response code of the answer for IPv6 addresses, or why the question got none. NXDOMAIN is a host that is not there
    /// (RFC 1035 4.1.1), NOERROR one that is, with such addresses or without, and any other code tells of the server.
    pub fn aaaa_rcode(&self) -> Result<OptRcode, QueryFault>
        ensures { result ≡ code_got self.now.aaaa }
    {
        rcode_in(&self.aaaa)
    }

    /// The same of the answer for IPv4 addresses.
    pub fn a_rcode(&self) -> Result<OptRcode, QueryFault>
        ensures { result ≡ code_got self.now.a }
    {
        rcode_in(&self.a)
    }

    /// The chosen answer.
    fn answer(&self) -> &Message
        ensures chosen { result.now ≡ chosen_of self.now }
        ensures checked { AreChecked self.now }
    {
        match &self.aaaa {
            Ok(answer) => answer.as_message(),
            Err(_) => self.a.as_ref().unwrap().as_message(),
        }
    }

    /// The name that the chosen answer's question asks for.
    pub fn qname(&self) -> ParsedName<'_>
        ensures { Some result ≡ option_map (λ q. q.name) (first_question (chosen_of self.now)) }
    {
        self.answer().first_question().unwrap().qname()
    }

    /// The name that the aliases of the chosen answer lead to.
    pub fn canonical_name(&self) -> ParsedName<'_>
        ensures { Some result ≡ canonical_name (chosen_of self.now) }
    {
        self.answer().canonical_name().unwrap()
    }

    /// The addresses: those of AAAA records, and then those of A records, of the records that the
    /// canonical name of their answer owns. Records whose data can't be read are skipped.
    pub fn iter(&self) -> FoundHostsIter<'_>
        ensures { result ≡ addresses_found self.now }
    {
        FoundHostsIter {
            aaaa: AddressIter::of(Kind::Ipv6, &self.aaaa),
            a: AddressIter::of(Kind::Ipv4, &self.a),
        }
    }

    /// The same addresses with a port.
    pub fn port_iter(&self, port: u16) -> FoundHostsSocketIter<'_>
        ensures { result ≡ with_port port (addresses_found self.now) }
    {
        FoundHostsSocketIter {
            iter: self.iter(),
            port,
        }
    }
}

/// Whether a question failed, or got an answer with no record.
fn has_none<A: AsMessage>(got: &Result<A, QueryFault>) -> bool
    ensures { result ≡ has_none (octets_in A.octets_of got.now) }
{
    match got {
        Ok(answer) => answer.as_message().header_counts().ancount() == 0,
        Err(_) => true,
    }
}

/// The response code of what a question got, with the bits of its OPT record (RFC 6891 6.1.3).
fn rcode_in<A: AsMessage>(got: &Result<A, QueryFault>) -> Result<OptRcode, QueryFault>
    ensures { result ≡ code_got (octets_in A.octets_of got.now) }
{
    match got {
        Ok(answer) => Ok(answer.as_message().opt_rcode()),
        Err(fault) => Err(*fault),
    }
}

/// The addresses of a host that are left to give.
#[derive(Drop)]
pub struct FoundHostsIter<'a> {
    aaaa: AddressIter<'a>,
    a: AddressIter<'a>,
}

impl<'a> Model for FoundHostsIter<'a> {
    ghost use Rattle.std.specs.Prelude.{List, ◌++◌};
    ghost use Rattle.dns_values.specs.declared.address.IpAddr.{IpAddr};

    ghost Value = { List IpAddr };

    ghost view = { λ f. f.aaaa ++ f.a };
}

impl<'a> Iterator for FoundHostsIter<'a> {
    type Item = IpAddr;

    ghost next_gives = { YieldsFirst (λ s. s) };

    ghost remaining = { item_count (λ s. s) };

    fn next(&mut self) -> Option<IpAddr> {
        match self.aaaa.next() {
            Some(address) => Some(address),
            None => self.a.next(),
        }
    }
}

/// What is left to give. It takes no memory.
impl Clone for FoundHostsIter<'_> {
    ghost is_clone = { λ s t. t ≡ s };

    ghost is_infallible = { λ _. Unit {0} };

    fn clone(&self) -> Result<Self, AllocError> {
        Ok(FoundHostsIter {
            aaaa: self.aaaa.again(),
            a: self.a.again(),
        })
    }
}

/// The addresses of a host that are left to give, each with a port.
#[derive(Drop)]
pub struct FoundHostsSocketIter<'a> {
    iter: FoundHostsIter<'a>,
    port: u16,
}

impl<'a> Model for FoundHostsSocketIter<'a> {
    ghost use Rattle.std.specs.Prelude.{List};
    ghost use Rattle.dns_values.specs.declared.address.SocketAddr.{SocketAddr};
    ghost use Rattle.resolv_lookup.specs.Hosts.{with_port};

    ghost Value = { List SocketAddr };

    ghost view = { λ f. with_port f.port f.iter };
}

impl<'a> Iterator for FoundHostsSocketIter<'a> {
    type Item = SocketAddr;

    ghost next_gives = { YieldsFirst (λ s. s) };

    ghost remaining = { item_count (λ s. s) };

    fn next(&mut self) -> Option<SocketAddr> {
        let ip = self.iter.next()?;
        Some(SocketAddr {
            ip,
            port: self.port,
        })
    }
}

/// What is left to give. It takes no memory.
impl Clone for FoundHostsSocketIter<'_> {
    ghost is_clone = { λ s t. t ≡ s };

    ghost is_infallible = { λ _. Unit {0} };

    fn clone(&self) -> Result<Self, AllocError> {
        Ok(FoundHostsSocketIter {
            iter: FoundHostsIter {
                aaaa: self.iter.aaaa.again(),
                a: self.iter.a.again(),
            },
            port: self.port,
        })
    }
}
