//! What is kept of a query of a DNS client.

ghost use Rattle.std.specs.Prelude.{◌≡◌, IfOk, false};
ghost use Rattle.front_queries.specs.Query as spec;

use dns_base::{Class, Header, Name, NoMemory, Rtype};
use std::alloc::Global;
use std::marker::Model;

/// What the OPT record of a query says of its client (RFC 6891 6.1.3).
#[derive(Clone, Copy, Debug, PartialEq, Eq)]
pub struct Extension {
    /// How many octets of a datagram it takes.
    pub udp_payload_size: u16,
    /// Whether it takes DNSSEC records (RFC 3225 3).
    pub dnssec_ok: bool,
}

/// A query that is taken: it asks one question, and not for a zone.
#[derive(Debug)]
pub struct Query {
    pub(crate) header: Header,
    pub(crate) qname: Name,
    pub(crate) qtype: Rtype,
    pub(crate) qclass: Class,
    pub(crate) extension: Option<Extension>,
}

impl Model for Query {
    ghost Value = { spec.Query };

    ghost view = { λ q. record {
      header = q.header;
      asked = record { name = q.qname; rtype = q.qtype.0; class = q.qclass.0 };
      extension = q.extension;
    } };

    ghost invariant = { λ q. spec.is_of_zone q.qtype.0 ≡ false };
}

impl Drop for Query {
    fn drop(self) {
        let Query {
            header: _,
            qname: _,
            qtype: _,
            qclass: _,
            extension: _,
        } = self;
    }
}

/// A bit of this value, where it is set.
fn bit(value: u8, on: bool) -> u8
    ensures { result ≡ spec.bit value on }
{
    if on { value } else { 0 }
}

impl Query {
    /// Its id and its flags.
    pub fn header(&self) -> Header
        ensures { result ≡ self.now.header }
    {
        self.header
    }

    /// The name that is asked for, as the client spells it.
    pub fn qname(&self) -> &Name
        ensures { result.now ≡ self.now.asked.name }
    {
        &self.qname
    }

    /// The type of the records that are asked for. It is neither AXFR nor IXFR.
    pub fn qtype(&self) -> Rtype
        ensures asked { result.0 ≡ self.now.asked.rtype }
        ensures of_no_zone { spec.is_of_zone result.0 ≡ false }
    {
        self.qtype
    }

    /// Their class.
    pub fn qclass(&self) -> Class
        ensures { result.0 ≡ self.now.asked.class }
    {
        self.qclass
    }

    /// What its OPT record says, if it has one.
    pub fn extension(&self) -> Option<Extension>
        ensures { result ≡ self.now.extension }
    {
        self.extension
    }

    /// Whether its client takes DNSSEC records.
    pub fn takes_dnssec(&self) -> bool
        ensures { result ≡ spec.takes_dnssec self.now }
    {
        match self.extension {
            Some(extension) => extension.dnssec_ok,
            None => false,
        }
    }

    /// Whether it takes DNSSEC records, or asks whether the data is authentic (RFC 6840 5.7).
    fn asks_authentic(&self) -> bool
        ensures { result ≡ spec.asks_authentic self.now }
    {
        self.takes_dnssec() || self.header.ad()
    }

    /// What is asked of DNSSEC and of recursion, as four bits.
    fn flags(&self) -> u8
        ensures { result ≡ spec.flags_of self.now }
    {
        bit(8, self.takes_dnssec())
            + bit(4, self.asks_authentic())
            + bit(2, self.header.cd())
            + bit(1, self.header.rd())
    }

    /// What is asked, whatever the case of the name: one result serves all queries that are equal in it (RFC 4035 3.2).
    pub fn key(&self, alloc: Global) -> Result<Vec<u8>, NoMemory>
        ensures { IfOk result (λ key. key.items ≡ spec.key_of self.now) }
    {
        let name = self.qname.as_octets();
        let [t1, t0] = self.qtype.0.to_be_bytes();
        let [c1, c0] = self.qclass.0.to_be_bytes();
        let mut key = Vec::with_capacity(alloc, name.len() + 5)?;
        key.extend_from_slice(name)?;
        key.make_ascii_lowercase();
        key.extend_from_slice(&[t1, t0, c1, c0, self.flags()])?;
        Ok(key)
    }

    /// The same query.
    pub fn try_clone(&self, alloc: Global) -> Result<Query, NoMemory>
        ensures { IfOk result (λ q. q ≡ self.now) }
    {
        let qname = self.qname.try_clone(alloc)?;
        Ok(Query {
            header: self.header,
            qname,
            qtype: self.qtype,
            qclass: self.qclass,
            extension: self.extension,
        })
    }
}
