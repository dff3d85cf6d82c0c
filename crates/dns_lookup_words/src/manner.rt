//! How a name is asked for, and how its answer is written.

use dns_names::Name;
use dns_values::{Class, Rtype};

/// What the header and the OPT record of a request say beside its question (RFC 1035 4.1.1, RFC 6891 6.1).
#[derive(Clone, Copy, Debug, PartialEq, Eq)]
pub struct Flags {
    /// Whether the server is to ask others (RD).
    pub recursion: bool,
    /// Whether it is to say that an answer is authentic (AD, RFC 6840 5.7).
    pub authentic: bool,
    /// Whether it may give what it could not validate (CD, RFC 4035 3.2.2).
    pub unchecked: bool,
    /// The bit by which an answer says that it is authoritative (AA), which no query needs.
    pub authoritative: bool,
    /// The bit by which a message says that it is cut (TC), which no query needs.
    pub truncated: bool,
    /// The bit by which an answer says that recursion is to be had (RA), which no query needs.
    pub available: bool,
    /// The bit of the header that has no meaning yet (Z).
    pub reserved: bool,
    /// Whether records of DNSSEC are asked for (DO, RFC 3225).
    pub dnssec: bool,
    /// Whether the server is asked for its name (NSID, RFC 5001).
    pub nsid: bool,
    /// Whether it is asked when its copy of the zone expires (EXPIRE, RFC 7314).
    pub expire: bool,
}

/// What is written of an answer.
#[derive(Clone, Copy, Debug, PartialEq, Eq)]
pub struct Layout {
    /// The data of the answer section alone.
    pub short: bool,
    /// Behind such data the server and the time.
    pub identify: bool,
    /// The message as an object of JSON alone (RFC 8427).
    pub json: bool,
    /// What the message says as a document of YAML.
    pub yaml: bool,
    /// Records on several lines where one would be long.
    pub multiline: bool,
    /// For how long each record may be kept.
    pub ttl: bool,
    /// The class of each record.
    pub class: bool,
    /// That time in weeks, days, hours, minutes and seconds.
    pub units: bool,
    /// Addresses of IPv6 with all their digits.
    pub expanded: bool,
    /// The request, before the answer.
    pub query: bool,
    /// The question section.
    pub question: bool,
    /// The answer section.
    pub answer: bool,
    /// The authority section.
    pub authority: bool,
    /// The additional section.
    pub additional: bool,
    /// The header, the OPT record and the titles of sections.
    pub comments: bool,
    /// How long the request took, who answered, and how many octets.
    pub stats: bool,
}

/// How a name is asked for beside its type, and how its answer is written.
#[derive(Clone, Copy, Debug, PartialEq, Eq)]
pub struct Manner {
    /// The class: IN, CH or HS.
    pub class: Class,
    pub flags: Flags,
    pub layout: Layout,
}

/// A request, and how its answer is written.
#[derive(Debug, Drop)]
pub struct Ask {
    pub name: Name,
    pub rtype: Rtype,
    /// Whether the name has its final dot, or is an address's, so that no suffix is searched for it.
    pub rooted: bool,
    pub manner: Manner,
}

/// The payload size that requests announce (RFC 6891 6.2.3).
#[derive(Clone, Copy, Debug, PartialEq, Eq)]
pub enum Announced {
    /// The usual one.
    Usual,
    /// This many octets.
    Size(u16),
    /// None: a request by datagrams has an OPT record only for what is asked in it.
    Nothing,
}

/// The addresses at which servers are asked.
#[derive(Clone, Copy, Debug, PartialEq, Eq)]
pub enum Family {
    /// Those of IPv4 alone.
    V4,
    /// Those of IPv6 alone.
    V6,
}
