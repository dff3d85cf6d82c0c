//! The small numbers of the DNS: types, classes, codes and serials.

/// The type of a record or question (RFC 1035 3.2.2).
#[derive(Clone, Copy, Debug, PartialEq, Eq, PartialOrd, Ord, Hash)]
pub struct Rtype(pub u16);

impl Rtype {
    pub const A: Rtype = Rtype(1);

    pub const NS: Rtype = Rtype(2);

    pub const MD: Rtype = Rtype(3);

    pub const MF: Rtype = Rtype(4);

    pub const CNAME: Rtype = Rtype(5);

    pub const SOA: Rtype = Rtype(6);

    pub const MB: Rtype = Rtype(7);

    pub const MG: Rtype = Rtype(8);

    pub const MR: Rtype = Rtype(9);

    pub const NULL: Rtype = Rtype(10);

    pub const WKS: Rtype = Rtype(11);

    pub const PTR: Rtype = Rtype(12);

    pub const HINFO: Rtype = Rtype(13);

    pub const MINFO: Rtype = Rtype(14);

    pub const MX: Rtype = Rtype(15);

    pub const TXT: Rtype = Rtype(16);

    pub const RP: Rtype = Rtype(17);

    pub const AFSDB: Rtype = Rtype(18);

    pub const SIG: Rtype = Rtype(24);

    pub const KEY: Rtype = Rtype(25);

    pub const AAAA: Rtype = Rtype(28);

    pub const LOC: Rtype = Rtype(29);

    pub const SRV: Rtype = Rtype(33);

    pub const NAPTR: Rtype = Rtype(35);

    pub const KX: Rtype = Rtype(36);

    pub const CERT: Rtype = Rtype(37);

    pub const DNAME: Rtype = Rtype(39);

    pub const OPT: Rtype = Rtype(41);

    pub const APL: Rtype = Rtype(42);

    pub const DS: Rtype = Rtype(43);

    pub const SSHFP: Rtype = Rtype(44);

    pub const IPSECKEY: Rtype = Rtype(45);

    pub const RRSIG: Rtype = Rtype(46);

    pub const NSEC: Rtype = Rtype(47);

    pub const DNSKEY: Rtype = Rtype(48);

    pub const DHCID: Rtype = Rtype(49);

    pub const NSEC3: Rtype = Rtype(50);

    pub const NSEC3PARAM: Rtype = Rtype(51);

    pub const TLSA: Rtype = Rtype(52);

    pub const SMIMEA: Rtype = Rtype(53);

    pub const CDS: Rtype = Rtype(59);

    pub const CDNSKEY: Rtype = Rtype(60);

    pub const OPENPGPKEY: Rtype = Rtype(61);

    pub const CSYNC: Rtype = Rtype(62);

    pub const ZONEMD: Rtype = Rtype(63);

    pub const SVCB: Rtype = Rtype(64);

    pub const HTTPS: Rtype = Rtype(65);

    pub const SPF: Rtype = Rtype(99);

    pub const TKEY: Rtype = Rtype(249);

    pub const TSIG: Rtype = Rtype(250);

    pub const IXFR: Rtype = Rtype(251);

    pub const AXFR: Rtype = Rtype(252);

    pub const ANY: Rtype = Rtype(255);

    pub const URI: Rtype = Rtype(256);

    pub const CAA: Rtype = Rtype(257);
}

/// The class of a record or question (RFC 1035 3.2.4).
#[derive(Clone, Copy, Debug, PartialEq, Eq, PartialOrd, Ord, Hash)]
pub struct Class(pub u16);

impl Class {
    pub const IN: Class = Class(1);

    pub const CH: Class = Class(3);

    pub const HS: Class = Class(4);

    pub const NONE: Class = Class(254);

    pub const ANY: Class = Class(255);
}

/// The four bits of a header's response code (RFC 1035 4.1.1).
#[derive(Clone, Copy, Debug, PartialEq, Eq, PartialOrd, Ord, Hash)]
pub struct Rcode(pub u8);

impl Rcode {
    pub const NOERROR: Rcode = Rcode(0);

    pub const FORMERR: Rcode = Rcode(1);

    pub const SERVFAIL: Rcode = Rcode(2);

    pub const NXDOMAIN: Rcode = Rcode(3);

    pub const NOTIMP: Rcode = Rcode(4);

    pub const REFUSED: Rcode = Rcode(5);

    pub const YXDOMAIN: Rcode = Rcode(6);

    pub const YXRRSET: Rcode = Rcode(7);

    pub const NXRRSET: Rcode = Rcode(8);

    pub const NOTAUTH: Rcode = Rcode(9);

    pub const NOTZONE: Rcode = Rcode(10);
}

/// The twelve bits of a response code with its extension (RFC 6891 6.1.3).
#[derive(Clone, Copy, Debug, PartialEq, Eq, PartialOrd, Ord, Hash)]
pub struct OptRcode(pub u16);

impl OptRcode {
    pub const BADVERS: OptRcode = OptRcode(16);

    pub const BADCOOKIE: OptRcode = OptRcode(23);
}

/// The kind of query (RFC 1035 4.1.1).
#[derive(Clone, Copy, Debug, PartialEq, Eq, PartialOrd, Ord, Hash)]
pub struct Opcode(pub u8);

impl Opcode {
    pub const QUERY: Opcode = Opcode(0);

    pub const IQUERY: Opcode = Opcode(1);

    pub const STATUS: Opcode = Opcode(2);

    pub const NOTIFY: Opcode = Opcode(4);

    pub const UPDATE: Opcode = Opcode(5);
}

/// How long a record may be kept, in seconds (RFC 1035 3.2.1).
#[derive(Clone, Copy, Debug, PartialEq, Eq, PartialOrd, Ord, Hash)]
pub struct Ttl(pub u32);

/// The serial number of a zone (RFC 1035 3.3.13).
#[derive(Clone, Copy, Debug, PartialEq, Eq, Hash)]
pub struct Serial(pub u32);

/// The three lists of records of a message (RFC 1035 4.1).
#[derive(Clone, Copy, Debug, PartialEq, Eq, Hash)]
pub enum Section {
    /// Records that answer the question.
    Answer,
    /// Records of the zone that is in charge.
    Authority,
    /// Records that may help, an OPT record among them (RFC 6891 6.1.1).
    Additional,
}

/// The exit status of a program.
#[derive(Clone, Copy, Debug, PartialEq, Eq, Hash)]
pub struct Status(pub u8);
