//! The data of DNSSEC's types (RFC 4034, RFC 5155).

use crate::base64::{Base32, Base64};
use crate::counted::{PartKind, Parts};
use crate::names::Absolute;
use crate::octets::Hex;
use crate::parts;
use crate::time::Moment;
use dns_base::{ParsedName, Rtype};
use std::fmt::{self, Display};

/// The digest of a key (RFC 4034 5.1).
#[derive(Clone, Copy)]
pub(crate) struct Ds<'a> {
    tag: u16,
    algorithm: u8,
    kind: u8,
    digest: &'a [u8],
}

impl<'a> Ds<'a> {
    /// The digest has an octet at least.
    pub(crate) fn read(data: &'a [u8]) -> Option<Ds<'a>> {
        let (tag, rest) = parts::u16_front(data)?;
        match rest {
            [algorithm, kind, digest @ ..] if !digest.is_empty() => Some(Ds {
                tag,
                algorithm: *algorithm,
                kind: *kind,
                digest,
            }),
            _ => None,
        }
    }
}

impl Display for Ds<'_> {
    fn fmt<W: fmt::Write>(&self, f: &mut fmt::Formatter<W>) -> fmt::Result {
        let tag = self.tag;
        let algorithm = self.algorithm;
        let kind = self.kind;
        let digest = Hex(self.digest);
        write!(f, "{tag} {algorithm} {kind} {digest}")
    }
}

/// A key (RFC 4034 2.1).
#[derive(Clone, Copy)]
pub(crate) struct Dnskey<'a> {
    flags: u16,
    protocol: u8,
    algorithm: u8,
    key: &'a [u8],
}

impl<'a> Dnskey<'a> {
    /// The key has an octet at least.
    pub(crate) fn read(data: &'a [u8]) -> Option<Dnskey<'a>> {
        let (flags, rest) = parts::u16_front(data)?;
        match rest {
            [protocol, algorithm, key @ ..] if !key.is_empty() => Some(Dnskey {
                flags,
                protocol: *protocol,
                algorithm: *algorithm,
                key,
            }),
            _ => None,
        }
    }
}

impl Display for Dnskey<'_> {
    fn fmt<W: fmt::Write>(&self, f: &mut fmt::Formatter<W>) -> fmt::Result {
        let flags = self.flags;
        let protocol = self.protocol;
        let algorithm = self.algorithm;
        let key = Base64(self.key);
        write!(f, "{flags} {protocol} {algorithm} {key}")
    }
}

/// What a signature covers, and when it holds (RFC 2535 4.1, RFC 4034 3.1).
#[derive(Clone, Copy)]
pub(crate) struct Signed {
    covered: Rtype,
    algorithm: u8,
    labels: u8,
    ttl: u32,
    expires: Moment,
    begins: Moment,
    tag: u16,
}

impl Signed {
    pub(crate) fn front(data: &[u8]) -> Option<(Signed, &[u8])> {
        let (covered, rest) = parts::u16_front(data)?;
        let [algorithm, labels, rest @ ..] = rest else {
            return None;
        };
        let (ttl, rest) = parts::u32_front(rest)?;
        let (expires, rest) = parts::u32_front(rest)?;
        let (begins, rest) = parts::u32_front(rest)?;
        let (tag, rest) = parts::u16_front(rest)?;
        let signed = Signed {
            covered: Rtype(covered),
            algorithm: *algorithm,
            labels: *labels,
            ttl,
            expires: Moment(expires),
            begins: Moment(begins),
            tag,
        };
        Some((signed, rest))
    }
}

impl Display for Signed {
    fn fmt<W: fmt::Write>(&self, f: &mut fmt::Formatter<W>) -> fmt::Result {
        let covered = self.covered;
        let algorithm = self.algorithm;
        let labels = self.labels;
        let ttl = self.ttl;
        write!(f, "{covered} {algorithm} {labels} {ttl}")?;
        let expires = self.expires;
        let begins = self.begins;
        let tag = self.tag;
        write!(f, " {expires} {begins} {tag}")
    }
}

/// A signature (RFC 4034 3.1).
#[derive(Drop)]
pub(crate) struct Rrsig<'a> {
    signed: Signed,
    signer: ParsedName<'a>,
    signature: &'a [u8],
}

impl<'a> Rrsig<'a> {
    /// The signature has an octet at least.
    pub(crate) fn read(data: &'a [u8]) -> Option<Rrsig<'a>> {
        let (signed, rest) = Signed::front(data)?;
        let (signer, signature) = parts::name_front(rest)?;
        if signature.is_empty() {
            return None;
        }
        Some(Rrsig {
            signed,
            signer,
            signature,
        })
    }
}

impl Display for Rrsig<'_> {
    fn fmt<W: fmt::Write>(&self, f: &mut fmt::Formatter<W>) -> fmt::Result {
        let signed = self.signed;
        let signer = Absolute(&self.signer);
        let signature = Base64(self.signature);
        write!(f, "{signed} {signer} {signature}")
    }
}

/// The next name of a zone, and the types of this one (RFC 4034 4.1).
#[derive(Drop)]
pub(crate) struct Nsec<'a> {
    next: ParsedName<'a>,
    types: Parts<'a>,
}

impl<'a> Nsec<'a> {
    pub(crate) fn read(data: &'a [u8]) -> Option<Nsec<'a>> {
        let (next, rest) = parts::name_front(data)?;
        let types = Parts::read(PartKind::Window, rest)?;
        Some(Nsec { next, types })
    }
}

impl Display for Nsec<'_> {
    fn fmt<W: fmt::Write>(&self, f: &mut fmt::Formatter<W>) -> fmt::Result {
        let next = Absolute(&self.next);
        let types = self.types;
        write!(f, "{next}{types}")
    }
}

/// How the names of a zone are hashed (RFC 5155 4.1).
#[derive(Clone, Copy)]
pub(crate) struct Hashing<'a> {
    algorithm: u8,
    flags: u8,
    iterations: u16,
    salt: &'a [u8],
}

impl<'a> Hashing<'a> {
    fn front(data: &'a [u8]) -> Option<(Hashing<'a>, &'a [u8])> {
        let [algorithm, flags, rest @ ..] = data else {
            return None;
        };
        let (iterations, rest) = parts::u16_front(rest)?;
        let (salt, rest) = parts::string_front(rest)?;
        let hashing = Hashing {
            algorithm: *algorithm,
            flags: *flags,
            iterations,
            salt,
        };
        Some((hashing, rest))
    }

    /// The data of an NSEC3PARAM record.
    pub(crate) fn read(data: &'a [u8]) -> Option<Hashing<'a>> {
        let (hashing, rest) = Hashing::front(data)?;
        if rest.is_empty() { Some(hashing) } else { None }
    }
}

/// No salt is `-`.
impl Display for Hashing<'_> {
    fn fmt<W: fmt::Write>(&self, f: &mut fmt::Formatter<W>) -> fmt::Result {
        let algorithm = self.algorithm;
        let flags = self.flags;
        let iterations = self.iterations;
        let salt = Hex(self.salt);
        if self.salt.is_empty() {
            return write!(f, "{algorithm} {flags} {iterations} -");
        }
        write!(f, "{algorithm} {flags} {iterations} {salt}")
    }
}

/// The next hash of a zone, and the types of this name (RFC 5155 3.1).
#[derive(Clone, Copy)]
pub(crate) struct Nsec3<'a> {
    hashing: Hashing<'a>,
    next: &'a [u8],
    types: Parts<'a>,
}

impl<'a> Nsec3<'a> {
    /// The hash has an octet at least.
    pub(crate) fn read(data: &'a [u8]) -> Option<Nsec3<'a>> {
        let (hashing, rest) = Hashing::front(data)?;
        let (next, rest) = parts::string_front(rest)?;
        let types = Parts::read(PartKind::Window, rest)?;
        if next.is_empty() {
            return None;
        }
        Some(Nsec3 {
            hashing,
            next,
            types,
        })
    }
}

impl Display for Nsec3<'_> {
    fn fmt<W: fmt::Write>(&self, f: &mut fmt::Formatter<W>) -> fmt::Result {
        let hashing = self.hashing;
        let next = Base32(self.next);
        let types = self.types;
        write!(f, "{hashing} {next}{types}")
    }
}
