//! The data of types that are numbers and octets.

use crate::octets::Hex;
use crate::parts;
use crate::strings::{CharacterString, Unquoted};
use std::fmt::{self, Display};

/// Who may issue certificates (RFC 8659 4.1).
#[derive(Clone, Copy)]
pub(crate) struct Caa<'a> {
    flags: u8,
    tag: &'a [u8],
    value: &'a [u8],
}

impl<'a> Caa<'a> {
    /// The tag has an octet at least.
    pub(crate) fn read(data: &'a [u8]) -> Option<Caa<'a>> {
        let [flags, rest @ ..] = data else {
            return None;
        };
        let (tag, value) = parts::string_front(rest)?;
        if tag.is_empty() {
            return None;
        }
        Some(Caa {
            flags: *flags,
            tag,
            value,
        })
    }
}

impl Display for Caa<'_> {
    fn fmt<W: fmt::Write>(&self, f: &mut fmt::Formatter<W>) -> fmt::Result {
        let flags = self.flags;
        let tag = Unquoted(self.tag);
        let value = CharacterString(self.value);
        write!(f, "{flags} {tag} {value}")
    }
}

/// The certificate of a service (RFC 6698 2.1), or of a mailbox (RFC 8162 2).
#[derive(Clone, Copy)]
pub(crate) struct Tlsa<'a> {
    usage: u8,
    selector: u8,
    matching: u8,
    data: &'a [u8],
}

impl<'a> Tlsa<'a> {
    pub(crate) fn read(data: &'a [u8]) -> Option<Tlsa<'a>> {
        match data {
            [usage, selector, matching, rest @ ..] if !rest.is_empty() => Some(Tlsa {
                usage: *usage,
                selector: *selector,
                matching: *matching,
                data: rest,
            }),
            _ => None,
        }
    }
}

impl Display for Tlsa<'_> {
    fn fmt<W: fmt::Write>(&self, f: &mut fmt::Formatter<W>) -> fmt::Result {
        let usage = self.usage;
        let selector = self.selector;
        let matching = self.matching;
        let data = Hex(self.data);
        write!(f, "{usage} {selector} {matching} {data}")
    }
}

/// The fingerprint of a host's key (RFC 4255 3.1).
#[derive(Clone, Copy)]
pub(crate) struct Sshfp<'a> {
    algorithm: u8,
    kind: u8,
    fingerprint: &'a [u8],
}

impl<'a> Sshfp<'a> {
    pub(crate) fn read(data: &'a [u8]) -> Option<Sshfp<'a>> {
        match data {
            [algorithm, kind, rest @ ..] if !rest.is_empty() => Some(Sshfp {
                algorithm: *algorithm,
                kind: *kind,
                fingerprint: rest,
            }),
            _ => None,
        }
    }
}

impl Display for Sshfp<'_> {
    fn fmt<W: fmt::Write>(&self, f: &mut fmt::Formatter<W>) -> fmt::Result {
        let algorithm = self.algorithm;
        let kind = self.kind;
        let fingerprint = Hex(self.fingerprint);
        write!(f, "{algorithm} {kind} {fingerprint}")
    }
}

/// Where a resource is (RFC 7553 4.5).
#[derive(Clone, Copy)]
pub(crate) struct Uri<'a> {
    priority: u16,
    weight: u16,
    target: &'a [u8],
}

impl<'a> Uri<'a> {
    pub(crate) fn read(data: &'a [u8]) -> Option<Uri<'a>> {
        let (priority, rest) = parts::u16_front(data)?;
        let (weight, target) = parts::u16_front(rest)?;
        Some(Uri {
            priority,
            weight,
            target,
        })
    }
}

impl Display for Uri<'_> {
    fn fmt<W: fmt::Write>(&self, f: &mut fmt::Formatter<W>) -> fmt::Result {
        let priority = self.priority;
        let weight = self.weight;
        let target = CharacterString(self.target);
        write!(f, "{priority} {weight} {target}")
    }
}
