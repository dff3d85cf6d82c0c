//! What messages and their entries print for whoever looks for a mistake.

use crate::message::Message;
use crate::question::Question;
use crate::record::Record;
use std::fmt::{self, Debug};

/// The name, type and class, by their texts.
impl Debug for Question<'_> {
    fn fmt<W: fmt::Write>(&self, f: &mut fmt::Formatter<W>) -> fmt::Result {
        let qname = self.qname();
        let qtype = self.qtype();
        let qclass = self.qclass();
        f.debug_struct("Question")
            .field("qname", &format_args!("{qname}"))
            .field("qtype", &format_args!("{qtype}"))
            .field("qclass", &format_args!("{qclass}"))
            .finish()
    }
}

/// The owner, type and class by their texts, and the data as it stands.
impl Debug for Record<'_> {
    fn fmt<W: fmt::Write>(&self, f: &mut fmt::Formatter<W>) -> fmt::Result {
        let owner = self.owner();
        let rtype = self.rtype();
        let class = self.class();
        let ttl = self.ttl();
        f.debug_struct("Record")
            .field("owner", &format_args!("{owner}"))
            .field("rtype", &format_args!("{rtype}"))
            .field("class", &format_args!("{class}"))
            .field("ttl", &ttl.0)
            .field("data", &self.raw_data())
            .finish()
    }
}

/// The id, the codes by their names, how many entries each section has, and all octets.
impl Debug for Message {
    fn fmt<W: fmt::Write>(&self, f: &mut fmt::Formatter<W>) -> fmt::Result {
        let header = self.header();
        let opcode = header.opcode();
        let rcode = header.rcode();
        f.debug_struct("Message")
            .field("id", &header.id())
            .field("opcode", &format_args!("{opcode}"))
            .field("rcode", &format_args!("{rcode}"))
            .field("counts", &self.header_counts())
            .field("octets", &self.as_slice())
            .finish()
    }
}
