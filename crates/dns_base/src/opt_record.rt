//! OPT records, which extend a message (RFC 6891 6.1).

ghost use Rattle.std.specs.Prelude.{◌≡◌, ◌<◌, ◌^◌, length, IsTrue, MatchResult, Some, None, option_map};
ghost use Rattle.dns_base.specs.Data.{are_options};
ghost use Rattle.dns_base.specs.OptRecord.{OptFields, opt_in, opt_record, first_opt, dnssec_ok};

use crate::record::{Record, RecordSection};
use dns_values::{ParseError, Rtype};
use std::marker::Model;

/// An OPT record whose data is a list of options.
#[derive(Drop)]
pub struct OptRecord<'a> {
    udp_payload_size: u16,
    ext_rcode: u8,
    version: u8,
    flags: u16,
    options: &'a [u8],
}

impl<'a> Model for OptRecord<'a> {
    ghost Value = { OptFields };

    ghost view = { λ o. record {
      udp_payload_size = o.udp_payload_size;
      ext_rcode = o.ext_rcode;
      version = o.version;
      flags = o.flags;
      options = o.options.now;
    } };

    ghost invariant = { λ o. IsTrue (are_options o.options.now) × (length o.options.now < 2 ^ 16) };
}

impl<'a> OptRecord<'a> {
    /// The record of these fields.
    pub fn new(
        udp_payload_size: u16,
        ext_rcode: u8,
        version: u8,
        flags: u16,
        options: &'a [u8],
    ) -> OptRecord<'a>
        requires whole { IsTrue (are_options options.now) }
        requires short { length options.now < 2 ^ 16 }
        ensures { result ≡ record { udp_payload_size = udp_payload_size; ext_rcode = ext_rcode; version = version; flags = flags; options = options.now } }
    {
        OptRecord {
            udp_payload_size,
            ext_rcode,
            version,
            flags,
            options,
        }
    }

    /// Reads one OPT record of the root. Refused exactly where the octets are no such record, its data doesn't fill
    /// the rest, or the data isn't a list of whole options.
    #[tactic(auto, unfolding(crate::specs::OptRecord::opt_record))]
    pub fn from_octets(octets: &'a [u8]) -> Result<OptRecord<'a>, ParseError>
        ensures { MatchResult result (λ o. opt_record octets.now ≡ Some o) (λ _. opt_record octets.now ≡ None) }
    {
        let (record, end) = match Record::parse(octets, 0) {
            Some(found) => found,
            None => return Err(ParseError),
        };
        if record.owner().labels().next().is_some() || end != octets.len() {
            return Err(ParseError);
        }
        match OptRecord::of(&record) {
            Some(opt) => Ok(opt),
            None => Err(ParseError),
        }
    }

    /// The OPT record that a record is, if it is one by its type and its data is read.
    pub(crate) fn of(entry: &Record<'a>) -> Option<OptRecord<'a>>
        ensures { result ≡ opt_in entry.now }
    {
        if entry.rtype() != Rtype::OPT || entry.data().is_err() {
            return None;
        }
        let ttl = entry.ttl().0;
        Some(OptRecord {
            udp_payload_size: entry.class().0,
            ext_rcode: (ttl >> 24) as u8,
            version: ((ttl >> 16) % 0x100) as u8,
            flags: (ttl % 0x1_0000) as u16,
            options: entry.raw_data(),
        })
    }

    /// The first of some records, before the first that can't be read.
    pub(crate) fn first(records: RecordSection<'a>) -> Option<OptRecord<'a>>
        ensures { result ≡ first_opt records.entry }
    {
        for record in records {
            let record = record.ok()?;
            let opt = OptRecord::of(&record);
            if opt.is_some() {
                return opt;
            }
        }
        None
    }

    /// The octets of a datagram that the sender takes.
    pub fn udp_payload_size(&self) -> u16
        ensures { result ≡ self.now.udp_payload_size }
    {
        self.udp_payload_size
    }

    /// The sender takes DNSSEC records (RFC 3225 3).
    pub fn dnssec_ok(&self) -> bool
        ensures { result ≡ dnssec_ok self.now }
    {
        self.flags & 0x8000 != 0
    }

    /// All sixteen bits of flags.
    pub fn flags(&self) -> u16
        ensures { result ≡ self.now.flags }
    {
        self.flags
    }

    /// The version of the extension, 0 as yet.
    pub fn version(&self) -> u8
        ensures { result ≡ self.now.version }
    {
        self.version
    }

    /// The eight bits of the response code above those of the header.
    pub fn ext_rcode(&self) -> u8
        ensures { result ≡ self.now.ext_rcode }
    {
        self.ext_rcode
    }

    /// The options, each with a code, a length and its octets.
    pub fn data(&self) -> &[u8]
        ensures all { result.now ≡ self.now.options }
        ensures whole { IsTrue (are_options self.now.options) }
        ensures short { length self.now.options < 2 ^ 16 }
    {
        self.options
    }
}
