//! The OPT record that is sent with a request (RFC 6891 6.1).

ghost use Rattle.std.specs.Prelude.{◌≡◌, ◌++◌, [], Some, IfOk};
ghost use Rattle.client_request.specs.Request.{opt_written, opt_or_empty, option_octets};
ghost use Rattle.message_judging.specs.matching.Matching as spec;
ghost use Rattle.message_judging.specs.matching.Shapes.{same_octets};

use dns_base::{NoMemory, OptRecord, Record, Rtype};
use std::alloc::Global;
use std::marker::Model;

/// The OPT record of a request, whose options lie elsewhere.
#[derive(Drop)]
pub(crate) struct SentOpt<'a> {
    udp_payload_size: u16,
    ext_rcode: u8,
    version: u8,
    flags: u16,
    options: &'a [u8],
}

impl<'a> Model for SentOpt<'a> {
    ghost use Rattle.dns_base.specs.OptRecord.{OptFields};

    ghost Value = { OptFields };

    ghost view = { λ o. record {
      udp_payload_size = o.udp_payload_size;
      ext_rcode = o.ext_rcode;
      version = o.version;
      flags = o.flags;
      options = o.options.now;
    } };
}

impl<'a> SentOpt<'a> {
    /// The one that is recorded.
    pub(crate) fn of(opt: &'a OptRecord<'_>) -> SentOpt<'a>
        ensures { result ≡ opt.now }
    {
        SentOpt {
            udp_payload_size: opt.udp_payload_size(),
            ext_rcode: opt.ext_rcode(),
            version: opt.version(),
            flags: opt.flags(),
            options: opt.data(),
        }
    }

    /// The one that is recorded, if there is one.
    pub(crate) fn recorded(opt: &'a Option<OptRecord<'_>>) -> Option<SentOpt<'a>>
        ensures { result ≡ opt.now }
    {
        match opt {
            Some(opt) => Some(SentOpt::of(opt)),
            None => None,
        }
    }

    /// The one that is recorded, or one without anything.
    pub(crate) fn or_empty(opt: &'a Option<OptRecord<'_>>) -> SentOpt<'a>
        ensures { result ≡ opt_or_empty opt.now }
    {
        match opt {
            Some(opt) => SentOpt::of(opt),
            None => SentOpt {
                udp_payload_size: 0,
                ext_rcode: 0,
                version: 0,
                flags: 0,
                options: &[],
            },
        }
    }

    /// The same with another payload size.
    pub(crate) fn with_payload_size(self, value: u16) -> SentOpt<'a>
        ensures { result ≡ record self.entry { udp_payload_size = value } }
    {
        SentOpt {
            udp_payload_size: value,
            ..self
        }
    }

    /// The same with other options.
    pub(crate) fn with_options(&self, options: &'a [u8]) -> SentOpt<'a>
        ensures { result ≡ record self.now { options = options.now } }
    {
        SentOpt {
            udp_payload_size: self.udp_payload_size,
            ext_rcode: self.ext_rcode,
            version: self.version,
            flags: self.flags,
            options,
        }
    }

    /// Its options, and the empty option edns-tcp-keepalive behind them (RFC 7828 3.2.1).
    pub(crate) fn options_with_keepalive(&self, alloc: Global) -> Result<Vec<u8>, NoMemory>
        ensures { IfOk result (λ o. o.items ≡ self.now.options ++ option_octets 11 []) }
    {
        let mut options = Vec::from_slice(alloc, self.options)?;
        options.extend_from_slice(&[0, 11, 0, 0])?;
        Ok(options)
    }

    /// Its fields that stand in the TTL of a record.
    fn ttl(&self) -> u32
        ensures { result ≡ (opt_written self.now).ttl }
    {
        let high = u32::from(self.ext_rcode) * 0x100_0000 + u32::from(self.version) * 0x1_0000;
        high + u32::from(self.flags)
    }

    /// Whether a record that was read is this one.
    #[tactic(auto, using(crate::proofs::lemmas::matching::Names::is_root_name))]
    pub(crate) fn is_read_as(&self, found: &Record<'_>) -> bool
        ensures { result ≡ spec.reads_as found.now (opt_written self.now) }
    {
        found.owner().is_root()
            && found.rtype() == Rtype::OPT
            && found.class().0 == self.udp_payload_size
            && found.ttl().0 == self.ttl()
            && found.raw_data() == self.options
    }
}
