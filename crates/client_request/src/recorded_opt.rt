//! The OPT record that is recorded for a request.

ghost use Rattle.std.specs.Prelude.{◌≡◌, ◌<◌, ◌^◌, ◌↔◌, ◌⊎◌, IfOk, IfErr, IsErrOf, OnOk, OnErr, IsTrue, length};
ghost use Rattle.dns_base.specs.Data.{are_options};
ghost use Rattle.dns_base.specs.OptRecord.{OptFields, dnssec_ok};
ghost use Rattle.client_request.specs.Carries.{IsOpt};
ghost use Rattle.client_request.specs.Request.{empty_opt, option_octets, option_added, is_too_long, with_do};
ghost use Rattle.client_request.specs.declared.error.Error.TheVariants as errors;

use crate::error::Error;
use dns_base::{NoMemory, OptRecord};
use std::alloc::Global;
use std::marker::Model;

/// The most octets that the data of a record has (RFC 1035 4.1.3).
const MAX_OPTIONS: usize = 65535;

/// An OPT record that owns its options (RFC 6891 6.1).
#[derive(Debug, Drop)]
pub(crate) struct RecordedOpt {
    udp_payload_size: u16,
    ext_rcode: u8,
    version: u8,
    flags: u16,
    options: Vec<u8>,
}

impl Model for RecordedOpt {
    ghost Value = { OptFields };

    ghost view = { λ o. record {
      udp_payload_size = o.udp_payload_size;
      ext_rcode = o.ext_rcode;
      version = o.version;
      flags = o.flags;
      options = o.options.items;
    } };

    ghost invariant = { λ o. IsTrue (are_options o.options.items) × (length o.options.items < 65536) };
}

/// An option: its code, its length and its octets (RFC 6891 6.1.2).
fn option_octets(alloc: Global, code: u16, octets: &[u8]) -> Result<Vec<u8>, NoMemory>
    requires { length octets.now < 65536 }
    ensures { IfOk result (λ o. o.items ≡ option_octets code octets.now) }
{
    let count = octets.len() as u16;
    let mut option = Vec::new(alloc);
    option.extend_from_slice(&code.to_be_bytes())?;
    option.extend_from_slice(&count.to_be_bytes())?;
    option.extend_from_slice(octets)?;
    Ok(option)
}

/// Numbers have their ranges.
fn opt_fields_fit(udp_payload_size: u16, ext_rcode: u8, version: u8, flags: u16)
    ensures size { udp_payload_size < 2 ^ 16 }
    ensures rcode { ext_rcode < 2 ^ 8 }
    ensures version { version < 2 ^ 8 }
    ensures flags { flags < 2 ^ 16 }
{}

impl RecordedOpt {
    /// The record without options, of payload size 0. It takes no memory.
    pub(crate) fn empty(alloc: Global) -> RecordedOpt
        ensures { result ≡ empty_opt }
    {
        RecordedOpt {
            udp_payload_size: 0,
            ext_rcode: 0,
            version: 0,
            flags: 0,
            options: Vec::new(alloc),
        }
    }

    pub(crate) fn of(alloc: Global, opt: &OptRecord<'_>) -> Result<RecordedOpt, NoMemory>
        ensures { IfOk result (λ o. o ≡ opt.now) }
    {
        let options = Vec::from_slice(alloc, opt.data())?;
        Ok(RecordedOpt {
            udp_payload_size: opt.udp_payload_size(),
            ext_rcode: opt.ext_rcode(),
            version: opt.version(),
            flags: opt.flags(),
            options,
        })
    }

    pub(crate) fn as_record(&self) -> OptRecord<'_>
        ensures { result ≡ self.now }
    {
        OptRecord::new(
            self.udp_payload_size,
            self.ext_rcode,
            self.version,
            self.flags,
            &self.options,
        )
    }

    /// Its fields have their ranges.
    pub(crate) fn is_opt(&self)
        ensures { IsOpt self.now }
    {
        opt_fields_fit(
            self.udp_payload_size,
            self.ext_rcode,
            self.version,
            self.flags,
        );
    }

    pub(crate) fn set_udp_payload_size(&mut self, value: u16)
        ensures { self.new ≡ record self.old { udp_payload_size = value } }
    {
        self.udp_payload_size = value;
    }

    pub(crate) fn set_dnssec_ok(&mut self, value: bool)
        ensures { self.new ≡ with_do value self.old }
    {
        if value {
            self.flags |= 0x8000;
        } else {
            self.flags &= 0x7fff;
        }
    }

    pub(crate) fn dnssec_ok(&self) -> bool
        ensures { result ≡ dnssec_ok self.now }
    {
        self.flags & 0x8000 != 0
    }

    /// Adds an option behind all others. A refusal changes nothing.
    pub(crate) fn add_option(&mut self, code: u16, octets: &[u8]) -> Result<(), Error>
        ensures ok { OnOk result (self.new ≡ option_added code octets.now self.old) }
        ensures err { OnErr result (self.new ≡ self.old) }
        ensures long { IsErrOf result errors.OptTooLong ↔ IsTrue (is_too_long (length octets.now) self.old) }
        ensures refused { IfErr result (λ e. (e ≡ errors.OptTooLong) ⊎ (e ≡ errors.NoMemory)) }
    {
        if MAX_OPTIONS < self.options.len() + 4 + octets.len() {
            return Err(Error::OptTooLong);
        }
        let alloc = *self.options.allocator();
        let option = option_octets(alloc, code, octets)?;
        match self.options.extend_from_slice(&option) {
            Ok(()) => Ok(()),
            Err(_) => Err(Error::NoMemory),
        }
    }

    pub(crate) fn try_clone(&self, alloc: Global) -> Result<RecordedOpt, NoMemory>
        ensures { IfOk result (λ copy. copy ≡ self.now) }
    {
        let options = Vec::from_slice(alloc, &self.options)?;
        Ok(RecordedOpt {
            udp_payload_size: self.udp_payload_size,
            ext_rcode: self.ext_rcode,
            version: self.version,
            flags: self.flags,
            options,
        })
    }
}
