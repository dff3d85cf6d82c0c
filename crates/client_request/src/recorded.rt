//! A base message with the header and the OPT record that are recorded beside it.

ghost use Rattle.std.specs.Prelude.{◌≡◌, ◌<◌, ℕ, slice_index, IfOk, IsOk, Some, None};
ghost use Rattle.dns_base.specs.Draft.{fresh};
ghost use Rattle.client_request.specs.Request as spec;
ghost use Rattle.client_request.specs.Requests.{for_one};
ghost use Rattle.client_request.specs.Carries.{IsOfOctets};
ghost use Rattle.client_request.specs.Composed.{composed, appended, HoldsNothing};

use crate::append::append;
use crate::compose::{Compose, ComposeRequest};
use crate::counting::check;
use crate::error::{CopyRecordsError, Error};
use crate::recorded_opt::RecordedOpt;
use dns_base::{Builder, Header, Message, NoMemory, OptRecord, Question, is_answer};
use std::alloc::Global;
use std::marker::Model;

/// What is recorded of a request. What is sent is the base message under the recorded header, with the
/// recorded OPT record in place of those of its additional section.
#[derive(Debug)]
pub(crate) struct Recorded {
    alloc: Global,
    base: Message,
    header: Header,
    opt: Option<RecordedOpt>,
}

impl Drop for Recorded {
    fn drop(self) {
        let Recorded {
            alloc: _,
            base: _,
            header: _,
            opt: _,
        } = self;
    }
}

impl Model for Recorded {
    ghost use Rattle.client_request.specs.Request.{Request};

    ghost Value = { Request };

    ghost view = { λ r. record { base = r.base; header = r.header; opt = r.opt } };
}

/// Each octet is one.
fn base_is_of_octets(octets: &[u8])
    ensures { (i : ℕ) → slice_index octets.now i < 256 }
{
    let _octets = octets;
}

impl Recorded {
    /// A request with the base's own header and no OPT record.
    pub(crate) fn from_base(alloc: Global, base: Message) -> Recorded
        ensures { result ≡ spec.recorded_from base }
    {
        let header = base.header();
        Recorded {
            alloc,
            base,
            header,
            opt: None,
        }
    }

    /// The request with another header and another OPT record, or none, which takes no memory.
    pub(crate) fn with_recorded(
        self,
        header: Header,
        opt: Option<OptRecord<'_>>,
    ) -> Result<Recorded, NoMemory>
        ensures recorded { IfOk result (λ r. r ≡ record { base = self.base; header = header; opt = opt.entry }) }
        ensures plain { opt.entry ≡ None → IsOk result }
    {
        let Recorded {
            alloc,
            base,
            header: _,
            opt: _,
        } = self;
        let opt = match opt {
            None => None,
            Some(opt) => Some(RecordedOpt::of(alloc, &opt)?),
        };
        Ok(Recorded {
            alloc,
            base,
            header,
            opt,
        })
    }

    pub(crate) fn base(&self) -> &Message
        ensures { result.now ≡ self.now.base }
    {
        &self.base
    }

    /// The parts of a request have the ranges of what they are made of.
    pub(crate) fn is_of_octets(&self)
        ensures { IsOfOctets self.now }
    {
        base_is_of_octets(self.base.as_slice());
        let _header = self.header.to_octets();
        match &self.opt {
            None => {}
            Some(opt) => opt.is_opt(),
        }
    }

    pub(crate) fn recorded_opt(&self) -> Option<OptRecord<'_>>
        ensures { result ≡ self.now.opt }
    {
        match &self.opt {
            None => None,
            Some(opt) => Some(opt.as_record()),
        }
    }
}

/// The recorded OPT record, which is added where there is none.
fn opt_or_empty(alloc: Global, opt: Option<RecordedOpt>) -> RecordedOpt
    ensures { result ≡ spec.opt_or_empty opt }
{
    match opt {
        Some(opt) => opt,
        None => RecordedOpt::empty(alloc),
    }
}

/// A message without entries, which may grow as long as it needs to.
fn empty_message(alloc: Global) -> Result<Builder, NoMemory>
    ensures fresh { IfOk result (λ b. b ≡ fresh None) }
    ensures empty { IfOk result HoldsNothing }
{
    Builder::new(alloc, None)
}

impl Compose for Recorded {
    ghost requests = { for_one };

    ghost appended = { appended };

    ghost header_of = { λ r. r.header };

    ghost with_header = { spec.with_header };

    ghost is_dnssec_ok = { spec.is_dnssec_ok };

    ghost with_dnssec_ok = { spec.with_dnssec_ok };

    fn append_message(&self, target: &mut Builder) -> Result<(), CopyRecordsError> {
        append(
            self.alloc,
            &self.base,
            self.header,
            self.recorded_opt(),
            target,
        )
    }

    #[tactic(auto, unfolding(crate::specs::Composed::composed))]
    fn to_message(&self) -> Result<Message, Error> {
        let mut target = empty_message(self.alloc)?;
        self.append_message(&mut target)?;
        let message = target.finish()?;
        Ok(message)
    }

    fn check_message(&self) -> Result<(), Error> {
        check(&self.base, self.header, self.recorded_opt())
    }

    fn sole_question(&self) -> Option<Question<'_>> {
        self.is_of_octets();
        self.base.sole_question().ok()
    }

    fn set_id(&mut self, id: u16) {
        self.header.set_id(id);
    }

    fn set_udp_payload_size(&mut self, value: u16) {
        let mut opt = opt_or_empty(self.alloc, self.opt.take());
        opt.set_udp_payload_size(value);
        self.opt = Some(opt);
    }

    fn is_answer(&self, answer: &Message) -> bool {
        is_answer(self.header.id(), &self.base, answer)
    }

    fn header(&self) -> &Header {
        &self.header
    }

    fn header_mut(&mut self) -> &mut Header {
        &mut self.header
    }

    fn dnssec_ok(&self) -> bool {
        match &self.opt {
            None => false,
            Some(opt) => opt.dnssec_ok(),
        }
    }

    fn set_dnssec_ok(&mut self, value: bool) {
        let mut opt = opt_or_empty(self.alloc, self.opt.take());
        opt.set_dnssec_ok(value);
        self.opt = Some(opt);
    }

    fn add_opt(&mut self, code: u16, octets: &[u8]) -> Result<(), Error> {
        match &mut self.opt {
            Some(opt) => opt.add_option(code, octets),
            None => {
                let mut opt = RecordedOpt::empty(self.alloc);
                opt.add_option(code, octets)?;
                self.opt = Some(opt);
                Ok(())
            }
        }
    }

    fn try_clone(&self, alloc: Global) -> Result<Recorded, NoMemory> {
        let base = self.base.try_clone()?;
        let opt = match &self.opt {
            None => None,
            Some(opt) => Some(opt.try_clone(alloc)?),
        };
        Ok(Recorded {
            alloc,
            base,
            header: self.header,
            opt,
        })
    }
}

impl ComposeRequest for Recorded {
    fn to_vec(&self) -> Result<Vec<u8>, Error> {
        let message = self.to_message()?;
        match Vec::from_slice(self.alloc, message.as_slice()) {
            Ok(octets) => Ok(octets),
            Err(_) => Err(Error::NoMemory),
        }
    }
}
