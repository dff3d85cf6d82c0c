//! Requests that several messages may answer.

ghost use Rattle.std.specs.Prelude.{◌≡◌, ◌↔◌, IfOk, IfErr, IsErrOf, false};
ghost use Rattle.dns_base.specs.Message.{is_xfr};
ghost use Rattle.client_request.specs.Request as spec;
ghost use Rattle.client_request.specs.Requests.{for_several};
ghost use Rattle.client_request.specs.Composed.{appended};
ghost use Rattle.client_request.specs.declared.error.Error.TheVariants as errors;

use crate::compose::{Compose, ComposeRequestMulti};
use crate::error::{CopyRecordsError, Error};
use crate::recorded::Recorded;
use dns_base::{Builder, Header, Message, NoMemory, OptRecord, Question, Rtype};
use std::alloc::Global;
use std::marker::Model;

/// A request for a zone, or for its changes (RFC 5936, RFC 1995).
#[derive(Debug)]
pub struct RequestMessageMulti {
    recorded: Recorded,
}

impl Drop for RequestMessageMulti {
    fn drop(self) {
        let RequestMessageMulti { recorded: _ } = self;
    }
}

impl Model for RequestMessageMulti {
    ghost use Rattle.client_request.specs.Request.{Request};

    ghost Value = { Request };

    ghost view = { λ r. r.recorded };
}

/// Whether the first question asks for a whole zone.
fn is_axfr(base: &Message) -> bool
    ensures { result ≡ spec.is_axfr base.now }
{
    match base.first_question() {
        None => false,
        Some(question) => question.qtype() == Rtype::AXFR,
    }
}

impl RequestMessageMulti {
    /// A request with the base's own header and no OPT record. `FormError` exactly where the first
    /// question is missing, can't be read, or asks for no zone transfer.
    pub fn new(alloc: Global, msg: Message) -> Result<RequestMessageMulti, Error>
        ensures made { IfOk result (λ r. r ≡ spec.recorded_from msg) }
        ensures misformed { IsErrOf result errors.FormError ↔ (is_xfr msg ≡ false) }
        ensures refused { IfErr result (λ e. e ≡ errors.FormError) }
    {
        if !msg.is_xfr() {
            return Err(Error::FormError);
        }
        Ok(RequestMessageMulti {
            recorded: Recorded::from_base(alloc, msg),
        })
    }

    /// The message that it was made of.
    pub fn base(&self) -> &Message
        ensures { result.now ≡ self.now.base }
    {
        self.recorded.base()
    }

    /// The OPT record that is recorded, if there is one.
    pub fn recorded_opt(&self) -> Option<OptRecord<'_>>
        ensures { result ≡ self.now.opt }
    {
        self.recorded.recorded_opt()
    }
}

impl Compose for RequestMessageMulti {
    ghost requests = { for_several };

    ghost appended = { appended };

    ghost header_of = { λ r. r.header };

    ghost with_header = { spec.with_header };

    ghost is_dnssec_ok = { spec.is_dnssec_ok };

    ghost with_dnssec_ok = { spec.with_dnssec_ok };

    fn to_message(&self) -> Result<Message, Error> {
        self.recorded.to_message()
    }

    fn check_message(&self) -> Result<(), Error> {
        self.recorded.check_message()
    }

    fn sole_question(&self) -> Option<Question<'_>> {
        self.recorded.sole_question()
    }

    fn set_id(&mut self, id: u16) {
        self.recorded.set_id(id);
    }

    fn set_udp_payload_size(&mut self, value: u16) {
        self.recorded.set_udp_payload_size(value);
    }

    fn is_answer(&self, answer: &Message) -> bool {
        if self.recorded.is_answer(answer) {
            return true;
        }
        let header = answer.header();
        is_axfr(self.recorded.base())
            && header.qr()
            && header.id() == self.recorded.header().id()
            && answer.header_counts().qdcount() == 0
    }

    fn append_message(&self, target: &mut Builder) -> Result<(), CopyRecordsError> {
        self.recorded.append_message(target)
    }

    fn header(&self) -> &Header {
        self.recorded.header()
    }

    fn header_mut(&mut self) -> &mut Header {
        self.recorded.header_mut()
    }

    fn dnssec_ok(&self) -> bool {
        self.recorded.dnssec_ok()
    }

    fn set_dnssec_ok(&mut self, value: bool) {
        self.recorded.set_dnssec_ok(value);
    }

    fn add_opt(&mut self, code: u16, octets: &[u8]) -> Result<(), Error> {
        self.recorded.add_opt(code, octets)
    }

    fn try_clone(&self, alloc: Global) -> Result<RequestMessageMulti, NoMemory> {
        let recorded = self.recorded.try_clone(alloc)?;
        Ok(RequestMessageMulti { recorded })
    }
}

impl ComposeRequestMulti for RequestMessageMulti {}
