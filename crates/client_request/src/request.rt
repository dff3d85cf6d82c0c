//! Requests that one message answers.

ghost use Rattle.std.specs.Prelude.{◌≡◌, ◌↔◌, ◌⊎◌, IfOk, IfErr, IsErrOf, IsOk, IsTrue, OnOk, None, false};
ghost use Rattle.dns_base.specs.Query.{query_octets};
ghost use Rattle.client_request.specs.Request as spec;
ghost use Rattle.client_request.specs.Requests.{for_one};
ghost use Rattle.client_request.specs.Carries.{IsOfOctets};
ghost use Rattle.client_request.specs.Composed.{appended};
ghost use Rattle.client_request.specs.declared.error.Error.TheVariants as errors;

use crate::compose::{Compose, ComposeRequest};
use crate::error::{CopyRecordsError, Error};
use crate::recorded::Recorded;
use dns_base::{Builder, Header, Message, NoMemory, Opcode, OptRecord, Question, Rtype, ToName};
use std::alloc::Global;
use std::marker::Model;

/// A request for one message: no query without a first question that can be read, and none for a whole
/// zone.
#[derive(Debug)]
pub struct RequestMessage {
    recorded: Recorded,
}

impl Drop for RequestMessage {
    fn drop(self) {
        let RequestMessage { recorded: _ } = self;
    }
}

impl Model for RequestMessage {
    ghost use Rattle.std.specs.Prelude.{◌≡◌, false};
    ghost use Rattle.client_request.specs.Request.{Request, is_misformed};

    ghost Value = { Request };

    ghost view = { λ r. r.recorded };

    ghost invariant = { λ r. is_misformed r.recorded.base ≡ false };
}

/// Whether the first question is missing, can't be read, or asks for a whole zone.
fn is_misformed(base: &Message) -> bool
    ensures { result ≡ spec.is_misformed base.now }
{
    if base.header().opcode() != Opcode::QUERY {
        return false;
    }
    match base.first_question() {
        None => true,
        Some(question) => question.qtype() == Rtype::AXFR,
    }
}

impl RequestMessage {
    /// A request with the base's own header and no OPT record. `FormError` where the base is a query
    /// without a first question that can be read, or one for a whole zone, which several messages answer.
    pub fn new(alloc: Global, msg: Message) -> Result<RequestMessage, Error>
        ensures made { IfOk result (λ r. r ≡ spec.recorded_from msg) }
        ensures misformed { IsErrOf result errors.FormError ↔ IsTrue (spec.is_misformed msg) }
        ensures refused { IfErr result (λ e. e ≡ errors.FormError) }
    {
        if is_misformed(&msg) {
            return Err(Error::FormError);
        }
        Ok(RequestMessage {
            recorded: Recorded::from_base(alloc, msg),
        })
    }

    /// A request for the records of a type that a name has, of class IN, with recursion desired (RFC 1035 4.1.1).
    /// `FormError` for a whole zone, which several messages answer, and `NoMemory`.
    pub fn query<N: ToName>(alloc: Global, name: &N, rtype: Rtype) -> Result<RequestMessage, Error>
        ensures made { IfOk result (λ r. r ≡ spec.recorded_from (query_octets (N.labels_of name.now) rtype.0)) }
        ensures formed { OnOk result (spec.is_misformed (query_octets (N.labels_of name.now) rtype.0) ≡ false) }
        ensures misformed { IsErrOf result errors.FormError → IsTrue (spec.is_misformed (query_octets (N.labels_of name.now) rtype.0)) }
        ensures refused { IfErr result (λ e. (e ≡ errors.FormError) ⊎ (e ≡ errors.NoMemory)) }
    {
        let message = Message::query(alloc, name, rtype)?;
        RequestMessage::new(alloc, message)
    }

    /// The request with another header and another OPT record, or none, which takes no memory.
    pub fn with_recorded(
        self,
        header: Header,
        opt: Option<OptRecord<'_>>,
    ) -> Result<RequestMessage, NoMemory>
        ensures recorded { IfOk result (λ r. r ≡ record { base = self.base; header = header; opt = opt.entry }) }
        ensures plain { opt.entry ≡ None → IsOk result }
    {
        let RequestMessage { recorded } = self;
        let recorded = recorded.with_recorded(header, opt)?;
        Ok(RequestMessage { recorded })
    }

    /// The message that it was made of.
    pub fn base(&self) -> &Message
        ensures { result.now ≡ self.now.base }
    {
        self.recorded.base()
    }

    /// The parts of a request have the ranges of what they are made of.
    pub fn is_of_octets(&self)
        ensures { IsOfOctets self.now }
    {
        self.recorded.is_of_octets();
    }

    /// The base is no query that `new` refuses.
    pub fn may_be_asked(&self)
        ensures { spec.is_misformed self.now.base ≡ false }
    {
        let _recorded = &self.recorded;
    }

    /// The OPT record that is recorded, if there is one.
    pub fn recorded_opt(&self) -> Option<OptRecord<'_>>
        ensures { result ≡ self.now.opt }
    {
        self.recorded.recorded_opt()
    }
}

impl Compose for RequestMessage {
    ghost requests = { for_one };

    ghost appended = { appended };

    ghost header_of = { λ r. r.header };

    ghost with_header = { spec.with_header };

    ghost is_dnssec_ok = { spec.is_dnssec_ok };

    ghost with_dnssec_ok = { spec.with_dnssec_ok };

    fn append_message(&self, target: &mut Builder) -> Result<(), CopyRecordsError> {
        self.recorded.append_message(target)
    }

    fn to_message(&self) -> Result<Message, Error> {
        self.recorded.to_message()
    }

    fn check_message(&self) -> Result<(), Error> {
        self.recorded.check_message()
    }

    fn sole_question(&self) -> Option<Question<'_>> {
        self.recorded.sole_question()
    }

    fn set_id(&mut self, id: u16) {
        self.recorded.set_id(id);
    }

    fn set_udp_payload_size(&mut self, value: u16) {
        self.recorded.set_udp_payload_size(value);
    }

    fn is_answer(&self, answer: &Message) -> bool {
        self.recorded.is_answer(answer)
    }

    fn header(&self) -> &Header {
        self.recorded.header()
    }

    fn header_mut(&mut self) -> &mut Header {
        self.recorded.header_mut()
    }

    fn dnssec_ok(&self) -> bool {
        self.recorded.dnssec_ok()
    }

    fn set_dnssec_ok(&mut self, value: bool) {
        self.recorded.set_dnssec_ok(value);
    }

    fn add_opt(&mut self, code: u16, octets: &[u8]) -> Result<(), Error> {
        self.recorded.add_opt(code, octets)
    }

    fn try_clone(&self, alloc: Global) -> Result<RequestMessage, NoMemory> {
        let recorded = self.recorded.try_clone(alloc)?;
        Ok(RequestMessage { recorded })
    }
}

impl ComposeRequest for RequestMessage {
    fn to_vec(&self) -> Result<Vec<u8>, Error> {
        self.recorded.to_vec()
    }
}
