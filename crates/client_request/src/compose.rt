//! The traits of requests that a transport can compose and match.

ghost use Rattle.std.specs.Prelude.{◌≡◌, ◌↔◌, ◌⊎◌, ℕ, Bool, List, Result, Ok, Err, IsTrue, IfOk, IfErr, OnOk, OnErr, MatchResult, IsErrOf, length};
ghost use Rattle.std.specs.Borrow.{Lends, sem};
ghost use Rattle.dns_base.specs.contracts.header.Header.{the_row as header_row};
ghost use Rattle.dns_base.specs.Draft.{Draft};
ghost use Rattle.client_request.specs.declared.error.Error.{Error};
ghost use Rattle.client_request.specs.declared.error.Error.TheVariants as errors;
ghost use Rattle.client_request.specs.Composing.{IsComposed, without_message, IsAsked};
ghost use Rattle.client_request.specs.Requests.{Requests};
ghost use Rattle.client_request.specs.Composed.{Copied, IsCopied, HoldsNothing};

use crate::error::{CopyRecordsError, Error};
use dns_base::{Builder, Header, Message, NoMemory, Question};
use std::alloc::Global;

/// A message that is composed of what is recorded of a request, and told from others' answers.
///
/// `requests.composed` is the message that is made of it. How its names are compressed is the business of
/// the writer alone: no clause outside of it looks into these octets.
pub trait Compose: Drop {
    /// What a transport asks of it: what is changed of it, what is sent, and what answers it.
    ghost requests: { Requests Self };

    /// A builder with the request's entries under its header, or why not.
    ghost appended: { Self → Draft → Copied };

    ghost header_of: { Self → List ℕ };

    ghost with_header: { List ℕ → Self → Self };

    ghost is_dnssec_ok: { Self → Bool };

    ghost with_dnssec_ok: { Bool → Self → Self };

    /// The message: the recorded header, the base's questions and records without the OPT records of
    /// its additional section, and then the recorded OPT record (RFC 1035 4.1, RFC 6891 6.1).
    fn to_message(&self) -> Result<Message, Error>
        ensures { IsComposed (requests.composed self.now) result };

    /// Whether that message can be made, or why not; it takes no memory. `MessageParseError` where the base
    /// can't be read, and `MessageBuilderPushError` where a section would have more than 65535 entries: of
    /// two the first in message order.
    fn check_message(&self) -> Result<(), Error>
        ensures { result ≡ without_message (requests.composed self.now) };

    /// The only question of that message, without making it: where one can be made, None exactly where it has
    /// none or several. It takes no memory.
    fn sole_question(&self) -> Option<Question<'_>>
        ensures { IfOk (requests.composed self.now) (λ message. IsAsked message result) };

    /// Records an id.
    fn set_id(&mut self, id: u16)
        ensures { self.new ≡ requests.with_id id self.old };

    /// Records the payload size, in an OPT record that is added where there is none.
    fn set_udp_payload_size(&mut self, value: u16)
        ensures { self.new ≡ requests.with_payload_size value self.old };

    /// Whether a message answers this request.
    fn is_answer(&self, answer: &Message) -> bool
        ensures { result ≡ requests.is_answered answer.now self.now };

    /// Appends that message to a builder that holds no entry. A refusal leaves the builder as it was:
    /// `Parse` where the base can't be read, `Push` where a section is full, the builder's limit would be
    /// passed, or memory runs out. Of two refusals the first in message order is given.
    fn append_message(&self, target: &mut Builder) -> Result<(), CopyRecordsError>
        requires { HoldsNothing target.old }
        ensures copied { IsCopied (appended self.now target.old) result target.new }
        ensures err { OnErr result (target.new ≡ target.old) };

    /// The recorded header.
    fn header(&self) -> &Header
        ensures { result.now ≡ header_of self.now };

    /// The recorded header, to be changed.
    fn header_mut(&mut self) -> &mut Header
        ensures* writes_back { sem 𝓛 (Lends Self.row header_row self.entry result (λ header. with_header header self.old)) }
        ensures value { result.now ≡ header_of self.old };

    /// Whether the recorded OPT record says that DNSSEC records are taken (RFC 3225 3).
    fn dnssec_ok(&self) -> bool
        ensures { result ≡ is_dnssec_ok self.now };

    /// Records whether DNSSEC records are taken, in an OPT record that is added where there is none.
    fn set_dnssec_ok(&mut self, value: bool)
        ensures { self.new ≡ with_dnssec_ok value self.old };

    /// Appends an option to the OPT record, which is added where there is none (RFC 6891 6.1.2).
    /// `OptTooLong` exactly where its data would pass 65535 octets, and else `NoMemory`; either leaves
    /// the request as it was.
    fn add_opt(&mut self, code: u16, octets: &[u8]) -> Result<(), Error>
        ensures ok { OnOk result (self.new ≡ requests.with_option code octets.now self.old) }
        ensures err { OnErr result (self.new ≡ self.old) }
        ensures long { IsErrOf result errors.OptTooLong ↔ IsTrue (requests.is_full_for (length octets.now) self.old) }
        ensures refused { IfErr result (λ e. (e ≡ errors.OptTooLong) ⊎ (e ≡ errors.NoMemory)) };

    /// The same request once more.
    fn try_clone(&self, alloc: Global) -> Result<Self, NoMemory>
        ensures { IfOk result (λ copy. copy ≡ self.now) };
}

/// A request that one message answers: QR is set, the id is the recorded one, and the questions are the
/// base's, or an error came without any entry.
pub trait ComposeRequest: Compose {
    /// The octets of the message that is made of it.
    fn to_vec(&self) -> Result<Vec<u8>, Error>
        ensures { MatchResult result (λ v. Self.requests.composed self.now ≡ Ok v.items) (λ e. IsComposed (Self.requests.composed self.now) (Err e)) };
}

/// A request that several messages may answer: such a message answers it as a single one would, or it is
/// for a whole zone and the message has no question (RFC 5936 2.2.1).
pub trait ComposeRequestMulti: Compose {}
