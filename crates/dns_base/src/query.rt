//! The message of a question.

ghost use Rattle.std.specs.Prelude.{◌≡◌, IfOk, Some};
ghost use Rattle.dns_base.specs.Message.{reads};
ghost use Rattle.dns_base.specs.Query.{query_draft, query_octets, query_reading, recursive};

use crate::builder::Builder;
use crate::header::Header;
use crate::message::Message;
use dns_names::ToName;
use dns_values::{Class, NoMemory, Rtype};
use std::alloc::Global;

/// The header of a question with recursion desired (RFC 1035 4.1.1).
fn recursive() -> Header
    ensures { result ≡ recursive }
{
    Header::from_octets([0, 0, 1, 0])
}

impl Message {
    /// The message that asks for the records of a type that a name has, of class IN. Its id is 0, which a
    /// transport replaces, and of its flags recursion desired alone is set (RFC 1035 4.1.1).
    #[tactic(auto, using(crate::proofs::Queries::query_is))]
    pub fn query<N: ToName>(alloc: Global, name: &N, rtype: Rtype) -> Result<Message, NoMemory>
        ensures octets { IfOk result (λ m. m ≡ query_octets (N.labels_of name.now) rtype.0) }
        ensures says { IfOk result (λ m. reads m ≡ Some (query_reading (N.labels_of name.now) rtype.0)) }
        ensures built { IfOk result (λ m. m ≡ query_draft (N.labels_of name.now) rtype.0) }
    {
        let mut builder = Builder::new(alloc, None)?;
        builder.set_header(recursive());
        // It has no limit, and no question yet.
        match builder.push_question(name, rtype, Class::IN) {
            Ok(()) => builder.finish(),
            Err(_) => Err(NoMemory),
        }
    }
}
