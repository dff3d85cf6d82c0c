//! The message of a question.

ghost use Rattle.std.specs.Prelude.{◌≡◌, IfOk};
ghost use Rattle.stub_resolver.specs.Queries.{question, recursive};

use dns_base::{Builder, Class, Header, Message, Name, NoMemory, Rtype};
use std::alloc::Global;

/// The header of a question with recursion desired (RFC 1035 4.1.1).
fn recursive() -> Header
    ensures { result ≡ recursive }
{
    Header::from_octets([0, 0, 1, 0])
}

/// The message that asks for the records of a type that a name has, of class IN.
pub(crate) fn question(alloc: Global, name: &Name, rtype: Rtype) -> Result<Message, NoMemory>
    ensures { IfOk result (λ m. m ≡ question name.now rtype.0) }
{
    let mut builder = Builder::new(alloc, None)?;
    builder.set_header(recursive());
    // It has no limit, and no question yet.
    if builder.push_question(name, rtype, Class::IN).is_err() {
        return Err(NoMemory);
    }
    builder.finish()
}
