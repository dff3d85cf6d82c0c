//! The answer to a question.

ghost use Rattle.std.specs.Prelude.{◌≡◌, ◌↔◌, ◌≤◌, ◌⊎◌, List, ℕ, IsTrue, IfOk, length, true, false};
ghost use Rattle.dns_base.specs.Message.{header_of};
ghost use Rattle.resolv_lookup.specs.Answer.{is_truncated, is_final};

use crate::resolver::AsMessage;
use dns_base::{Message, NoMemory, Rcode};
use std::marker::Model;
use std::ops::Deref;

/// The message that answers a question.
#[derive(Debug, Drop)]
pub struct Answer {
    message: Message,
}

impl Model for Answer {
    ghost Value = { List ℕ };

    ghost view = { λ a. a.message };
}

impl Answer {
    /// Whether no other server can give a better answer: it says that the name has records, none of
    /// this type, or that there is no such name (RFC 1035 4.1.1, codes 0 and 3), and it is whole.
    pub fn is_final(&self) -> bool
        ensures { result ≡ is_final self.now }
    {
        let rcode = self.message.header().rcode();
        (rcode == Rcode::NOERROR || rcode == Rcode::NXDOMAIN) && !self.is_truncated()
    }

    /// Whether a part of the message was cut off.
    pub fn is_truncated(&self) -> bool
        ensures { result ≡ is_truncated self.now }
    {
        self.message.header().tc()
    }

    /// The message. It takes no memory.
    pub fn into_message(self) -> Message
        ensures { result ≡ self }
    {
        self.message
    }

    /// The same answer.
    pub fn try_clone(&self) -> Result<Answer, NoMemory>
        ensures { IfOk result (λ a. a ≡ self.now) }
    {
        let message = self.message.try_clone()?;
        Ok(Answer { message })
    }
}

impl From<Message> for Answer {
    ghost from_gives = { λ m a. a ≡ m };

    fn from(message: Message) -> Answer {
        Answer { message }
    }
}

impl AsMessage for Answer {
    ghost octets_of = { λ a. a };

    fn as_message(&self) -> &Message {
        &self.message
    }
}

impl Deref for Answer {
    type Target = Message;

    ghost deref_gives = { λ a m. m ≡ a };

    fn deref(&self) -> &Message {
        &self.message
    }
}
