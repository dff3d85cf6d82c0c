//! Which messages answer a request.

ghost use Rattle.std.specs.Prelude.{◌≡◌, ◌≤◌, length};
ghost use Rattle.dns_base.specs.Answering.{same_asked, same_items, is_bare, is_answer};

use crate::message::Message;
use crate::numbers::u16_at;
use crate::question::{Question, QuestionSection};
use dns_names::is_same_name;
use dns_values::Rcode;

fn is_same_question(a: &Question<'_>, b: &Question<'_>) -> bool
    ensures { result ≡ same_asked a.now b.now }
{
    is_same_name(&a.qname(), &b.qname())
        && a.qtype().0 == b.qtype().0
        && a.qclass().0 == b.qclass().0
}

/// Whether questions are the same but for the case of names, all of them read.
pub fn are_same_questions(mut a: QuestionSection<'_>, mut b: QuestionSection<'_>) -> bool
    ensures { result ≡ same_items a.entry b.entry }
{
    'items: loop {
        match a.next() {
            None => return b.next().is_none(),
            Some(Err(_)) => return false,
            Some(Ok(x)) => match b.next() {
                Some(Ok(y)) => {
                    if !is_same_question(&x, &y) {
                        return false;
                    }
                }
                _ => return false,
            },
        }
    }
}

fn is_bare(octets: &[u8]) -> bool
    requires { 12 ≤ length octets.now }
    ensures { result ≡ is_bare octets.now }
{
    u16_at(octets, 4) == 0
        && u16_at(octets, 6) == 0
        && u16_at(octets, 8) == 0
        && u16_at(octets, 10) == 0
}

/// Whether a message answers a request with an id, made from a base message: it is a response with that id, and either
/// its response code isn't 0 and it has no entries, or it has the questions of the base, item by item and all read.
#[tactic(auto, unfolding(crate::specs::Answering::is_answer))]
pub fn is_answer(id: u16, base: &Message, answer: &Message) -> bool
    ensures { result ≡ is_answer id base.now answer.now }
{
    let octets = answer.as_slice();
    let header = answer.header();
    if !header.qr() || header.id() != id {
        return false;
    }
    if header.rcode() != Rcode::NOERROR && is_bare(octets) {
        return true;
    }
    u16_at(octets, 4) == u16_at(base.as_slice(), 4)
        && are_same_questions(answer.question(), base.question())
}
