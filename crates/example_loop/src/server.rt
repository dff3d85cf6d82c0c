//! The server's side: the answer to a query, and the address in an answer.

use crate::trouble::Trouble;
use dns_base::{
    Builder, Class, Message, Octets, PushError, Question, RecordData, Rtype, Section, Ttl,
};
use std::alloc::Global;

/// The answer to a query and its question: 192.0.2.1 for five minutes.
fn answer(alloc: Global, query: &Message, question: &Question<'_>) -> Result<Message, PushError> {
    let mut header = query.header();
    header.set_qr(true);
    let name = question.qname();
    let mut builder = Builder::new(alloc, None)?;
    builder.set_header(header);
    builder.push_question(&name, question.qtype(), question.qclass())?;
    let address = RecordData::A([192, 0, 2, 1]);
    builder.push_record(
        Section::Answer,
        &name,
        Class::IN,
        Ttl(300),
        Rtype::A,
        &address,
    )?;
    Ok(builder.finish()?)
}

/// The octets of the answer to a query.
pub(crate) fn answer_to(alloc: Global, query: &Octets) -> Result<Octets, Trouble> {
    let query = Message::from_octets(query.try_clone()?)?;
    let question = query.sole_question()?;
    let answer = answer(alloc, &query, &question)?;
    Ok(answer.into_octets())
}

/// The first address in an answer, or 0.0.0.0 where there is none.
pub(crate) fn address_in(answer: &Message) -> [u8; 4] {
    let Ok(records) = answer.answer() else {
        return [0; 4];
    };
    for record in records {
        let Ok(record) = record else {
            return [0; 4];
        };
        if let Ok(RecordData::A(address)) = record.data() {
            return address;
        }
    }
    [0; 4]
}
