//! What single calls read of messages.

use crate::answer::line_of;
use crate::hex::{self, Hex};
use dns_base::{Header, Message, OptRecord, ToName, is_answer, is_same_name};
use std::alloc::Global;

/// What is printed of a message's header, question, options, or of two messages.
pub fn text_of(alloc: Global, word: &str, rest: &str) -> Option<String> {
    match word {
        "header" => header(alloc, &hex::message(alloc, rest)?),
        "answered" => answered(alloc, &hex::message(alloc, rest)?),
        "canonical" => canonical(alloc, &hex::message(alloc, rest)?),
        "opt" => opt(alloc, &hex::message(alloc, rest)?),
        "opt-record" => opt_record(alloc, rest),
        "request" => request(alloc, hex::message(alloc, rest)?),
        "answers" => answers(alloc, rest),
        _ => None,
    }
}

/// A header's flags that are set, in their order, each behind a blank.
fn flags(alloc: Global, header: Header) -> Option<String> {
    let flags = [
        (header.qr(), " qr"),
        (header.aa(), " aa"),
        (header.tc(), " tc"),
        (header.rd(), " rd"),
        (header.ra(), " ra"),
        (header.ad(), " ad"),
        (header.cd(), " cd"),
    ];
    let mut text = String::new(alloc);
    for (is_set, word) in flags {
        if is_set {
            text.push_str(word).ok()?;
        }
    }
    Some(text)
}

/// The id, the flags that are set, and the counts of the question and of the answer.
fn header(alloc: Global, message: &Message) -> Option<String> {
    let header = message.header();
    let id = header.id();
    let flags = flags(alloc, header)?;
    let questions = message.header_counts().qdcount();
    let answers = message.header_counts().ancount();
    format!(in alloc; "{id}{flags} {questions} {answers}\n").ok()
}

/// The type that the sole question asks for, and whether the first answer is of its name.
fn answered(alloc: Global, message: &Message) -> Option<String> {
    let question = message.sole_question().ok()?;
    let record = message.answer().ok()?.next()?.ok()?;
    let qtype = question.qtype();
    let is_same = is_same_name(&record.owner(), &question.qname());
    format!(in alloc; "{qtype} {is_same}\n").ok()
}

/// The name to which the aliases of a copy of a message lead.
fn canonical(alloc: Global, message: &Message) -> Option<String> {
    let copy = message.try_clone().ok()?;
    line_of(alloc, &copy.canonical_name()?.to_name(alloc).ok()?)
}

/// What an OPT record says: the greatest datagram, the upper bits of the code, the version, the flags, whether DNSSEC is
/// understood, and the options.
fn opt_text(alloc: Global, opt: &OptRecord<'_>) -> Option<String> {
    let size = opt.udp_payload_size();
    let rcode = opt.ext_rcode();
    let version = opt.version();
    let flags = opt.flags();
    let dnssec_ok = opt.dnssec_ok();
    let options = Hex(opt.data());
    format!(in alloc; "{size} {rcode} {version} {flags} {dnssec_ok} {options}").ok()
}

/// What a message's OPT record says, the message's code, and whether it asks for a transfer.
fn opt(alloc: Global, message: &Message) -> Option<String> {
    let text = opt_text(alloc, &message.opt()?)?;
    let rcode = message.opt_rcode().0;
    let is_xfr = message.is_xfr();
    format!(in alloc; "{text} {rcode} {is_xfr}\n").ok()
}

/// Whether octets are an OPT record.
fn opt_record(alloc: Global, digits: &str) -> Option<String> {
    let octets = hex::octets(alloc, digits)?;
    line_of(alloc, &OptRecord::from_octets(&octets).is_ok())
}

/// A message as a request, without the flag of a response.
fn request(alloc: Global, mut message: Message) -> Option<String> {
    let mut header = message.header();
    header.set_qr(false);
    message.set_header(alloc, header).ok()?;
    line_of(alloc, &Hex(message.as_slice()))
}

/// Whether a message answers another one under an id, by `ID REQUEST ANSWER`.
fn answers(alloc: Global, rest: &str) -> Option<String> {
    let (id, messages) = rest.split_once(' ')?;
    let (base, answer) = messages.split_once(' ')?;
    let id = id.parse::<u16>().ok()?;
    let base = hex::message(alloc, base)?;
    let answer = hex::message(alloc, answer)?;
    line_of(alloc, &is_answer(id, &base, &answer))
}
