//! The answer to a message for which no server may be asked.

ghost use Rattle.std.specs.Prelude.{◌≡◌, ◌<◌, ◌⊎◌, ℕ, slice_index, IfSome, IfOk, length, true, false, OnOk, IfErr, option_map};
ghost use Rattle.dns_base.specs.Answering.{question_items};
ghost use Rattle.dns_base.specs.Draft.{counts_in};
ghost use Rattle.dns_base.specs.Message.{header_of};
ghost use Rattle.dns_base.specs.OptRecord.{opt_of};
ghost use Rattle.dns_base.specs.Sections.{HasNoRecords};
ghost use Rattle.client_request.specs.declared.error.Error.TheVariants as errors;
ghost use Rattle.client_request.specs.Carries.{IsOpt};
ghost use Rattle.client_request.specs.Composed.{each, asks, adds_opt, IsCopied};
ghost use Rattle.client_request.specs.Composing.{IsComposed};
ghost use Rattle.client_choice.specs.ServeFail.{failing, plain_opt, SaysFailure, copies_failing, reads_questions, serve_failed};

use client_request::{CopyRecordsError, Error};
use dns_base::{
    Builder, Class, Header, Message, Name, OptRecord, QuestionSection, Rcode, RecordData, Rtype,
    Section, Ttl,
};
use std::alloc::Global;

/// Asks what a message asks, up to the first question that can't be read.
fn copy_questions(
    questions: QuestionSection<'_>,
    target: &mut Builder,
) -> Result<(), CopyRecordsError>
    requires { HasNoRecords (counts_in target.old) }
    ensures copied { IsCopied (each asks questions.entry target.old) result target.new }
    ensures order { HasNoRecords (counts_in target.new) }
{
    for question in questions {
        let question = question?;
        target.push_question(&question.qname(), question.qtype(), question.qclass())?;
    }
    Ok(())
}

/// Adds an OPT record without its part of the response code.
fn copy_opt(
    alloc: Global,
    opt: Option<OptRecord<'_>>,
    target: &mut Builder,
) -> Result<(), CopyRecordsError>
    ensures { IsCopied (adds_opt (option_map plain_opt opt.entry) target.old) result target.new }
{
    if let Some(opt) = opt {
        target.push_record(
            Section::Additional,
            &Name::root(alloc),
            Class(opt.udp_payload_size()),
            Ttl(u32::from(opt.version()) * 0x1_0000 + u32::from(opt.flags())),
            Rtype::OPT,
            &RecordData::Opt(opt.data()),
        )?;
    }
    Ok(())
}

fn copy_entries(
    alloc: Global,
    questions: QuestionSection<'_>,
    opt: Option<OptRecord<'_>>,
    target: &mut Builder,
) -> Result<(), CopyRecordsError>
    requires { HasNoRecords (counts_in target.old) }
    ensures { IsCopied (copies_failing questions.entry opt.entry target.old) result target.new }
{
    copy_questions(questions, target)?;
    copy_opt(alloc, opt, target)
}

/// The header of such an answer.
fn failing_header(header: Header) -> Header
    ensures { result ≡ failing header }
{
    let mut header = header;
    header.set_qr(true);
    header.set_ad(false);
    header.set_rcode(Rcode::SERVFAIL);
    header
}

/// Each octet is one.
fn is_of_octets(octets: &[u8])
    ensures { (i : ℕ) → slice_index octets.now i < 256 }
{
    let _octets = octets;
}

/// The fields of an OPT record have room in one.
fn is_opt(opt: &OptRecord<'_>)
    ensures { IsOpt opt.now }
{
    let _size = opt.udp_payload_size();
    let _code = opt.ext_rcode();
    let _version = opt.version();
    let _flags = opt.flags();
    let _options = opt.data();
}

/// The octets of a message, and the fields of its OPT record, have the ranges of what they are made of.
fn is_in_range(msg: &Message)
    ensures octets { (i : ℕ) → slice_index msg.now i < 256 }
    ensures header { length (failing (header_of msg.now)) ≡ 4 }
    ensures opt { IfSome (opt_of msg.now) IsOpt }
{
    is_of_octets(msg.as_slice());
    let _header = failing_header(msg.header()).to_octets();
    match msg.opt() {
        None => {}
        Some(opt) => is_opt(&opt),
    }
}

#[tactic(auto, unfolding(crate::specs::ServeFail::serve_failed))]
fn failing_message(alloc: Global, msg: &Message) -> Result<Message, Error>
    ensures value { IsComposed (serve_failed msg.now) result }
    ensures few { length (question_items msg.now) < 65536 }
{
    let questions = msg.question();
    let mut target = Builder::new(alloc, None)?;
    copy_entries(alloc, questions, msg.opt(), &mut target)?;
    target.set_header(failing_header(msg.header()));
    let answer = target.finish()?;
    Ok(answer)
}

/// The answer to a message for which no server may be asked: its questions and its OPT record, if it has one,
/// with the response code SERVFAIL (RFC 1035 4.1.1, RFC 6891 6.1.3). `MessageParseError` exactly where a
/// question can't be read, and else `NoMemory`.
pub fn serve_fail(alloc: Global, msg: &Message) -> Result<Message, Error>
    ensures value { IsComposed (serve_failed msg.now) result }
    ensures read { OnOk result (reads_questions msg.now ≡ true) }
    ensures refused { IfErr result (λ e. (e ≡ errors.NoMemory) ⊎ ((e ≡ errors.MessageParseError) × (reads_questions msg.now ≡ false))) }
    ensures says { IfOk result (λ m. SaysFailure m msg.now) }
{
    is_in_range(msg);
    failing_message(alloc, msg)
}
