//! What a message does to a transfer.

ghost use Rattle.std.specs.Prelude.{◌≡◌, List, Result, Bool};
ghost use Rattle.dns_base.specs.Message.{answer_items};
ghost use Rattle.client_transfer.specs.States as plain;

use crate::kind::{Refusal, kind_of};
use crate::state::XfrState;
use client_request::ComposeRequestMulti;
use dns_base::{Message, ParseError, Rcode, Record, RecordSection};

/// The state after a record.
fn take_record(state: XfrState, source: &Record<'_>) -> Result<XfrState, Refusal>
    ensures { result ≡ plain.takes_known state source.now }
{
    let Ok(content) = source.data() else {
        return Err(Refusal::Unreadable);
    };
    match state.after(kind_of(state, &content)) {
        None => Err(Refusal::Wrong),
        Some(next) => Ok(next),
    }
}

/// The state after what a reader of a section meets.
fn take_item(state: XfrState, item: Result<Record<'_>, ParseError>) -> Result<XfrState, Refusal>
    ensures { result ≡ plain.takes_item state item.entry }
{
    match item {
        Err(_) => Err(Refusal::Unreadable),
        Ok(source) => take_record(state, &source),
    }
}

/// The state after records, up to the first that is refused.
fn take_records(first: XfrState, records: RecordSection<'_>) -> Result<XfrState, Refusal>
    ensures { result ≡ plain.takes_items first records.entry }
{
    let mut state = first;
    for item in records {
        state = take_item(state, item)?;
    }
    Ok(state)
}

/// The state after the records of the answer section.
fn take_answer(state: XfrState, answer: &Message) -> Result<XfrState, Refusal>
    ensures { result ≡ plain.takes_section state (answer_items answer.now) }
{
    match answer.answer() {
        Err(_) => Err(Refusal::Unreadable),
        Ok(records) => take_records(state, records),
    }
}

/// What a message gives whose records lead to a state.
fn at_end(state: XfrState) -> (bool, XfrState, bool)
    ensures { result ≡ plain.at_end state }
{
    match state {
        XfrState::AxfrInit | XfrState::IxfrInit | XfrState::Error => {
            (false, XfrState::Error, false)
        }
        XfrState::IxfrFirstSoa(_) | XfrState::Done => (true, XfrState::Done, true),
        XfrState::AxfrFirstSoa(_)
        | XfrState::IxfrFirstDiffSoa(_)
        | XfrState::IxfrSecondDiffSoa(_) => (false, state, true),
    }
}

/// What a message gives by its records.
fn check_records(state: XfrState, answer: &Message) -> (bool, XfrState, bool)
    ensures { result ≡ plain.by_records state answer.now }
{
    match take_answer(state, answer) {
        Ok(last) => at_end(last),
        Err(Refusal::Unreadable) => (true, XfrState::Error, false),
        Err(Refusal::Wrong) => (false, XfrState::Error, false),
    }
}

/// Whether a message is looked into at a state.
fn is_open(state: XfrState, is_answer: bool) -> bool
    ensures { result ≡ plain.is_open state is_answer }
{
    match state {
        XfrState::AxfrInit | XfrState::IxfrInit => is_answer,
        XfrState::AxfrFirstSoa(_)
        | XfrState::IxfrFirstSoa(_)
        | XfrState::IxfrFirstDiffSoa(_)
        | XfrState::IxfrSecondDiffSoa(_) => true,
        XfrState::Done | XfrState::Error => false,
    }
}

/// What a message does to a transfer that a request began: whether the transfer ends with it, the state
/// that it leaves, and whether it belongs to the transfer.
///
/// The first message must answer the request; later ones may come without a question (RFC 5936 2.2.1).
/// A message with a response code other than 0 that answers the request belongs to the transfer, ends it,
/// and leaves the state as it is. A message that is refused leaves `Error`: the transfer ends only where
/// the answer section or a record of it can't be read, and else the sender may be out of step.
pub fn check_stream<CRM: ComposeRequestMulti>(
    msg: &CRM,
    state: XfrState,
    answer: &Message,
) -> (bool, XfrState, bool)
    ensures { result ≡ plain.checked CRM.requests msg.now state answer.now }
{
    let is_answer = msg.is_answer(answer);
    if !is_open(state, is_answer) {
        return (false, XfrState::Error, false);
    }
    if answer.header().rcode() == Rcode::NOERROR {
        return check_records(state, answer);
    }
    if is_answer {
        (true, state, true)
    } else {
        (false, XfrState::Error, false)
    }
}
