//! What was sent by datagrams and not answered.

ghost use Rattle.std.specs.Prelude.{◌≡◌, IfOk, OnOk};
ghost use Rattle.number_table.specs.Entries.{entry_at, puts};
ghost use Rattle.trace_points.specs.exchanges.Open as plain;

use crate::questions::TraceConf;
use client_request::{Out, RequestMessage};
use dns_base::{Message, NoMemory, Octets, Seq};
use message_judging::matching::is_answer_to;
use number_table::NumberTable;
use std::alloc::Global;
use trace_tables::frames::{Brought, received};
use trace_tables::{Asked, Sent};

/// By place, the oldest first.
pub type Open = NumberTable<Seq<Sent>>;

/// Whether a message with a whole header among these answers a request.
fn is_answered_by(request: &RequestMessage, id: u16, messages: &[Octets]) -> Result<bool, NoMemory>
    ensures { IfOk result (λ b. b ≡ plain.answered_by request.now id messages.now) }
{
    for octets in messages {
        if let Ok(message) = Message::from_octets(octets.try_clone()?) {
            if is_answer_to(request, id, &message) {
                return Ok(true);
            }
        }
    }
    Ok(false)
}

/// Whether messages answer a send of a request that was asked.
fn is_answered(
    askings: &NumberTable<Asked>,
    messages: &[Octets],
    send: &Sent,
) -> Result<bool, NoMemory>
    ensures { IfOk result (λ b. b ≡ plain.is_answered messages.now send.now.id (entry_at send.now.request askings.now)) }
{
    match askings.get(send.request) {
        None => Ok(false),
        Some(asked) => is_answered_by(&asked.request, send.id, messages),
    }
}

/// What messages leave open.
#[tactic(auto, using(crate::proofs::lemmas::exchanges::Opening::left_kept, crate::proofs::lemmas::exchanges::Opening::left_dropped))]
fn left_by(
    alloc: Global,
    sends: Seq<Sent>,
    askings: &NumberTable<Asked>,
    messages: &[Octets],
) -> Result<Seq<Sent>, NoMemory>
    ensures { IfOk result (λ left. left ≡ plain.left_open messages.now askings.now sends) }
{
    let mut left = Seq::new(alloc);
    for send in sends.into_vec() {
        if !is_answered(askings, messages, &send)? {
            left.push(send)?;
        }
    }
    Ok(left)
}

/// What was sent at a place is put there.
fn put_sends(sent: &mut Open, place: u64, sends: Seq<Sent>) -> Result<(), NoMemory>
    ensures { OnOk result (sent.new ≡ puts place sends sent.old) }
{
    if sent.insert(place, sends).is_err() {
        return Err(NoMemory);
    }
    Ok(())
}

/// An event came, and what it brought is taken, of requests that were asked by then.
pub fn meet_open(
    conf: &TraceConf,
    sent: &mut Open,
    brought: &Option<Brought>,
    askings: &NumberTable<Asked>,
) -> Result<(), NoMemory>
    ensures { OnOk result (sent.new ≡ plain.met conf.now brought.now askings.now sent.old) }
{
    let Some(brought) = brought else {
        return Ok(());
    };
    let Some(sends) = sent.remove(brought.place) else {
        return Ok(());
    };
    let read = received(conf.alloc(), conf.recv_size(), brought.frames.as_slice())?;
    let left = left_by(conf.alloc(), sends, askings, read.as_slice())?;
    put_sends(sent, brought.place, left)
}

fn add_send(sent: &mut Open, alloc: Global, place: u64, send: Sent) -> Result<(), NoMemory>
    ensures { OnOk result (sent.new ≡ plain.sends_more place send sent.old) }
{
    let mut sends = match sent.remove(place) {
        Some(sends) => sends,
        None => Seq::new(alloc),
    };
    sends.push(send)?;
    put_sends(sent, place, sends)
}

/// An out is put, at a moment.
pub fn put_open(sent: &mut Open, alloc: Global, moment: u64, out: &Out) -> Result<(), NoMemory>
    ensures { OnOk result (sent.new ≡ plain.has_put out.now moment sent.old) }
{
    match out {
        Out::Send {
            place,
            request,
            id,
            octets,
        } => {
            let send = Sent {
                request: *request,
                id: *id,
                octets: octets.try_clone()?,
                moment,
            };
            add_send(sent, alloc, *place, send)
        }
        _ => Ok(()),
    }
}
