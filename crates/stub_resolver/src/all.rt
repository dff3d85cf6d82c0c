//! Questions that are asked at once, and each once more, at once too, whose reply says that it could not be read.

ghost use Rattle.std.specs.Prelude.{◌≡◌, [], ◌∷◌, ◌++◌, if◌then◌else◌, true, false, Err, OnOk, IfOk, IfErr, IsErrOf, drop, map};
ghost use Rattle.client_request.specs.Response.{IsRefusal};
ghost use Rattle.client_request.specs.declared.error.Error.TheVariants.{NumbersUsed};
ghost use Rattle.client_loop.specs.Asking.{between};
ghost use Rattle.stub_resolver.specs.All.{GetAll, GetBy, ReplyAll, SettleAll, StopFor, StopUnread, StopsAll, faults_after_all, gots_of, is_asked, next_reply, request_in, requests_of, settled, unread};
ghost use Rattle.stub_resolver.specs.Queries.{got_of, is_formerr};

use crate::asking::{Reply, got_of, is_formerr};
use crate::both::{faults_after, request_of};
use client_core::{Client, Clock, Edge};
use client_loop::ask_all;
use client_request::{Compose, Error, RequestMessage, Words};
use dns_base::{Name, NoMemory, Rtype};
use resolv_lookup::{Answer, QueryFault};
use std::alloc::Global;
use std::collections::VecDeque;

/// A question of the class IN: for the records of a type that a name has.
#[derive(Debug, Drop)]
pub struct Question {
    /// The name.
    pub name: Name,
    /// The type of its records.
    pub rtype: Rtype,
}

impl Question {
    /// The question for the records of a type that a name has.
    pub fn new(name: Name, rtype: Rtype) -> Question
        ensures { result ≡ record { name = name; rtype = rtype } }
    {
        Question { name, rtype }
    }
}

/// What a question gets.
pub(crate) type Got = Result<Answer, QueryFault>;

/// Adds whether a question is asked, and its request, if it has one.
fn push_question(
    alloc: Global,
    question: &Question,
    asked: &mut Vec<bool>,
    requests: &mut Vec<RequestMessage>,
) -> Result<(), NoMemory>
    ensures asked { OnOk result (asked.new.items ≡ asked.old.items ++ is_asked question.now ∷ []) }
    ensures requests { OnOk result (requests.new.items ≡ requests.old.items ++ request_in question.now) }
{
    match request_of(alloc, &question.name, question.rtype) {
        Ok(request) => {
            asked.push(true)?;
            requests.push(request)?;
            Ok(())
        }
        Err(Error::FormError) => {
            asked.push(false)?;
            Ok(())
        }
        Err(_) => Err(NoMemory),
    }
}

/// Which of questions are asked, and the requests of these, in order.
fn requests_of(
    alloc: Global,
    questions: &[Question],
) -> Result<(Vec<bool>, Vec<RequestMessage>), NoMemory>
    ensures asked { IfOk result (λ r. r.0.items ≡ map is_asked questions.now) }
    ensures requests { IfOk result (λ r. r.1.items ≡ requests_of questions.now) }
{
    let mut asked = Vec::new(alloc);
    let mut requests = Vec::new(alloc);
    for question in questions {
        push_question(alloc, question, &mut asked, &mut requests)?;
    }
    Ok((asked, requests))
}

/// The same requests once more.
fn copies_of(alloc: Global, requests: &[RequestMessage]) -> Result<Vec<RequestMessage>, NoMemory>
    ensures { IfOk result (λ copies. copies.items ≡ requests.now) }
{
    let mut copies = Vec::new(alloc);
    for request in requests {
        copies.push(request.try_clone(alloc)?)?;
    }
    Ok(copies)
}

/// Adds a request whose reply says that it could not be read.
fn push_unread(
    all: &mut Vec<RequestMessage>,
    request: RequestMessage,
    reply: &Reply,
) -> Result<(), NoMemory>
    ensures { OnOk result (all.new.items ≡ all.old.items ++ (if is_formerr reply.now then request ∷ [] else [])) }
{
    if is_formerr(reply) {
        all.push(request)?;
    }
    Ok(())
}

/// Of requests those whose replies say that they could not be read.
fn unread(
    alloc: Global,
    requests: Vec<RequestMessage>,
    replies: &[Reply],
) -> Result<Vec<RequestMessage>, NoMemory>
    ensures { IfOk result (λ r. r.items ≡ unread requests.items replies.now) }
{
    let mut left = VecDeque::from(requests);
    let mut all = Vec::new(alloc);
    for reply in replies {
        match left.pop_front() {
            Some(request) => push_unread(&mut all, request, reply)?,
            None => return Ok(all),
        }
    }
    Ok(all)
}

/// Takes the first of replies, if there is one.
fn next_reply(replies: &mut VecDeque<Reply>) -> Reply
    ensures first { result ≡ next_reply replies.old.items }
    ensures left { replies.new.items ≡ drop 1 replies.old.items }
{
    match replies.pop_front() {
        Some(reply) => reply,
        None => None,
    }
}

/// A reply, or in its place, where it says that its question could not be read, the next of the later ones.
fn settled_one(reply: Reply, later: &mut VecDeque<Reply>) -> Reply
    ensures reply { result ≡ (if is_formerr reply then next_reply later.old.items else reply) }
    ensures left { later.new.items ≡ (if is_formerr reply then drop 1 later.old.items else later.old.items) }
{
    if is_formerr(&reply) {
        next_reply(later)
    } else {
        reply
    }
}

/// In place of each reply that says that its question could not be read the next of the later ones.
fn settled(alloc: Global, early: Vec<Reply>, later: Vec<Reply>) -> Result<Vec<Reply>, NoMemory>
    ensures { IfOk result (λ r. r.items ≡ settled early.items later.items) }
{
    let mut early = VecDeque::from(early);
    let mut later = VecDeque::from(later);
    let mut all = Vec::new(alloc);
    while let Some(reply) = early.pop_front() {
        all.push(settled_one(reply, &mut later))?;
    }
    Ok(all)
}

/// Asks those requests once more, at once, whose replies say that they could not be read, and gives what all replies are then.
fn settle_all<E: Edge, C: Clock, W: Words>(
    alloc: Global,
    client: &mut Client,
    edge: &mut E,
    clock: &mut C,
    words: &mut W,
    all: Vec<RequestMessage>,
    got: Vec<Reply>,
) -> Result<Vec<Reply>, Error>
    ensures settle { IfOk result (λ r. between E.deeds E.waits E.polls C.given W.stream (client.old, edge.old, clock.old, words.old) (client.new, edge.new, clock.new, words.new) (SettleAll all.items got.items r.items)) }
    ensures numbers { IsErrOf result NumbersUsed → between E.deeds E.waits E.polls C.given W.stream (client.old, edge.old, clock.old, words.old) (client.new, edge.new, clock.new, words.new) (StopUnread all.items got.items) }
    ensures lasts { OnOk result (client.old.failed ≡ false → client.new.failed ≡ false) }
    ensures refused { IfErr result IsRefusal }
    ensures failed_only { IsErrOf result Error.Failed → client.old.failed ≡ true }
{
    let again = unread(alloc, all, &got)?;
    let number = client.next_request();
    let later = match ask_all(alloc, client, edge, clock, words, number, again) {
        Ok(replies) => replies,
        Err(error) => return Err(error),
    };
    match settled(alloc, got, later) {
        Ok(replies) => Ok(replies),
        Err(NoMemory) => Err(Error::NoMemory),
    }
}

/// The client's replies to requests that wait at once.
fn replies_to_all<E: Edge, C: Clock, W: Words>(
    alloc: Global,
    client: &mut Client,
    edge: &mut E,
    clock: &mut C,
    words: &mut W,
    requests: Vec<RequestMessage>,
) -> Result<Vec<Reply>, Error>
    ensures replies { IfOk result (λ r. between E.deeds E.waits E.polls C.given W.stream (client.old, edge.old, clock.old, words.old) (client.new, edge.new, clock.new, words.new) (ReplyAll requests.items r.items)) }
    ensures numbers { IsErrOf result NumbersUsed → between E.deeds E.waits E.polls C.given W.stream (client.old, edge.old, clock.old, words.old) (client.new, edge.new, clock.new, words.new) (StopsAll requests.items) }
    ensures lasts { OnOk result (client.old.failed ≡ false → client.new.failed ≡ false) }
    ensures refused { IfErr result IsRefusal }
    ensures failed_only { IsErrOf result Error.Failed → client.old.failed ≡ true }
{
    let copies = copies_of(alloc, &requests)?;
    let number = client.next_request();
    match ask_all(alloc, client, edge, clock, words, number, requests) {
        Ok(replies) => settle_all(alloc, client, edge, clock, words, copies, replies),
        Err(error) => Err(error),
    }
}

/// What a question gets, by whether it is asked: what the next reply says, or that several messages answer it.
fn next_got(is_asked: bool, replies: &mut VecDeque<Reply>) -> Got
    ensures got { result ≡ (if is_asked then got_of (next_reply replies.old.items) else Err (QueryFault.Client Error.FormError)) }
    ensures left { replies.new.items ≡ (if is_asked then drop 1 replies.old.items else replies.old.items) }
{
    if is_asked {
        got_of(next_reply(replies))
    } else {
        Err(QueryFault::Client(Error::FormError))
    }
}

/// What each question gets, by whether it is asked.
fn gots_of(alloc: Global, asked: &[bool], replies: Vec<Reply>) -> Result<Vec<Got>, NoMemory>
    ensures { IfOk result (λ gots. gots.items ≡ gots_of asked.now replies.items) }
{
    let mut left = VecDeque::from(replies);
    let mut gots = Vec::new(alloc);
    for is_asked in asked {
        gots.push(next_got(*is_asked, &mut left))?;
    }
    Ok(gots)
}

/// What questions get whose requests wait at once, by whether they are asked.
fn got_by<E: Edge, C: Clock, W: Words>(
    alloc: Global,
    client: &mut Client,
    edge: &mut E,
    clock: &mut C,
    words: &mut W,
    asked: &[bool],
    requests: Vec<RequestMessage>,
) -> Result<Vec<Got>, Error>
    ensures get { IfOk result (λ r. between E.deeds E.waits E.polls C.given W.stream (client.old, edge.old, clock.old, words.old) (client.new, edge.new, clock.new, words.new) (GetBy asked.now requests.items r.items)) }
    ensures numbers { IsErrOf result NumbersUsed → between E.deeds E.waits E.polls C.given W.stream (client.old, edge.old, clock.old, words.old) (client.new, edge.new, clock.new, words.new) (StopsAll requests.items) }
    ensures lasts { OnOk result (client.old.failed ≡ false → client.new.failed ≡ false) }
    ensures refused { IfErr result IsRefusal }
    ensures failed_only { IsErrOf result Error.Failed → client.old.failed ≡ true }
{
    let replies = match replies_to_all(alloc, client, edge, clock, words, requests) {
        Ok(replies) => replies,
        Err(error) => return Err(error),
    };
    match gots_of(alloc, asked, replies) {
        Ok(gots) => Ok(gots),
        Err(NoMemory) => Err(Error::NoMemory),
    }
}

/// What questions get whose requests wait at once.
pub(crate) fn got_to_all<E: Edge, C: Clock, W: Words>(
    alloc: Global,
    client: &mut Client,
    edge: &mut E,
    clock: &mut C,
    words: &mut W,
    questions: &[Question],
) -> Result<Vec<Got>, Error>
    ensures get { IfOk result (λ r. between E.deeds E.waits E.polls C.given W.stream (client.old, edge.old, clock.old, words.old) (client.new, edge.new, clock.new, words.new) (GetAll questions.now r.items)) }
    ensures numbers { IsErrOf result NumbersUsed → between E.deeds E.waits E.polls C.given W.stream (client.old, edge.old, clock.old, words.old) (client.new, edge.new, clock.new, words.new) (StopFor questions.now) }
    ensures lasts { OnOk result (client.old.failed ≡ false → client.new.failed ≡ false) }
    ensures refused { IfErr result IsRefusal }
    ensures failed_only { IsErrOf result Error.Failed → client.old.failed ≡ true }
{
    match requests_of(alloc, questions) {
        Ok((asked, requests)) => got_by(alloc, client, edge, clock, words, &asked, requests),
        Err(NoMemory) => Err(Error::NoMemory),
    }
}

/// The count of faults behind what questions got. It stands still at its last value.
pub(crate) fn faults_after_all(gots: &[Got], faults: u64) -> u64
    ensures { result ≡ faults_after_all gots.now faults }
{
    let mut count = faults;
    for got in gots {
        count = faults_after(got, count);
    }
    count
}
