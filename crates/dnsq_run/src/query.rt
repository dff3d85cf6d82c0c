//! The command that asks the servers of a configuration.

ghost use Rattle.std.specs.Prelude.{◌≡◌, ◌≢◌, ◌≤◌, [], length, map, Some, IfSome, OnOk, IfOk, IfErr, IsErrOf};
ghost use Rattle.dns_values.specs.Source.{Rose};
ghost use Rattle.command_parts.specs.Ends.{IsEarly, status_of, line_of};
ghost use Rattle.dnsq_run.specs.Program.{IsRefused, numbers_line};
ghost use Rattle.command_parts.specs.Conf.{at_port, conf_at};
ghost use Rattle.dnsq_run.specs.Query.{IsAsked, IsReplied, Stops, StopsAsking, answer_line, is_message, request_of, around};

use crate::lines::refusal;
use crate::query_words::Query;
use crate::usage::Command;
use client_core::{Client, Clock, Edge, cache, redundant};
use client_loop::{ask, learn_all};
use client_replay::every_plain_trace_is_right;
use client_request::{Error, RequestMessage, Words};
use command_parts::{Ending, conf_at, configuration};
use dns_base::{Message, NoMemory};
use dns_script::push_reply;
use dns_values::Source;
use resolv_conf::ResolvConf;
use std::alloc::Global;

/// What the servers answer: a message or an error; none where a million turns passed without either.
pub type Answer = Option<Result<Message, Error>>;

/// What is written for an answer: the line of the reply, or that there is none.
pub fn answer_line(alloc: Global, answer: Answer) -> Result<Vec<u8>, NoMemory>
    ensures { IfOk result (λ v. v.items ≡ answer_line answer) }
{
    let mut line = Vec::new(alloc);
    match answer {
        Some(reply) => push_reply(&mut line, 0, &reply)?,
        None => line.extend_from_slice(b"no reply\n")?,
    }
    Ok(line)
}

/// Whether an answer is a message.
pub fn is_message(answer: &Answer) -> bool
    ensures { result ≡ is_message answer.now }
{
    matches!(answer, Some(Ok(_)))
}

/// The request of a query: its one question, of class IN, recursion desired.
fn request_of(alloc: Global, query: &Query) -> Result<RequestMessage, Error>
    ensures made { IfOk result (λ r. r ≡ request_of query.now) }
    ensures refused { IfErr result (λ e. e ≢ Error.NumbersUsed) }
{
    let message = Message::query(alloc, &query.name, query.rtype)?;
    RequestMessage::new(alloc, message)
}

/// What the servers of a configuration answer to a query.
fn answer<E: Edge, C: Clock, W: Words>(
    alloc: Global,
    query: &Query,
    conf: &ResolvConf,
    edge: &mut E,
    clock: &mut C,
    random: &mut W,
) -> Result<Answer, Error>
    ensures asked { IfOk result (around E.deeds E.polls C.given W.stream (edge.old, clock.old, random.old) (edge.new, clock.new, random.new) (IsReplied query.now conf.now)) }
    ensures numbers { IsErrOf result Error.NumbersUsed → around E.deeds E.polls C.given W.stream (edge.old, clock.old, random.old) (edge.new, clock.new, random.new) (Stops query.now conf.now) }
{
    learn_all(edge, conf.servers.as_slice())?;
    let mut client = Client::new(alloc, conf, redundant::Config::new(), cache::Config::new())?;
    let request = request_of(alloc, query)?;
    match ask(&mut client, edge, clock, random, 0, request) {
        Ok(answer) => {
            every_plain_trace_is_right();
            Ok(answer)
        }
        Err(error) => Err(error),
    }
}

/// What the servers of the configuration that a source gives answer to a query.
pub fn query<S: Source, E: Edge, C: Clock, W: Words>(
    alloc: Global,
    query: &Query,
    source: &mut S,
    edge: &mut E,
    clock: &mut C,
    random: &mut W,
) -> Result<Answer, Ending>
    ensures asked { IfOk result (around E.deeds E.polls C.given W.stream (edge.old, clock.old, random.old) (edge.new, clock.new, random.new) (IsAsked query.now (S.left source.old))) }
    ensures whole { OnOk result (IfSome (S.left source.old) (λ _. S.left source.new ≡ Some [])) }
    ensures early { IfErr result IsEarly }
    ensures source_fault { IfErr result (λ e. status_of e ≡ 3 → Rose (S.faults source.old) (S.faults source.new)) }
    ensures refused { IfErr result (λ e. status_of e ≡ 1 → IfSome (S.left source.old) (λ text. IsRefused Command.Conf text (line_of e))) }
    ensures numbers { IfErr result (λ e. status_of e ≡ 7 → around E.deeds E.polls C.given W.stream (edge.old, clock.old, random.old) (edge.new, clock.new, random.new) (StopsAsking query.now (S.left source.old))) }
    ensures numbers_line { IfErr result (λ e. status_of e ≡ 7 → line_of e ≡ numbers_line) }
{
    let read = configuration(alloc, source)?;
    let conf = conf_at(query.port, read);
    match answer(alloc, query, &conf, edge, clock, random) {
        Ok(answer) => Ok(answer),
        Err(error) => Err(refusal(alloc, error)),
    }
}
