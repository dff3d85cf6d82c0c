//! What was put out, in words; and of which outs a clause is asked.

ghost use Rattle.std.specs.Prelude.{◌≡◌, ◌++◌, OnOk};
ghost use Rattle.std.specs.List.{flat_map};
ghost use Rattle.trace_audit_run.specs.missing_line.Words as plain;

use crate::missing_line::texts::{push_number, push_words};
use client_request::{Error, Out};
use dns_base::{Message, NoMemory};
use std::alloc::Global;
use trace_judge::Clause;

/// Adds of what number something was done.
#[tactic(auto, unfolding(crate::specs::missing_line::Words::done))]
fn push_done(
    alloc: Global,
    text: &mut Vec<u8>,
    of: &str,
    number: u64,
    words: &str,
) -> Result<(), NoMemory>
    ensures { OnOk result (text.new.items ≡ text.old.items ++ plain.done of.now number words.now) }
{
    push_number(alloc, text, of, number)?;
    push_words(text, words)
}

/// Adds of what number something was done, and to which other one.
#[tactic(auto, unfolding(crate::specs::missing_line::Words::done_to))]
fn push_done_to(
    alloc: Global,
    text: &mut Vec<u8>,
    of: &str,
    number: u64,
    words: &str,
    other: u64,
) -> Result<(), NoMemory>
    ensures { OnOk result (text.new.items ≡ text.old.items ++ plain.done_to of.now number words.now other) }
{
    push_number(alloc, text, of, number)?;
    push_number(alloc, text, words, other)
}

/// What a request was given.
fn given(reply: &Result<Message, Error>) -> &'static str
    ensures { result.now ≡ plain.given reply.now }
{
    match reply {
        Ok(_) => " was given a message",
        Err(_) => " was given an error",
    }
}

/// Adds what was put out.
fn push_out(alloc: Global, text: &mut Vec<u8>, out: &Out) -> Result<(), NoMemory>
    ensures { OnOk result (text.new.items ≡ text.old.items ++ plain.out_words out.now) }
{
    match out {
        Out::Start {
            request,
            server,
            ..
        } => push_done_to(
            alloc,
            text,
            "request ",
            *request,
            " was handed to server ",
            *server as u64,
        ),
        Out::OpenDgram { place, server } => {
            push_done_to(
                alloc,
                text,
                "place ",
                *place,
                " was opened to server ",
                *server as u64,
            )
        }
        Out::OpenStream { place, server } => {
            push_done_to(
                alloc,
                text,
                "place ",
                *place,
                " was opened to server ",
                *server as u64,
            )
        }
        Out::Send { place, request, .. } => {
            push_done_to(
                alloc,
                text,
                "request ",
                *request,
                " was sent at place ",
                *place,
            )
        }
        Out::Write { place, request, .. } => {
            push_done_to(
                alloc,
                text,
                "request ",
                *request,
                " was written at place ",
                *place,
            )
        }
        Out::Resume { place, .. } => {
            push_done(alloc, text, "place ", *place, " was written to again")
        }
        Out::Close { place } => push_done(alloc, text, "place ", *place, " was closed"),
        Out::Stale { request } => push_done(
            alloc,
            text,
            "request ",
            *request,
            " was marked for a stale reply",
        ),
        Out::Reply { request, result } => {
            push_done(alloc, text, "request ", *request, given(result))
        }
    }
}

/// Whether an out is a reply that is a message.
fn gives_message(out: &Out) -> bool
    ensures { result ≡ plain.gives_message out.now }
{
    match out {
        Out::Reply { result, .. } => result.is_ok(),
        _ => false,
    }
}

/// Whether an out is a reply that is an error.
fn gives_error(out: &Out) -> bool
    ensures { result ≡ plain.gives_error out.now }
{
    match out {
        Out::Reply { result, .. } => result.is_err(),
        _ => false,
    }
}

/// Whether a clause is asked of an out.
pub(crate) fn is_asked(clause: Clause, out: &Out) -> bool
    ensures { result ≡ plain.is_asked clause out.now }
{
    match clause {
        Clause::Events | Clause::Prompts => false,
        Clause::Messages => gives_message(out),
        Clause::Firsts => matches!(out, Out::Reply { .. }),
        Clause::Causes => gives_error(out),
        Clause::Orders => !matches!(out, Out::Reply { .. }),
    }
}

/// Whether it is asked of one of these.
pub(crate) fn is_asked_of_some(clause: Clause, outs: &[Out]) -> bool
    ensures { result ≡ plain.is_asked_of_some clause outs.now }
{
    for out in outs {
        if is_asked(clause, out) {
            return true;
        }
    }
    false
}

/// Adds an out behind a comma, if a clause is asked of it.
fn push_if_asked(
    alloc: Global,
    text: &mut Vec<u8>,
    clause: Clause,
    out: &Out,
) -> Result<(), NoMemory>
    ensures { OnOk result (text.new.items ≡ text.old.items ++ plain.asked_words clause out.now) }
{
    if !is_asked(clause, out) {
        return Ok(());
    }
    push_words(text, ", ")?;
    push_out(alloc, text, out)
}

/// Adds, each behind a comma, the outs of which a clause is asked.
pub(crate) fn push_asked(
    alloc: Global,
    text: &mut Vec<u8>,
    clause: Clause,
    outs: &[Out],
) -> Result<(), NoMemory>
    ensures { OnOk result (text.new.items ≡ text.old.items ++ flat_map (plain.asked_words clause) outs.now) }
{
    for out in outs {
        push_if_asked(alloc, text, clause, out)?;
    }
    Ok(())
}
