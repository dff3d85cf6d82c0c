//! Requests by their octets: `request BASE: CALL, ..` is one that one message answers, and `transfer BASE: CALL, ..` one that
//! several may answer. `recorded BASE MESSAGE: CALL, ..` is a request with the header and the OPT record of another message.
//!
//! Calls are `set-id ID`, `set-header-id ID`, `set-size OCTETS`, `set-dnssec`, `add-option CODE DIGITS`, and `message`, `octets`, `append`,
//! `check`, `question`, `id`, `dnssec`, `base`, `opt` and `answers MESSAGE`, which say what is answered. Between two bars
//! stand calls of a copy. A request that is refused shows the error.

ghost use Rattle.std.specs.Prelude.{IfOk};
ghost use Rattle.client_request.specs.Composed.{HoldsNothing};

use crate::reading::{first_word, message_of, octets_of};
use crate::saying::{say, say_name, say_octets, say_opt, say_outcome, say_value};
use client_request::{Compose, ComposeRequest, Error, RequestMessage, RequestMessageMulti};
use dns_base::{Builder, Message, NoMemory, OptRecord, ToName};
use std::alloc::Global;

enum Asked {
    Single(RequestMessage),
    Parts(RequestMessageMulti),
}

impl Drop for Asked {
    fn drop(self) {
        match self {
            Asked::Single(_) => {}
            Asked::Parts(_) => {}
        }
    }
}

impl Asked {
    fn try_clone(&self, alloc: Global) -> Result<Asked, NoMemory> {
        match self {
            Asked::Single(request) => Ok(Asked::Single(request.try_clone(alloc)?)),
            Asked::Parts(request) => Ok(Asked::Parts(request.try_clone(alloc)?)),
        }
    }

    /// Says the octets that are made of it.
    fn say_octets(&self, said: &mut String) -> Option<()> {
        let Asked::Single(request) = self else {
            return None;
        };
        match request.to_vec() {
            Ok(octets) => say_octets(said, octets.as_slice()),
            Err(error) => say_name(said, &error),
        }
    }

    /// Changes the id of the recorded header.
    fn set_header_id(&mut self, word: &str) -> Option<()> {
        let id = word.parse::<u16>().ok()?;
        match self {
            Asked::Single(request) => request.header_mut().set_id(id),
            Asked::Parts(request) => request.header_mut().set_id(id),
        }
        Some(())
    }

    fn tell(&mut self, alloc: Global, words: &str, said: &mut String) -> Option<()> {
        let (word, rest) = first_word(words);
        match word {
            "set-header-id" => self.set_header_id(rest),
            "base" => match self {
                Asked::Single(request) => say_octets(said, request.base().as_slice()),
                Asked::Parts(request) => say_octets(said, request.base().as_slice()),
            },
            "opt" => match self {
                Asked::Single(request) => say_opt(said, request.recorded_opt()),
                Asked::Parts(request) => say_opt(said, request.recorded_opt()),
            },
            "octets" => self.say_octets(said),
            _ => match self {
                Asked::Single(request) => tell(alloc, request, words, said),
                Asked::Parts(request) => tell(alloc, request, words, said),
            },
        }
    }

    fn tell_all(&mut self, alloc: Global, calls: &str, said: &mut String) -> Option<()> {
        for words in calls.split(',') {
            self.tell(alloc, words.trim(), said)?;
        }
        Some(())
    }

    /// Calls it, then a copy, and then it again.
    fn show(&mut self, alloc: Global, calls: &str, said: &mut String) -> Option<()> {
        let Some((first, rest)) = calls.split_once('|') else {
            return self.tell_all(alloc, calls, said);
        };
        let (of_copy, last) = rest.split_once('|')?;
        self.tell_all(alloc, first, said)?;
        let mut copy = self.try_clone(alloc).ok()?;
        copy.tell_all(alloc, of_copy, said)?;
        self.tell_all(alloc, last, said)
    }
}

/// Says the name, the type and the class of the only question.
fn say_question<R: Compose>(alloc: Global, request: &R, said: &mut String) -> Option<()> {
    let Some(question) = request.sole_question() else {
        return say(said, "none");
    };
    let name = question.qname().to_name(alloc).ok()?;
    say_value(said, &name)?;
    say_value(said, &question.qtype().0)?;
    say_value(said, &question.qclass().0)
}

fn empty_builder(alloc: Global) -> Result<Builder, NoMemory>
    ensures { IfOk result HoldsNothing }
{
    Builder::new(alloc, None)
}

/// Says the message that is appended to an empty one.
fn say_appended<R: Compose>(alloc: Global, request: &R, said: &mut String) -> Option<()> {
    let Ok(mut target) = empty_builder(alloc) else {
        return None;
    };
    request.append_message(&mut target).ok()?;
    let message = target.finish().ok()?;
    say_octets(said, message.as_slice())
}

/// A call that changes a request.
fn change<R: Compose>(
    alloc: Global,
    request: &mut R,
    words: &str,
    said: &mut String,
) -> Option<()> {
    let (word, rest) = first_word(words);
    match word {
        "set-id" => request.set_id(rest.parse::<u16>().ok()?),
        "set-size" => request.set_udp_payload_size(rest.parse::<u16>().ok()?),
        "set-dnssec" => request.set_dnssec_ok(true),
        "add-option" => {
            let (code, digits) = first_word(rest);
            let octets = octets_of(alloc, digits)?;
            let added = request.add_opt(code.parse::<u16>().ok()?, octets.as_slice());
            return say_outcome(said, added);
        }
        _ => return None,
    }
    Some(())
}

/// A call.
fn tell<R: Compose>(alloc: Global, request: &mut R, words: &str, said: &mut String) -> Option<()> {
    let (word, rest) = first_word(words);
    match word {
        "message" => match request.to_message() {
            Ok(message) => say_octets(said, message.as_slice()),
            Err(error) => say_name(said, &error),
        },
        "append" => say_appended(alloc, request, said),
        "check" => match request.check_message() {
            Ok(()) => say(said, "ok"),
            Err(error) => say_name(said, &error),
        },
        "question" => say_question(alloc, request, said),
        "id" => say_value(said, &request.header().id()),
        "dnssec" => say_value(said, &request.dnssec_ok()),
        "answers" => say_value(said, &request.is_answer(&message_of(alloc, rest)?)),
        _ => change(alloc, request, words, said),
    }
}

/// The request of a word that leads a line.
fn made(alloc: Global, word: &str, words: &str) -> Option<Result<Asked, Error>> {
    let (base, other) = first_word(words);
    let base = message_of(alloc, base)?;
    match word {
        "request" => match RequestMessage::new(alloc, base) {
            Ok(request) => Some(Ok(Asked::Single(request))),
            Err(error) => Some(Err(error)),
        },
        "transfer" => match RequestMessageMulti::new(alloc, base) {
            Ok(request) => Some(Ok(Asked::Parts(request))),
            Err(error) => Some(Err(error)),
        },
        _ => Some(Ok(recorded(alloc, base, other)?)),
    }
}

/// A request with the header and the OPT record of another message.
fn recorded(alloc: Global, base: Message, other: &str) -> Option<Asked> {
    let other = message_of(alloc, other)?;
    let request = RequestMessage::new(alloc, base).ok()?;
    let recorded = request.with_recorded(other.header(), other.opt()).ok()?;
    Some(Asked::Single(recorded))
}

/// Says what calls of a request answer, by the word that leads the line.
pub fn show(alloc: Global, word: &str, line: &str, said: &mut String) -> Option<()> {
    let (words, calls) = line.split_once(':')?;
    match made(alloc, word, words)? {
        Ok(mut asked) => asked.show(alloc, calls, said),
        Err(error) => say_name(said, &error),
    }
}
