//! A stub resolver in memory.
//!
//! `resolver MOMENTS; EVENT, ..; CALL, ..` calls a resolver of the server `both-53` that searches below example.com, whose words are 4660 each; so
//! do `resolver-run`, within an operation, `resolver-file` and `resolver-run-file`, by a resolv.conf that names the server. `query NAME TYPE`
//! and `both NAME TYPE TYPE` ask for records, `many NAME TYPE / ..` at once, `message BASE` and `once BASE` what a message asks, `host NAME`,
//! `hosts NAME / ..`, `search NAME`, `address`, `service NAME NAME` look up, `add SERVER` adds a server and `options` says what holds. `resolver-poor CALL, ..`
//! does so over an edge that learns a server and then finds no memory.

use crate::memory::{clock_of, conf_of, edge_of, server_of};
use crate::poor::PoorEdge;
use crate::reading::{first_word, message_of};
use crate::saying::{say, say_name, say_outcome, say_sentence, say_value};
use client_core::{Clock, Edge, ListClock, ListEdge};
use client_request::{Error, ListWords, WordList, Words};
use dns_base::{IpAddr, Name, Octets, RelativeName, Rtype, ToName};
use resolv_conf::{MemFiles, ResolvConf};
use std::alloc::Global;
use std::collections::BTreeMap;
use stub_resolver::{
    Answer, FoundHosts, HostFault, Query, QueryFault, Question, Resolver, SearchNames, StubResolver,
};

type Scene = StubResolver<ListEdge, ListClock, ListWords>;

fn name_of(alloc: Global, text: &str) -> Option<Name> {
    Name::from_text(alloc, text).ok()
}

/// The type of a number.
fn type_of(word: &str) -> Option<Rtype> {
    Some(Rtype(word.parse::<u16>().ok()?))
}

/// Says the response code of an answer and how many records it has, or why there is none.
fn say_answer(said: &mut String, got: &Result<Answer, QueryFault>) -> Option<()> {
    match got {
        Ok(answer) => {
            say_sentence(said, "code", &answer.header().rcode().0)?;
            say_sentence(said, "answers", &answer.header_counts().ancount())
        }
        Err(fault) => say_value(said, fault),
    }
}

fn query<E: Edge + Drop, C: Clock + Drop, W: Words + Drop>(
    alloc: Global,
    resolver: &mut StubResolver<E, C, W>,
    words: &str,
    said: &mut String,
) -> Option<()> {
    let (name, rtype) = first_word(words);
    let name = name_of(alloc, name)?;
    say_answer(said, &resolver.query(alloc, &name, type_of(rtype)?))
}

fn both<E: Edge + Drop, C: Clock + Drop, W: Words + Drop>(
    alloc: Global,
    resolver: &mut StubResolver<E, C, W>,
    words: &str,
    said: &mut String,
) -> Option<()> {
    let (name, rtypes) = first_word(words);
    let (one, other) = first_word(rtypes);
    let name = name_of(alloc, name)?;
    let (first, second) = resolver.query_both(alloc, &name, type_of(one)?, type_of(other)?);
    say_answer(said, &first)?;
    say_answer(said, &second)
}

/// Asks questions at once.
fn many<E: Edge + Drop, C: Clock + Drop, W: Words + Drop>(
    alloc: Global,
    resolver: &mut StubResolver<E, C, W>,
    words: &str,
    said: &mut String,
) -> Option<()> {
    let mut questions = Vec::new(alloc);
    for question in words.split('/') {
        let (name, rtype) = first_word(question.trim());
        let name = name_of(alloc, name)?;
        questions.push(Question::new(name, type_of(rtype)?)).ok()?;
    }
    match resolver.resolve_all(alloc, &questions) {
        Ok(gots) => {
            for got in &gots {
                say_answer(said, got)?;
            }
            Some(())
        }
        Err(error) => say_name(said, &error),
    }
}

/// Asks what a message asks, once alone or once more where its answer says that it was not read.
fn message<E: Edge + Drop, C: Clock + Drop, W: Words + Drop>(
    alloc: Global,
    resolver: &mut StubResolver<E, C, W>,
    digits: &str,
    once: bool,
    said: &mut String,
) -> Option<()> {
    let message = message_of(alloc, digits)?;
    let mut query = Query::new(resolver);
    if once {
        query.disable_edns();
    }
    say_sentence(said, "edns", &query.does_edns())?;
    say_answer(said, &query.run(alloc, message))
}

fn say_found<R: Resolver>(
    said: &mut String,
    found: Result<FoundHosts<R>, HostFault>,
) -> Option<()> {
    match found {
        Ok(found) => {
            for address in found.iter() {
                say_value(said, &address)?;
            }
            say_sentence(said, "empty", &found.is_empty())
        }
        Err(fault) => say_value(said, &fault),
    }
}

/// Looks hosts up at once.
fn hosts<E: Edge + Drop, C: Clock + Drop, W: Words + Drop>(
    alloc: Global,
    resolver: &mut StubResolver<E, C, W>,
    words: &str,
    said: &mut String,
) -> Option<()> {
    let mut names = Vec::new(alloc);
    for name in words.split('/') {
        names.push(name_of(alloc, name.trim())?).ok()?;
    }
    match resolver.lookup_hosts(alloc, &names) {
        Ok(all) => {
            for found in all {
                say_found(said, found)?;
            }
            Some(())
        }
        Err(error) => say_name(said, &error),
    }
}

/// Looks up the names of 192.0.2.1.
fn address<E: Edge + Drop, C: Clock + Drop, W: Words + Drop>(
    alloc: Global,
    resolver: &mut StubResolver<E, C, W>,
    said: &mut String,
) -> Option<()> {
    match resolver.lookup_addr(alloc, IpAddr::V4([192, 0, 2, 1])) {
        Ok(found) => {
            for name in found.iter() {
                say_value(said, &name.to_name(alloc).ok()?)?;
            }
            Some(())
        }
        Err(fault) => say_value(said, &fault),
    }
}

/// Looks up a service at port 80, and where each server of it is.
fn service<E: Edge + Drop, C: Clock + Drop, W: Words + Drop>(
    alloc: Global,
    resolver: &mut StubResolver<E, C, W>,
    names: &str,
    said: &mut String,
) -> Option<()> {
    let (service, name) = first_word(names);
    let service = RelativeName::from_text(alloc, service).ok()?;
    let name = name_of(alloc, name)?;
    let mut words = ListWords::new(WordList::new(alloc));
    let found = resolver.lookup_srv(alloc, &mut words, &service, &name, 80);
    let Some(mut found) = found.ok()? else {
        return say(said, "none");
    };
    for _ in 0..u64::MAX {
        let Some(item) = found.next_item() else {
            return Some(());
        };
        for place in item.resolve(alloc, resolver).ok()?.resolved() {
            say_value(said, place)?;
        }
    }
    Some(())
}

fn options<E: Edge + Drop, C: Clock + Drop, W: Words + Drop>(
    resolver: &StubResolver<E, C, W>,
    said: &mut String,
) -> Option<()> {
    say_sentence(said, "seconds", &resolver.options().timeout.as_secs())?;
    say_sentence(said, "suffixes", &resolver.search_iter().count())
}

fn call<E: Edge + Drop, C: Clock + Drop, W: Words + Drop>(
    alloc: Global,
    resolver: &mut StubResolver<E, C, W>,
    line: &str,
    said: &mut String,
) -> Option<()> {
    let (word, rest) = first_word(line);
    match word {
        "query" => query(alloc, resolver, rest, said),
        "both" => both(alloc, resolver, rest, said),
        "many" => many(alloc, resolver, rest, said),
        "message" => message(alloc, resolver, rest, false, said),
        "once" => message(alloc, resolver, rest, true, said),
        "add" => say_outcome(said, resolver.add_connection(&server_of(rest)?)),
        "options" => options(resolver, said),
        "host" => say_found(said, resolver.lookup_host(alloc, &name_of(alloc, rest)?)),
        "hosts" => hosts(alloc, resolver, rest, said),
        "search" => {
            let name = RelativeName::from_text(alloc, rest).ok()?;
            say_found(said, resolver.search_host(alloc, &name))
        }
        "address" => address(alloc, resolver, said),
        "service" => service(alloc, resolver, rest, said),
        _ => None,
    }
}

fn call_all<E: Edge + Drop, C: Clock + Drop, W: Words + Drop>(
    alloc: Global,
    resolver: &mut StubResolver<E, C, W>,
    calls: &str,
    said: &mut String,
) -> Option<()> {
    for line in calls.split(',') {
        call(alloc, resolver, line.trim(), said)?;
    }
    Some(())
}

/// A configuration of a server that searches below example.com.
fn conf(alloc: Global) -> Option<ResolvConf> {
    let mut conf = conf_of(alloc, "both-53")?;
    let suffix = Name::from_text(alloc, "example.com").ok()?;
    conf.options.search.push(suffix).ok()?;
    Some(conf)
}

fn words(alloc: Global) -> Option<ListWords> {
    let words = Vec::from_slice(alloc, &[4660; 8]).ok()?;
    Some(ListWords::new(WordList::from_vec(words)))
}

/// Files of which one is the system's configuration.
fn files(alloc: Global) -> Option<MemFiles> {
    let path = String::from_str(alloc, "/etc/resolv.conf").ok()?;
    let octets = Octets::from_slice(alloc, b"nameserver 192.0.2.53\noptions timeout:9\n").ok()?;
    let mut files = BTreeMap::new(alloc);
    files.insert(path, octets).ok()?;
    Some(MemFiles::new(files, Vec::new(alloc)))
}

/// What was said within an operation, or why there was none.
type Given = Result<Option<String>, Error>;

fn within(alloc: Global, resolver: &mut Scene, calls: &str) -> Given {
    let mut said = String::new(alloc);
    match call_all(alloc, resolver, calls, &mut said) {
        Some(()) => Ok(Some(said)),
        None => Ok(None),
    }
}

/// The clock and the edge of a line, and its calls.
fn parts(alloc: Global, line: &str) -> Option<(ListClock, ListEdge, &str)> {
    let (moments, rest) = line.split_once(';')?;
    let (events, calls) = rest.split_once(';')?;
    Some((
        clock_of(alloc, moments)?,
        edge_of(alloc, events)?,
        calls.trim(),
    ))
}

fn show_made(alloc: Global, line: &str, by_file: bool, said: &mut String) -> Option<()> {
    let (clock, edge, calls) = parts(alloc, line)?;
    let words = words(alloc)?;
    let made = if by_file {
        StubResolver::new(alloc, &mut files(alloc)?, edge, clock, words)
    } else {
        StubResolver::from_conf(alloc, conf(alloc)?, edge, clock, words)
    };
    call_all(alloc, &mut made.ok()?, calls, said)
}

fn show_run(alloc: Global, line: &str, by_file: bool, said: &mut String) -> Option<()> {
    let (clock, edge, calls) = parts(alloc, line)?;
    let words = words(alloc)?;
    let inner = |resolver: &mut Scene| within(alloc, resolver, calls);
    let given: Given = if by_file {
        StubResolver::run(alloc, &mut files(alloc)?, edge, clock, words, inner)
    } else {
        StubResolver::run_with_conf(alloc, conf(alloc)?, edge, clock, words, inner)
    };
    match given {
        Ok(text) => say(said, text?.as_str()),
        Err(error) => say_name(said, &error),
    }
}

fn show_poor(alloc: Global, calls: &str, said: &mut String) -> Option<()> {
    let edge = PoorEdge { servers: 1 };
    let clock = clock_of(alloc, "0")?;
    let made = StubResolver::from_conf(alloc, conf(alloc)?, edge, clock, words(alloc)?);
    call_all(alloc, &mut made.ok()?, calls, said)
}

pub fn show(alloc: Global, word: &str, rest: &str, said: &mut String) -> Option<()> {
    match word {
        "resolver" => show_made(alloc, rest, false, said),
        "resolver-file" => show_made(alloc, rest, true, said),
        "resolver-run" => show_run(alloc, rest, false, said),
        "resolver-run-file" => show_run(alloc, rest, true, said),
        "resolver-poor" => show_poor(alloc, rest, said),
        _ => None,
    }
}
