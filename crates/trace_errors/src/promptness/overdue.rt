//! Whether a request is overdue.

ghost use Rattle.std.specs.Prelude.{◌≡◌, min, Option, None};
ghost use Rattle.number_table.specs.Entries.{entry_at};
ghost use Rattle.trace_tables.specs.Lists.{listed};
ghost use Rattle.trace_tables.specs.Requests.{past_at};
ghost use Rattle.trace_tables.specs.Sends.{last_at, count_at};
ghost use Rattle.trace_errors.specs.promptness.Overdue as plain;

use crate::promptness::heard::{Heards, is_heard};
use crate::promptness::settings::TraceSettings;
use client_request::Via;
use dns_base::Duration;
use number_table::NumberTable;
use std::marker::Model;
use trace_points::questions::{TraceConf, is_live};
use trace_tables::{Asked, Books, Newest, Place, Requests, Started, Tried};

/// A send: where, and when, in microseconds.
#[derive(Drop)]
struct LastTry {
    place: u64,
    moment: u64,
}

impl Model for LastTry {
    ghost use Rattle.right_trace.specs.Causes.{Try};

    ghost Value = { Try };

    ghost view = { λ t. record { place = t.place; moment = t.moment } };
}

/// The last of these that went to a server.
fn last_at(tries: &Newest<Tried>, server: u32) -> Option<LastTry>
    ensures { result ≡ last_at server tries.now }
{
    for tried in tries {
        if tried.server == server {
            return Some(LastTry {
                place: tried.place,
                moment: tried.moment,
            });
        }
    }
    None
}

/// How many of these went to a server. As many as `most` are as many as more.
fn count_at(tries: &Newest<Tried>, server: u32, most: u64) -> u64
    ensures { result ≡ min most (count_at server tries.now) }
{
    let mut count = 0;
    for tried in tries {
        if tried.server == server && count < most {
            count += 1;
        }
    }
    count
}

/// Whether a send is as old at a moment as an answer is waited for, and its place was live.
fn is_lost(conf: &TraceConf, moment: u64, past: &NumberTable<Place>, last: Option<LastTry>) -> bool
    ensures { result ≡ plain.is_lost conf.now moment past.now last }
{
    match last {
        None => false,
        Some(last) => {
            u128::from(last.moment) + conf.read_timeout().as_micros() <= u128::from(moment)
                && is_live(past, last.place)
        }
    }
}

/// Whether all tries at a server are among these, and the last is lost.
fn are_up_at(
    conf: &TraceConf,
    moment: u64,
    past: &NumberTable<Place>,
    tries: &Newest<Tried>,
    server: u32,
) -> bool
    ensures { result ≡ plain.are_up_at conf.now moment past.now tries.now server }
{
    let all = u64::from(conf.max_tries());
    count_at(tries, server, all + 1) == all && is_lost(conf, moment, past, last_at(tries, server))
}

fn are_up_among(
    conf: &TraceConf,
    moment: u64,
    past: &NumberTable<Place>,
    tries: &Newest<Tried>,
) -> bool
    ensures { result ≡ plain.are_up_among conf.now moment past.now tries.now tries.now }
{
    for tried in tries {
        if are_up_at(conf, moment, past, tries, tried.server) {
            return true;
        }
    }
    false
}

/// Whether by a moment a request had all its sends to one server, the last of them a read timeout ago or more, at a place that was
/// live: by what is known here of sends, and what was known before the row of places.
pub fn are_tries_up(conf: &TraceConf, past: &Books, here: &Books, request: u64, moment: u64) -> bool
    ensures value { result ≡ plain.tries_are_up conf.now request moment past.now.places here.now }
    ensures told { plain.TellsTries conf.now request moment past.now here.now result }
{
    find_tries(conf, past, here, request, moment)
}

fn find_tries(conf: &TraceConf, past: &Books, here: &Books, request: u64, moment: u64) -> bool
    ensures { result ≡ plain.tries_are_up conf.now request moment past.now.places here.now }
{
    match here.sends.tries.get(request) {
        None => false,
        Some(tries) => are_up_among(conf, moment, &past.places, tries),
    }
}

/// Whether the time of a request by stream is over since a start.
fn is_over(conf: &TraceConf, moment: u64, begun: Option<u64>) -> bool
    ensures { result ≡ plain.is_over conf.now moment begun }
{
    match begun {
        None => false,
        Some(begun) => u128::from(begun) + conf.stream_timeout().as_micros() <= u128::from(moment),
    }
}

/// Whether a request waits so long for a server that it was handed to so, by stream.
fn is_silent_at(
    conf: &TraceConf,
    requests: &Requests,
    heard: &Heards,
    request: u64,
    moment: u64,
    start: &Started,
) -> bool
    ensures { result ≡ plain.is_silent_at conf.now request moment requests.now heard.now start.now }
{
    matches!(start.via, Via::Stream)
        && is_over(
            conf,
            moment,
            requests.start(request, start.server, Via::Stream),
        )
        && !is_heard(heard, request, start.server)
}

fn is_silent_among(
    conf: &TraceConf,
    requests: &Requests,
    heard: &Heards,
    request: u64,
    moment: u64,
    starts: &Newest<Started>,
) -> bool
    ensures { result ≡ plain.is_silent_among conf.now request moment requests.now heard.now starts.now }
{
    for start in starts {
        if is_silent_at(conf, requests, heard, request, moment, start) {
            return true;
        }
    }
    false
}

/// Whether by a moment the time of a request by stream passed since it was handed to a server so, and no message has come since.
pub fn is_stream_silent(
    conf: &TraceConf,
    requests: &Requests,
    heard: &Heards,
    request: u64,
    moment: u64,
) -> bool
    ensures { result ≡ plain.stream_is_silent conf.now request moment requests.now heard.now }
{
    match requests.starts.get(request) {
        None => false,
        Some(starts) => is_silent_among(conf, requests, heard, request, moment, starts),
    }
}

/// Whether the timeout of a request that was asked has passed at a moment.
fn is_past(askings: &NumberTable<Asked>, request: u64, timeout: Duration, moment: u64) -> bool
    ensures { result ≡ past_at timeout moment (entry_at request askings.now) }
{
    match askings.get(request) {
        None => false,
        Some(asked) => { u128::from(asked.moment) + timeout.as_micros() <= u128::from(moment) }
    }
}

/// Whether a request is overdue at a moment, by what was known before the row.
pub fn is_overdue(
    conf: &TraceConf,
    settings: &TraceSettings,
    past: &Books,
    heard: &Heards,
    request: u64,
    moment: u64,
) -> bool
    ensures value { result ≡ plain.is_overdue conf.now settings.now request moment past.now heard.now }
    ensures told { plain.TellsOverdue conf.now settings.now request moment past.now heard.now result }
{
    find_overdue(conf, settings, past, heard, request, moment)
}

fn find_overdue(
    conf: &TraceConf,
    settings: &TraceSettings,
    past: &Books,
    heard: &Heards,
    request: u64,
    moment: u64,
) -> bool
    ensures { result ≡ plain.is_overdue conf.now settings.now request moment past.now heard.now }
{
    is_past(&past.requests.askings, request, conf.timeout(), moment)
        || (!settings.defers_errors()
            && (are_tries_up(conf, past, past, request, moment)
                || is_stream_silent(conf, &past.requests, heard, request, moment)))
}
