//! Messages that came for requests and match them, by request.

ghost use Rattle.std.specs.Prelude.{◌≡◌, ◌++◌, IfOk, OnOk, not};
ghost use Rattle.right_trace.specs.Trace.{Conf};
ghost use Rattle.number_table.specs.Entries.{entry_at};
ghost use Rattle.trace_errors.specs.promptness.Prompt.{matches, is_stream, excused_in};
ghost use Rattle.trace_replies.specs.firsts.Firsts as plain;

use client_request::Via;
use dns_base::{Message, NoMemory, Seq};
use number_table::NumberTable;
use std::alloc::Global;
use trace_errors::promptness::is_passed_over;
use trace_points::due::Timers;
use trace_points::exchanges::Coming;
use trace_points::questions::TraceConf;
use trace_tables::frames::{Here, Ledger};
use trace_tables::{Newest, Place, add};

/// A message that came for a request and matches it.
pub struct Arrived {
    pub message: Message,
    /// Whether it was not to be passed over.
    pub counts: bool,
    /// Whether no other that counts came in a row before its own.
    pub first: bool,
}

impl Drop for Arrived {
    fn drop(self) {
        let Arrived {
            message: _,
            counts: _,
            first: _,
        } = self;
    }
}

/// One that came in a row, and for whom.
struct News {
    request: u64,
    arrived: Arrived,
}

impl Drop for News {
    fn drop(self) {
        let News {
            request: _,
            arrived: _,
        } = self;
    }
}

/// The messages, by request.
pub type Firsts = NumberTable<Newest<Arrived>>;

fn some_counts(arrived: &Newest<Arrived>) -> bool
    ensures { result ≡ plain.some_counts arrived.now }
{
    for one in arrived {
        if one.counts {
            return true;
        }
    }
    false
}

/// Whether a message came for a request that was not to be passed over.
pub(crate) fn is_counted(firsts: &Firsts, request: u64) -> bool
    ensures { result ≡ plain.counted request firsts.now }
{
    match firsts.get(request) {
        None => false,
        Some(arrived) => some_counts(arrived),
    }
}

/// Whether one of these is a message.
fn some_is(message: &Message, arrived: &Newest<Arrived>) -> bool
    ensures { result ≡ plain.some_is message.now arrived.now }
{
    for one in arrived {
        if one.message.as_slice() == message.as_slice() {
            return true;
        }
    }
    false
}

/// Whether one of these is, and was the first.
fn some_first(message: &Message, arrived: &Newest<Arrived>) -> bool
    ensures { result ≡ plain.some_first message.now arrived.now }
{
    for one in arrived {
        if one.first && one.message.as_slice() == message.as_slice() {
            return true;
        }
    }
    false
}

/// Whether a message answers its request and, if it is a datagram, has TC clear.
pub(crate) fn matches(coming: &Coming) -> bool
    ensures { result ≡ matches coming.now }
{
    coming.agrees
        && match coming.via {
            Via::Dgram => !coming.message.header().tc(),
            Via::Stream => true,
        }
}

/// Whether a place is a stream.
fn is_stream(places: &NumberTable<Place>, place: u64) -> bool
    ensures { result ≡ is_stream (entry_at place places.now) }
{
    match places.get(place) {
        None => false,
        Some(place) => matches!(place.via, Via::Stream),
    }
}

/// Whether what came in the row may be passed over.
fn is_excused(
    conf: &TraceConf,
    past: &Ledger,
    timers: &Timers,
    ledger: &Ledger,
    here: &Here,
) -> bool
    ensures { result ≡ excused_in conf.now ledger.now.frames.brought ledger.now.books.requests.clock past.now timers.now ledger.now here.now }
{
    match &ledger.frames.brought {
        None => false,
        Some(brought) => {
            let moment = ledger.books.requests.clock;
            is_passed_over(conf, past, timers, here, brought.place, moment)
                && is_stream(&ledger.books.places, brought.place)
        }
    }
}

/// A message that came, over what came before.
fn news_of(firsts: &Firsts, counts: bool, coming: &Coming) -> Result<News, NoMemory>
    ensures { IfOk result (λ news. news ≡ plain.news_of counts firsts.now coming.now) }
{
    let message = coming.message.try_clone()?;
    Ok(News {
        request: coming.request,
        arrived: Arrived {
            message,
            counts,
            first: !is_counted(firsts, coming.request),
        },
    })
}

/// All that came and match, over what came before.
fn all_news(
    alloc: Global,
    firsts: &Firsts,
    counts: bool,
    comings: &[Coming],
) -> Result<Seq<News>, NoMemory>
    ensures { IfOk result (λ news. news ≡ plain.all_news counts firsts.now comings.now) }
{
    let mut news = Seq::new(alloc);
    for coming in comings {
        if matches(coming) {
            news.push(news_of(firsts, counts, coming)?)?;
        }
    }
    Ok(news)
}

fn copy_of(arrived: &Arrived) -> Result<Arrived, NoMemory>
    ensures { IfOk result (λ copy. copy ≡ arrived.now) }
{
    let message = arrived.message.try_clone()?;
    Ok(Arrived {
        message,
        ..*arrived
    })
}

fn add_all(firsts: &mut Firsts, alloc: Global, news: &[News]) -> Result<(), NoMemory>
    ensures { OnOk result (firsts.new ≡ plain.add_all news.now firsts.old) }
{
    for one in news {
        add(firsts, alloc, one.request, copy_of(&one.arrived)?)?;
    }
    Ok(())
}

/// A row is done, in which these messages came: `past` and `timers` are what was known before it, `ledger` what is known behind
/// it, and `here` what its outs made of places.
pub fn note_arrivals(
    conf: &TraceConf,
    firsts: &mut Firsts,
    past: &Ledger,
    timers: &Timers,
    ledger: &Ledger,
    here: &Here,
    comings: &[Coming],
) -> Result<(), NoMemory>
    ensures { OnOk result (firsts.new ≡ plain.after_row (excused_in conf.now ledger.now.frames.brought ledger.now.books.requests.clock past.now timers.now ledger.now here.now) comings.now firsts.old) }
{
    let counts = !is_excused(conf, past, timers, ledger, here);
    let news = all_news(conf.alloc(), firsts, counts, comings)?;
    add_all(firsts, conf.alloc(), news.as_slice())
}

fn find_earlier(firsts: &Firsts, request: u64, message: &Message) -> bool
    ensures { result ≡ plain.earlier_seen request message.now firsts.now }
{
    match firsts.get(request) {
        None => false,
        Some(arrived) => some_is(message, arrived),
    }
}

fn find_first(firsts: &Firsts, request: u64, message: &Message, came: bool) -> bool
    ensures { result ≡ plain.first_seen request message.now came firsts.now }
{
    match firsts.get(request) {
        None => came,
        Some(arrived) => (came && !some_counts(arrived)) || some_first(message, arrived),
    }
}

/// Whether a message came for a request in a row before this one, and matches it.
pub fn came_earlier(firsts: &Firsts, request: u64, message: &Message) -> bool
    ensures value { result ≡ plain.earlier_seen request message.now firsts.now }
    ensures told { (c : Conf) → plain.TellsEarlier c request message.now firsts.now result }
{
    find_earlier(firsts, request, message)
}

/// Whether of all messages that came for a request and match it a message was the first, where it is known whether it came in
/// this row.
pub fn came_first(firsts: &Firsts, request: u64, message: &Message, came: bool) -> bool
    ensures value { result ≡ plain.first_seen request message.now came firsts.now }
    ensures told { (c : Conf) → plain.TellsFirst c request message.now came firsts.now result }
{
    find_first(firsts, request, message, came)
}
