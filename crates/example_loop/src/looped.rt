//! Two questions in a loop over a UDP socket: step, do each out, sleep until `next_due`.
//!
//! The server is a socket of this program too. It answers the first question; the other one's time runs out.

use crate::asking::{conf_of, question, words};
use crate::line::Line;
use crate::outs::show_end;
use crate::trouble::Trouble;
use client_core::{Client, Event, Out};
use client_request::ListWords;
use client_settings::{cache, redundant};
use dns_base::Duration;
use std::alloc::Global;

/// A client, and the words that it draws.
struct Asker {
    client: Client,
    words: ListWords,
}

impl Drop for Asker {
    fn drop(self) {
        let Asker {
            client: _,
            words: _,
        } = self;
    }
}

impl Asker {
    /// A client of a server that is given 0.3 seconds for a request.
    fn new(alloc: Global) -> Result<Asker, Trouble> {
        let words = words(alloc)?;
        let mut conf = conf_of(alloc, [127, 0, 0, 1])?;
        conf.options.timeout = Duration::from_millis(300);
        let client = Client::new(alloc, &conf, redundant::Config::new(), cache::Config::new())?;
        Ok(Asker { client, words })
    }
}

/// Does what an out asks for.
fn act(rt: HostRuntime, line: &mut Line, out: &Out) -> Result<(), Trouble> {
    match out {
        Out::OpenDgram { place, .. } => line.open(&rt, *place),
        Out::Send { octets, .. } => line.send(octets.as_slice()),
        Out::Close { .. } => line.close(),
        Out::Reply { request, result } => show_end(&rt, *request, result),
        _ => Ok(()),
    }
}

/// Steps the client, and does each out.
fn step(rt: HostRuntime, asker: &mut Asker, line: &mut Line, event: Event) -> Result<(), Trouble> {
    let row = asker.client.step(&mut asker.words, event)?;
    for out in row.outs.as_slice() {
        act(rt, line, out)?;
    }
    Ok(())
}

/// Asks for a name, and tells the client what happens until nothing is due any more.
fn ask(rt: HostRuntime, asker: &mut Asker, line: &mut Line, name: &str) -> Result<(), Trouble> {
    let mut what = question(rt.alloc(), name)?;
    for _ in 0..100u32 {
        let moment = line.moment(&rt)?;
        step(rt, asker, line, Event { moment, what })?;
        let Some(due) = asker.client.next_due() else {
            break;
        };
        what = line.wait(rt.alloc(), due.saturating_sub(u128::from(moment.0)))?;
    }
    Ok(())
}

pub(crate) fn run(rt: HostRuntime) -> Result<(), Trouble> {
    let mut asker = Asker::new(rt.alloc())?;
    let mut line = Line::new(&rt)?;
    ask(rt, &mut asker, &mut line, "example.com")?;
    ask(rt, &mut asker, &mut line, "example.org")
}
