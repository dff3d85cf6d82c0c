//! Three requests over two slots of a connection by datagrams, and what it answers once it found no memory. What it does in that run
//! stands in the stored run of `tool_transports`.
//!
//! `tests/fail_alloc.sh dgram` runs this test with one allocation failing.

use client_dgram::{Config, Connection, Request};
use client_request::{
    Board, Cx, Error, Event, Events, Fault, ListWords, Moment, Outs, RequestMessage, SendRequest,
    Signal, TimerId, Timers, What, WordList,
};
use dns_base::{Message, NoMemory, Octets};
use std::alloc::Global;

/// A query for the address of example.com.
const QUERY: [u8; 29] = [
    0, 0, 1, 0, 0, 1, 0, 0, 0, 0, 0, 0, 7, 101, 120, 97, 109, 112, 108, 101, 3, 99, 111, 109, 0, 0,
    1, 0, 1,
];

/// An answer to it under the second word, which is an error alone.
const ANSWER: [u8; 12] = [0, 8, 0x81, 0x82, 0, 0, 0, 0, 0, 0, 0, 0];

/// What is lent to a connection.
struct Lent {
    words: ListWords,
    outs: Outs,
    board: Board,
    timers: Timers,
}

impl Drop for Lent {
    fn drop(self) {
        let Lent {
            words: _,
            outs: _,
            board: _,
            timers: _,
        } = self;
    }
}

/// What the run needs, and two more requests. All of it is made before the run, so that only the connection and what is lent to it
/// take memory there.
struct Supplies {
    events: Events,
    lent: Lent,
    /// Five requests, of which the run takes the last three.
    requests: Vec<RequestMessage>,
}

impl Drop for Supplies {
    fn drop(self) {
        let Supplies {
            events: _,
            lent: _,
            requests: _,
        } = self;
    }
}

fn push(events: &mut Events, moment: u64, what: What) -> Option<()> {
    let moment = Moment(moment);
    events.push(Event { moment, what }).ok()
}

fn send_failed(place: u64) -> What {
    let fault = Fault::Broken;
    What::SendFailed { place, fault }
}

fn open_failed(place: u64) -> What {
    let fault = Fault::Refused;
    What::OpenFailed { place, fault }
}

/// A send fails, an answer comes, and the last place does not open.
fn events(alloc: Global) -> Option<Events> {
    let octets = Octets::from_slice(alloc, &ANSWER).ok()?;
    let mut events = Events::new(alloc);
    push(&mut events, 10, What::Opened { place: 0 })?;
    push(&mut events, 10, What::Opened { place: 1 })?;
    push(&mut events, 20, send_failed(0))?;
    push(&mut events, 30, What::Opened { place: 2 })?;
    push(&mut events, 40, What::Datagram { place: 1, octets })?;
    push(&mut events, 5_000_030, What::Tick)?;
    push(&mut events, 5_000_040, open_failed(3))?;
    Some(events)
}

fn request(alloc: Global) -> Option<RequestMessage> {
    let octets = Octets::from_slice(alloc, &QUERY).ok()?;
    let message = Message::from_octets(octets).ok()?;
    RequestMessage::new(alloc, message).ok()
}

fn requests(alloc: Global) -> Option<Vec<RequestMessage>> {
    let mut requests = Vec::new(alloc);
    for _ in 0..5 {
        requests.push(request(alloc)?).ok()?;
    }
    Some(requests)
}

fn words(alloc: Global) -> Option<WordList> {
    let mut words = WordList::new(alloc);
    for word in [7, 8, 9] {
        words.push(word).ok()?;
    }
    Some(words)
}

fn lend(alloc: Global) -> Option<Lent> {
    let words = ListWords::new(words(alloc)?);
    Some(Lent {
        words,
        outs: Outs::new(alloc),
        board: Board::new(alloc),
        timers: Timers::new(alloc),
    })
}

fn supplied(alloc: Global) -> Option<Supplies> {
    let requests = requests(alloc)?;
    let events = events(alloc)?;
    let lent = lend(alloc)?;
    Some(Supplies {
        events,
        lent,
        requests,
    })
}

fn cx_of(lent: &mut Lent) -> Cx<'_, ListWords> {
    Cx {
        now: Moment(0),
        words: &mut lent.words,
        outs: &mut lent.outs,
        board: &mut lent.board,
        timers: &mut lent.timers,
        ticket: 0,
        place: 0,
        request: 0,
        more: false,
    }
}

fn connection(alloc: Global) -> Result<Connection<RequestMessage>, NoMemory> {
    let mut config = Config::new();
    config.set_max_parallel(2);
    config.set_max_retries(1);
    Connection::with_config(alloc, 0, config)
}

/// Asks with the last of these requests.
fn ask_next(
    connection: &mut Connection<RequestMessage>,
    cx: &mut Cx<'_, ListWords>,
    requests: &mut Vec<RequestMessage>,
) -> Result<Request, Error> {
    cx.request = cx.ticket;
    match requests.pop() {
        Some(request) => connection.send_request(cx, request),
        None => Err(Error::AlreadyDone),
    }
}

fn ask_three(
    connection: &mut Connection<RequestMessage>,
    cx: &mut Cx<'_, ListWords>,
    requests: &mut Vec<RequestMessage>,
) -> Result<(), Error> {
    for _ in 0..3 {
        let _ = ask_next(connection, cx, requests)?;
    }
    Ok(())
}

/// Tells what happens: a timer that is due fires first.
fn tell(
    connection: &mut Connection<RequestMessage>,
    cx: &mut Cx<'_, ListWords>,
    event: &Event,
) -> Result<(), Error> {
    cx.now = event.moment;
    if let Some(timer) = cx.timers.fire(event.moment) {
        connection.step(cx, Signal::Due(timer))?;
    }
    connection.step(cx, Signal::Told(&event.what))
}

/// Three requests hear these events.
fn run(
    connection: &mut Connection<RequestMessage>,
    cx: &mut Cx<'_, ListWords>,
    requests: &mut Vec<RequestMessage>,
    events: &Events,
) -> Result<(), Error> {
    ask_three(connection, cx, requests)?;
    for event in events.as_slice() {
        tell(connection, cx, event)?;
    }
    Ok(())
}

/// How much was put out, stands on the board and is set, and the next numbers.
fn seen(cx: &Cx<'_, ListWords>) -> (usize, usize, usize, u64, u64) {
    (
        cx.outs.len(),
        cx.board.len(),
        cx.timers.len(),
        cx.ticket,
        cx.place,
    )
}

/// Whether each of these events is answered with `Failed`.
fn hears_nothing(
    connection: &mut Connection<RequestMessage>,
    cx: &mut Cx<'_, ListWords>,
    events: &Events,
) -> bool {
    let mut stays = true;
    for event in events.as_slice() {
        stays &= connection.step(cx, Signal::Told(&event.what)) == Err(Error::Failed);
    }
    stays
}

/// Whether a further request, a timer and giving a request up are answered with `Failed`.
fn refuses(
    connection: &mut Connection<RequestMessage>,
    cx: &mut Cx<'_, ListWords>,
    late: RequestMessage,
    response: Request,
) -> bool {
    let given_up = connection.cancel(cx, response);
    let fired = connection.step(cx, Signal::Due(TimerId(0)));
    let asked = connection.send_request(cx, late).err();
    given_up == Err(Error::Failed) && fired == Err(Error::Failed) && asked == Some(Error::Failed)
}

/// Whether each further call answers `Failed` and changes nothing of what is lent.
fn stays_failed(
    connection: &mut Connection<RequestMessage>,
    cx: &mut Cx<'_, ListWords>,
    requests: &mut Vec<RequestMessage>,
    events: &Events,
) -> bool {
    let before = seen(cx);
    let Some(late) = requests.pop() else {
        return false;
    };
    let refused = refuses(connection, cx, late, Request::new(0));
    hears_nothing(connection, cx, events) && refused && seen(cx) == before
}

/// Whether the run has its three results, or the connection found no memory and answers `Failed` from then on.
fn goes(alloc: Global, supplies: &mut Supplies) -> bool {
    let Supplies {
        events,
        lent,
        requests,
    } = supplies;
    let Ok(mut connection) = connection(alloc) else {
        return true;
    };
    let mut cx = cx_of(lent);
    match run(&mut connection, &mut cx, requests, events) {
        Ok(()) => cx.outs.len() == 10 && cx.board.len() == 3,
        Err(Error::NoMemory) => stays_failed(&mut connection, &mut cx, requests, events),
        Err(_) => false,
    }
}

#[test]
fn a_connection_that_found_no_memory_answers_failed(rt: HostRuntime) {
    if let Some(mut supplies) = supplied(rt.alloc()) {
        assert!(rt; goes(rt.alloc(), &mut supplies));
    }
}
