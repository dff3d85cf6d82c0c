//! A client that is recorded over an edge in memory, turn by turn.

use client_core::{
    Client, Event, ListClock, ListEdge, Moment, Rows, Settings, Trace, What, cache, redundant,
};
use client_request::{ListWords, RequestMessage, WordList};
use dns_base::{IpAddr, Message, NoMemory, Octets, SocketAddr};
use dns_record::{Ahead, Ended, Recorder, recorded_ask, recorded_turn};
use dns_script::{Script, read_script, trace_text};
use dns_values::MemSink;
use resolv_conf::{ResolvConf, ServerConf, Transport};
use std::alloc::Global;
use std::test::Fail;

/// Asks for the address of example.com, recursion desired.
const QUESTION: [u8; 29] = [
    0, 0, 1, 0, 0, 1, 0, 0, 0, 0, 0, 0, 7, 101, 120, 97, 109, 112, 108, 101, 3, 99, 111, 109, 0, 0,
    1, 0, 1,
];

/// The answer under the id 4660: 192.0.2.1.
const ANSWER: [u8; 45] = [
    0x12, 0x34, 0x81, 0x80, 0, 1, 0, 1, 0, 0, 0, 0, 7, 101, 120, 97, 109, 112, 108, 101, 3, 99,
    111, 109, 0, 0, 1, 0, 1, 0xc0, 12, 0, 1, 0, 1, 0, 0, 0, 100, 0, 4, 192, 0, 2, 1,
];

const MOMENTS: [Moment; 3] = [Moment(0), Moment(10), Moment(20_000)];

fn request(alloc: Global) -> Result<RequestMessage, Fail> {
    let message = Message::from_octets(Octets::from_slice(alloc, &QUESTION)?)?;
    Ok(RequestMessage::new(alloc, message)?)
}

fn conf(alloc: Global) -> Result<ResolvConf, NoMemory> {
    let mut conf = ResolvConf::new(alloc);
    let addr = SocketAddr {
        ip: IpAddr::V4([192, 0, 2, 53]),
        port: 53,
    };
    conf.servers.push(ServerConf::new(addr, Transport::UdpTcp))?;
    Ok(conf)
}

fn words(alloc: Global) -> Result<ListWords, NoMemory> {
    let mut words = WordList::new(alloc);
    for _ in 0..4u32 {
        words.push(4660)?;
    }
    Ok(ListWords::new(words))
}

fn clock(alloc: Global) -> Result<ListClock, Fail> {
    Ok(ListClock::new(Vec::from_slice(alloc, &MOMENTS)?))
}

/// That the first place is open, and then the answer's datagram.
fn answered(alloc: Global) -> Result<ListEdge, Fail> {
    let octets = Octets::from_slice(alloc, &ANSWER)?;
    let mut events = Vec::new(alloc);
    events.push(Some(What::Opened { place: 0 }))?;
    events.push(Some(What::Datagram { place: 0, octets }))?;
    Ok(ListEdge::new(alloc, events))
}

fn begun(
    alloc: Global,
    ahead: Ahead,
    words: &mut ListWords,
    sink: &mut MemSink,
) -> Result<(Client, Recorder), Fail> {
    let conf = conf(alloc)?;
    let (choice, cache) = (redundant::Config::new(), cache::Config::new());
    let begun = Recorder::begin(alloc, &conf, choice, &cache, words, ahead, sink);
    let recorder = begun.map_err(|_| NoMemory)?;
    let client = Client::new(alloc, &conf, choice, cache)?;
    Ok((client, recorder))
}

/// A client that is recorded, with what it is turned over.
#[derive(Drop)]
struct Recording {
    client: Client,
    recorder: Recorder,
    words: ListWords,
    edge: ListEdge,
    clock: ListClock,
}

fn edge_and_clock(alloc: Global) -> Result<(ListEdge, ListClock), Fail> {
    let edge = answered(alloc)?;
    Ok((edge, clock(alloc)?))
}

/// A client whose record has begun.
fn begun_recording(alloc: Global, sink: &mut MemSink) -> Result<Recording, Fail> {
    let mut words = words(alloc)?;
    let (client, recorder) = begun(alloc, Ahead { count: 3, few: 1 }, &mut words, sink)?;
    let (edge, clock) = edge_and_clock(alloc)?;
    Ok(Recording {
        client,
        recorder,
        words,
        edge,
        clock,
    })
}

/// It is asked by hand.
fn step(
    alloc: Global,
    scene: &mut Recording,
    sink: &mut MemSink,
    rows: &mut Rows,
) -> Result<(), Fail> {
    let event = Event {
        moment: Moment(0),
        what: What::Ask {
            request: request(alloc)?,
        },
    };
    rows.push(
        scene
            .recorder
            .step(&mut scene.client, &mut scene.words, sink, event)?,
    )?;
    Ok(())
}

/// It is turned once.
fn turn(scene: &mut Recording, sink: &mut MemSink, rows: &mut Rows) -> Result<(), Fail> {
    rows.push(recorded_turn(
        &mut scene.client,
        &mut scene.edge,
        &mut scene.clock,
        &mut scene.words,
        &mut scene.recorder,
        sink,
    )?)?;
    Ok(())
}

/// The trace of a client that is asked and then turned twice, while it is recorded.
fn live(alloc: Global, sink: &mut MemSink) -> Result<Vec<u8>, Fail> {
    let mut scene = begun_recording(alloc, sink)?;
    let mut rows = Rows::new(alloc);
    step(alloc, &mut scene, sink, &mut rows)?;
    for _ in 0..2u32 {
        turn(&mut scene, sink, &mut rows)?;
    }
    Ok(trace_text(alloc, &Trace { rows })?)
}

/// One client's answer to these events.
fn replay(
    client: &mut Client,
    words: &mut ListWords,
    events: Vec<Event>,
    rows: &mut Rows,
) -> Result<(), Fail> {
    for event in events {
        rows.push(client.step(words, event)?)?;
    }
    Ok(())
}

/// The trace of a replay of what was recorded.
fn replayed(alloc: Global, sink: &MemSink) -> Result<Vec<u8>, Fail> {
    let Script {
        conf,
        redundant,
        cache,
        transports,
        words,
        lanes,
    } = read_script(alloc, sink.as_slice(), false)?;
    let settings = Settings {
        redundant,
        cache,
        transports,
    };
    let mut client = Client::with_settings(alloc, &conf, settings, 0)?;
    let mut words = ListWords::new(words);
    let mut rows = Rows::new(alloc);
    for lane in lanes.into_vec() {
        replay(&mut client, &mut words, lane.into_vec(), &mut rows)?;
    }
    Ok(trace_text(alloc, &Trace { rows })?)
}

fn sink(alloc: Global) -> MemSink {
    MemSink::new(alloc, Vec::new(alloc), Vec::new(alloc))
}

#[test]
fn a_replay_is_what_was_put_out(rt: HostRuntime) -> Result<(), Fail> {
    let alloc = rt.alloc();
    let mut sink = sink(alloc);
    let put_out = live(alloc, &mut sink)?;
    let again = replayed(alloc, &sink)?;
    assert!(rt; put_out.as_slice() == again.as_slice() && put_out.len() > 400);
    Ok(())
}

/// Whether a lookup has the answer as its reply, and its record ended by a fault of the sink, with two events behind it.
fn is_answered(alloc: Global, sink: &mut MemSink) -> Result<bool, Fail> {
    let Recording {
        mut client,
        mut recorder,
        words: _,
        mut edge,
        mut clock,
    } = begun_recording(alloc, sink)?;
    let request = request(alloc)?;
    let reply = recorded_ask(
        &mut client,
        &mut edge,
        &mut clock,
        &mut recorder,
        sink,
        0,
        request,
    )?;
    let is_answer = match &reply {
        Some(Ok(message)) => message.as_slice() == ANSWER.as_slice(),
        _ => false,
    };
    Ok(is_answer && recorder.ended() == Some(Ended::SinkFailed) && recorder.lost() == 2)
}

/// A sink of which this write fails, counted from 0.
fn failing_sink(alloc: Global, write: u64) -> Result<MemSink, Fail> {
    let mut fails = Vec::new(alloc);
    fails.push(write)?;
    Ok(MemSink::new(alloc, fails, Vec::new(alloc)))
}

#[test]
fn a_lookup_goes_on_behind_the_end(rt: HostRuntime) -> Result<(), Fail> {
    let alloc = rt.alloc();
    // What stands before the first event is the first write, and the second event the third.
    let mut sink = failing_sink(alloc, 2)?;
    assert!(rt; is_answered(alloc, &mut sink)?);
    let again = replayed(alloc, &sink)?;
    assert!(rt; again.len() > 100);
    Ok(())
}
