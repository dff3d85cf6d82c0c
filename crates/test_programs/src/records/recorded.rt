//! A client that is recorded.

use client_core::{Client, Event, Settings};
use client_request::ListWords;
use dns_base::NoMemory;
use dns_record::{Ahead, Ended, Recorder};
use dns_script::{Script, read_script};
use dns_values::MemSink;
use std::alloc::Global;
use std::test::Fail;

/// What `examples/first.script` says, word for word, and the same with settings of transports.
const SCRIPTS: [&str; 2] = [
    "conf nameserver 192.0.2.53
words 4660
at 0 ask 000001000001000000000000076578616d706c6503636f6d0000010001 00000100 -
at 10 opened 0
at 20000 datagram 0 123481800001000100000000076578616d706c6503636f6d0000010001c00c00010001000000640004c0000201
",
    "conf nameserver 192.0.2.53
set dgram-udp-payload-size none
set dgram-read-timeout 100
words 4660
at 0 ask 000001000001000000000000076578616d706c6503636f6d0000010001 00000100 -
at 10 opened 0
at 20000 datagram 0 123481800001000100000000076578616d706c6503636f6d0000010001c00c00010001000000640004c0000201
",
];

/// The one word of the script.
const AHEAD: Ahead = Ahead { count: 1, few: 0 };

/// A client takes these events, while it is recorded.
fn take(
    recorder: &mut Recorder,
    client: &mut Client,
    words: &mut ListWords,
    sink: &mut MemSink,
    events: Vec<Event>,
) -> Result<(), Fail> {
    for event in events {
        let _row = recorder.step(client, words, sink, event)?;
    }
    Ok(())
}

/// The text that is recorded of a client that takes the events of a script.
fn recorded(alloc: Global, script: Script, sink: &mut MemSink) -> Result<Option<Ended>, Fail> {
    let Script {
        conf,
        redundant,
        cache,
        transports,
        words,
        lanes,
    } = script;
    let settings = Settings {
        redundant,
        cache,
        transports,
    };
    let mut words = ListWords::new(words);
    let begun = Recorder::with_settings(alloc, &conf, &settings, &mut words, AHEAD, sink);
    let mut recorder = begun.map_err(|_| NoMemory)?;
    let mut client = Client::with_settings(alloc, &conf, settings, 0)?;
    for lane in lanes.into_vec() {
        take(
            &mut recorder,
            &mut client,
            &mut words,
            sink,
            lane.into_vec(),
        )?;
    }
    Ok(recorder.ended())
}

/// Whether a script is what is recorded of it.
fn is_recorded_so(alloc: Global, text: &str) -> Result<bool, Fail> {
    let script = read_script(alloc, text.as_bytes(), false)?;
    let mut sink = MemSink::new(alloc, Vec::new(alloc), Vec::new(alloc));
    let ended = recorded(alloc, script, &mut sink)?;
    Ok(ended.is_none() && sink.as_slice() == text.as_bytes())
}

#[test]
fn what_is_recorded_is_the_script(rt: HostRuntime) -> Result<(), Fail> {
    for text in SCRIPTS.iter() {
        assert!(rt; is_recorded_so(rt.alloc(), text)?);
    }
    Ok(())
}
