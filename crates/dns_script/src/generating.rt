//! A script that is made for measures: fifty hosts are asked for in turn, again and again.

ghost use Rattle.std.specs.Prelude.{◌≡◌, ◌++◌, ◌+◌, ◌*◌, ◌≤◌, ◌<◌, [], ◌∷◌, IfOk, OnOk};
ghost use Rattle.dns_script.specs.Generated.{after, answer_places, answered, by_datagram, by_stream, generated, generated_conf, host_answer, host_of, is_asked, with_turn};

use crate::hosts::{HOSTS, frame, host_answer, host_request, truncated_answer};
use crate::script::{Lanes, Script};
use client_request::{Event, Events, Moment, What, WordList};
use client_settings::{Transports, cache, redundant};
use dns_base::{IpAddr, NoMemory, Octets, SocketAddr};
use resolv_conf::{ResolvConf, ServerConf, Transport};
use std::alloc::Global;

/// Turns for each that is asked for: four rounds of hosts.
const TURNS: u64 = 200;

/// What the turns so far add to a script.
#[derive(Drop)]
pub(crate) struct Turns {
    /// The next free place.
    pub place: u64,
    /// The words to draw.
    pub words: WordList,
    /// What happens.
    pub events: Events,
}

/// Whether the server is asked in a turn: in one of three rounds of hosts. Its answers are kept for the
/// other two.
fn is_asked(turn: u64) -> bool
    ensures { result ≡ is_asked turn }
{
    (turn / HOSTS) % 3 == 0
}

/// The host of a turn.
fn host_of(turn: u64) -> u8
    ensures host { result ≡ host_of turn }
    ensures few { result < 50 }
{
    (turn % HOSTS) as u8
}

impl Turns {
    /// Before the first turn.
    fn new(alloc: Global) -> Turns
        ensures { result ≡ record { place = 0; words = []; events = [] } }
    {
        Turns {
            place: 0,
            words: WordList::new(alloc),
            events: Events::new(alloc),
        }
    }

    /// Adds what comes so many microseconds after a turn began, which is a second after the one before.
    fn add(&mut self, turn: u64, later: u64, what: What) -> Result<(), NoMemory>
        requires in_time { turn < 200000 }
        requires soon { later < 1000000 }
        ensures { OnOk result (self.new ≡ record self.old { events = self.old.events ++ after turn later what ∷ [] }) }
    {
        let moment = Moment(1_000_000 * turn + later);
        self.events.push(Event { moment, what })
    }

    /// A datagram comes at the next place.
    fn datagram(&mut self, turn: u64, message: Vec<u8>) -> Result<(), NoMemory>
        requires in_time { turn < 200000 }
        requires free { self.old.place ≤ 400000 }
        ensures { OnOk result (self.new ≡ record self.old { place = self.old.place + 1; events = self.old.events ++ by_datagram turn self.old.place message.items }) }
    {
        let place = self.place;
        self.place += 1;
        self.add(turn, 10_000, What::Opened { place })?;
        let octets = Octets::from_vec(message)?;
        self.add(turn, 20_000, What::Datagram { place, octets })
    }

    /// The answer for the first host comes by stream, at the next place.
    #[tactic(auto, using(crate::proofs::HostTexts::first_answer_fits))]
    fn stream(&mut self, alloc: Global, turn: u64) -> Result<(), NoMemory>
        requires in_time { turn < 200000 }
        requires free { self.old.place ≤ 400001 }
        ensures { OnOk result (self.new ≡ record self.old { place = self.old.place + 1; events = self.old.events ++ by_stream turn self.old.place (host_answer 0 0) }) }
    {
        let place = self.place;
        self.place += 1;
        self.add(turn, 30_000, What::Opened { place })?;
        let count = 65_537;
        self.add(turn, 40_000, What::Wrote { place, count })?;
        let octets = Octets::from_vec(frame(alloc, &host_answer(alloc, 0, 0)?)?)?;
        self.add(turn, 50_000, What::Bytes { place, octets })
    }

    /// The server answers, for the first host by stream.
    fn answer(&mut self, alloc: Global, turn: u64) -> Result<(), NoMemory>
        requires in_time { turn < 200000 }
        requires free { self.old.place ≤ 400000 }
        ensures { OnOk result (self.new ≡ record self.old { place = self.old.place + answer_places turn; events = self.old.events ++ answered turn self.old.place }) }
    {
        let id = (turn % 65_536) as u16;
        let host = host_of(turn);
        if host != 0 {
            return self.datagram(turn, host_answer(alloc, id, host)?);
        }
        self.datagram(turn, truncated_answer(alloc, id, 0)?)?;
        self.stream(alloc, turn)
    }

    /// Adds a turn: a host is asked for, and where the server is asked, it answers.
    fn turn(&mut self, alloc: Global, turn: u64) -> Result<(), NoMemory>
        requires in_time { turn < 200000 }
        requires free { self.old.place ≤ 400000 }
        ensures { OnOk result (self.new ≡ with_turn turn self.old) }
    {
        let request = host_request(alloc, host_of(turn))?;
        self.add(turn, 0, What::Ask { request })?;
        if is_asked(turn) {
            self.words.push(turn)?;
            self.answer(alloc, turn)?;
        }
        Ok(())
    }
}

/// The configuration of a generated script: one server, at 192.0.2.53.
fn generated_conf(alloc: Global) -> Result<ResolvConf, NoMemory>
    ensures { IfOk result (λ conf. conf ≡ generated_conf) }
{
    let addr = SocketAddr {
        ip: IpAddr::V4([192, 0, 2, 53]),
        port: 53,
    };
    let mut conf = ResolvConf::new(alloc);
    conf.servers.push(ServerConf::new(addr, Transport::UdpTcp))?;
    Ok(conf)
}

/// A script in which fifty hosts are asked for in turn, one a second, 200 times for each of `n`. The server
/// answers every third time that a host is asked for, and for the first host by stream; the cache is to
/// give the other results.
#[tactic(auto, using(crate::proofs::Turning::free_place))]
pub fn generate(alloc: Global, n: u32) -> Result<Script, NoMemory>
    requires some { 1 ≤ n }
    requires few { n ≤ 1000 }
    ensures { IfOk result (λ script. script ≡ generated n) }
{
    let conf = generated_conf(alloc)?;
    let mut turns = Turns::new(alloc);
    for turn in 0..TURNS * n as u64 {
        turns.turn(alloc, turn)?;
    }
    let mut lanes = Lanes::new(alloc);
    lanes.push(turns.events)?;
    Ok(Script {
        conf,
        redundant: redundant::Config::new(),
        cache: cache::Config::new(),
        transports: Transports::new(),
        words: turns.words,
        lanes,
    })
}
