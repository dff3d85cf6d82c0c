//! What walks are made in: the system's sockets, and standard output.

ghost use Rattle.std.specs.Prelude.{None};

use client_core::{Client, Clock, Settings, Transports, cache};
use client_edge::{RandWords, RealClock, SocketEdge};
use client_loop::{ask, learn_all};
use client_request::Error;
use command_parts::{deliver, statuses};
use dns_base::{IpAddr, Message, Name, NoMemory, Seq, SocketAddr};
use dns_lookup_pages::{json_text, message_text, short_text};
use dns_lookup_run::{announced, document, query_text, request_by};
use dns_lookup_walk::{NameServer, Verdict, World, received_line, silent_line};
use dns_lookup_words::{Family, Layout, Lookup, Manner};
use dns_values::{Status, StdSink};
use rand::rngs::StdRng;
use resolv_conf::{ResolvConf, ServerConf, Servers, Transport};
use resolver_policy::practical_choice;
use std::alloc::Global;
use std::io::Stdout;
use stub_resolver::StubResolver;

/// The port of the DNS (RFC 1035 4.2).
const DNS_PORT: u16 = 53;

type HostResolver = StubResolver<
    SocketEdge<HostRuntime>,
    RealClock<HostRuntime>,
    RandWords<StdRng>,
>;

/// What a question came to.
type SoleReply = Option<Result<Message, Error>>;

/// The system's sockets, by which servers are asked, and standard output, to which what they say is written.
#[derive(Drop)]
pub struct SocketWorld<'a> {
    rt: HostRuntime,
    /// The port, the family, the payload size and the way of asking that the words say.
    lookup: &'a Lookup,
    /// The servers that are given, and how any server is asked.
    conf: &'a ResolvConf,
    manner: Manner,
    random: &'a mut RandWords<StdRng>,
    sink: StdSink<Stdout>,
    /// What is written of the last question, and then of what came of it.
    text: String,
    /// How long it took, in microseconds.
    micros: u64,
    /// Why no message came of it, if an error says so.
    error: Option<Error>,
    /// What writing came to.
    status: Status,
}

/// Whether an address is of a family, if one is said.
fn is_of_family(family: Option<Family>, ip: IpAddr) -> bool {
    match (family, ip) {
        (None, _) => true,
        (Some(Family::V4), IpAddr::V4(_)) => true,
        (Some(Family::V6), IpAddr::V6(_)) => true,
        _ => false,
    }
}

/// Whether a message is written with lines of comments around it.
fn has_comments(layout: Layout) -> bool {
    !(layout.short || layout.json || layout.yaml)
}

impl<'a> SocketWorld<'a> {
    /// A world in which nothing was asked yet.
    pub fn new(
        rt: HostRuntime,
        lookup: &'a Lookup,
        conf: &'a ResolvConf,
        manner: Manner,
        random: &'a mut RandWords<StdRng>,
    ) -> SocketWorld<'a> {
        SocketWorld {
            rt,
            lookup,
            conf,
            manner,
            random,
            sink: StdSink::new(rt.stdout()),
            text: String::new(rt.alloc()),
            micros: 0,
            error: None,
            status: statuses::DONE,
        }
    }

    /// What writing came to.
    pub fn status(&self) -> Status {
        self.status
    }

    /// The port at which servers are asked.
    fn port(&self) -> u16 {
        self.lookup.port.unwrap_or(DNS_PORT)
    }

    /// The configuration of one server alone.
    fn conf_of(&self, ip: IpAddr) -> Result<ResolvConf, NoMemory> {
        let alloc = self.rt.alloc();
        let addr = SocketAddr {
            ip,
            port: self.port(),
        };
        let mut servers = Servers::new(alloc);
        servers.push(ServerConf::new(addr, Transport::UdpTcp))?;
        let options = self.conf.options.try_clone(alloc)?;
        Ok(ResolvConf { servers, options })
    }

    /// How the client is set that asks one server, which is named once: its transports ask it again.
    fn settings(&self) -> Settings {
        Settings {
            redundant: practical_choice(),
            cache: cache::Config::new(),
            transports: announced(self.lookup.announced, Transports::new()),
        }
    }

    /// Asks one server what a message asks, by sockets of its own.
    fn reply_of(&mut self, ip: IpAddr, question: &Message) -> Result<SoleReply, Error> {
        let rt = self.rt;
        let alloc = rt.alloc();
        let conf = self.conf_of(ip)?;
        let request = request_by(alloc, self.manner.flags, question.try_clone()?)?;
        let mut edge = SocketEdge::new(rt, alloc);
        learn_all(&mut edge, conf.servers.as_slice())?;
        let mut client = Client::with_settings(alloc, &conf, self.settings(), 0)?;
        let mut clock = RealClock::new(rt);
        let before = clock.now().0;
        let number = client.next_request();
        let reply = ask(
            &mut client,
            &mut edge,
            &mut clock,
            self.random,
            number,
            request,
        )?;
        self.micros = clock.now().0.saturating_sub(before);
        Ok(reply)
    }

    /// What is written of a message.
    fn page(&self, message: &Message, server: &NameServer) -> Result<String, NoMemory> {
        let alloc = self.rt.alloc();
        let layout = self.manner.layout;
        let ip = server.ip;
        if layout.json {
            return json_text(alloc, message);
        }
        if layout.yaml {
            let port = self.port();
            let source = format!(in alloc;
                "    response_address: \"{ip}\"\n    response_port: {port}\n"
            )?;
            return document(alloc, layout, message, source.as_str());
        }
        if !layout.short {
            return message_text(alloc, layout, message);
        }
        if !layout.identify {
            return short_text(alloc, layout, message, "");
        }
        let millis = self.micros / 1000;
        let behind = format!(in alloc; " from server {ip} in {millis} ms.")?;
        short_text(alloc, layout, message, behind.as_str())
    }

    /// What is written of a question, before what comes of it.
    fn question_text(&self, question: &Message) -> Result<String, NoMemory> {
        let alloc = self.rt.alloc();
        let layout = self.manner.layout;
        if has_comments(layout) {
            query_text(alloc, layout, question)
        } else {
            Ok(String::new(alloc))
        }
    }

    /// What is written of a message that came, why another server is asked, if so, and whence it came.
    fn heard(
        &self,
        server: &NameServer,
        message: &Message,
        verdict: &Verdict,
    ) -> Result<String, NoMemory> {
        let alloc = self.rt.alloc();
        let layout = self.manner.layout;
        let mut text = self.page(message, server)?;
        if !has_comments(layout) {
            return Ok(text);
        }
        if let Verdict::Fails(failure) = verdict {
            let line = format!(in alloc; ";; {failure}\n")?;
            text.push_str(line.as_str())?;
        }
        if layout.identify || layout.stats {
            let octets = message.as_slice().len();
            let line = received_line(alloc, octets, self.port(), server, self.micros / 1000)?;
            text.push_str(line.as_str())?;
            text.push('\n')?;
        }
        Ok(text)
    }

    /// What is written where no message came.
    fn unheard(&self, server: &NameServer) -> Result<String, NoMemory> {
        let alloc = self.rt.alloc();
        let layout = self.manner.layout;
        if !has_comments(layout) || !is_of_family(self.lookup.family, server.ip) {
            return Ok(String::new(alloc));
        }
        match self.error {
            Some(error) => {
                let why = error.to_string(alloc)?;
                silent_line(alloc, self.port(), server, why.as_str())
            }
            None => silent_line(alloc, self.port(), server, "no answer came"),
        }
    }
}

impl World for SocketWorld<'_> {
    ghost deeds = { λ _. None };

    fn ask(
        &mut self,
        server: &NameServer,
        question: &Message,
    ) -> Result<Option<Message>, NoMemory> {
        self.error = None;
        self.text = String::new(self.rt.alloc());
        if !is_of_family(self.lookup.family, server.ip) {
            return Ok(None);
        }
        self.text = self.question_text(question)?;
        match self.reply_of(server.ip, question) {
            Ok(Some(Ok(message))) => Ok(Some(message)),
            Ok(Some(Err(error))) => {
                self.error = Some(error);
                Ok(None)
            }
            Ok(None) => Ok(None),
            Err(Error::NoMemory) => Err(NoMemory),
            Err(error) => {
                self.error = Some(error);
                Ok(None)
            }
        }
    }

    fn look_up(&mut self, name: &Name) -> Result<Seq<IpAddr>, NoMemory> {
        let rt = self.rt;
        let alloc = rt.alloc();
        let mut addresses = Seq::new(alloc);
        let conf = self.conf.try_clone(alloc)?;
        let Ok(generator) = rand::make_rng::<StdRng, _>(&rt) else {
            return Ok(addresses);
        };
        let edge = SocketEdge::new(rt, alloc);
        let words = RandWords::new(generator);
        let Ok(mut resolver) = HostResolver::from_conf(alloc, conf, edge, RealClock::new(rt), words)
        else {
            return Err(NoMemory);
        };
        if let Ok(found) = resolver.lookup_host(alloc, name) {
            for ip in found.iter() {
                addresses.push(ip)?;
            }
        }
        Ok(addresses)
    }

    fn tell(
        &mut self,
        server: &NameServer,
        came: &Option<Message>,
        verdict: &Verdict,
    ) -> Result<(), NoMemory> {
        let said = match came {
            Some(message) => self.heard(server, message, verdict)?,
            None => self.unheard(server)?,
        };
        self.text.push_str(said.as_str())?;
        let status = deliver(&mut self.sink, self.text.as_bytes());
        if status != statuses::DONE {
            self.status = status;
        }
        Ok(())
    }
}
