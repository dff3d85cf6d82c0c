//! The configuration of which a trace is judged.

ghost use Rattle.std.specs.Prelude.{◌≡◌, length, nat_lt};
ghost use Rattle.right_trace.specs.Time.{idle_timeout, max_places, max_tries, read_timeout, recv_size, response_timeout, stream_timeout};
ghost use Rattle.trace_points.specs.questions.Configured.{conf_of};

use client_settings::Transports;
use dns_base::Duration;
use std::alloc::Global;
use std::marker::Model;

/// How a server is used.
#[derive(Clone, Copy, Debug, PartialEq, Eq)]
pub enum ServerUse {
    /// By datagrams, and by streams after a truncated answer.
    Datagrams,
    /// By streams alone.
    Streams,
}

/// The servers in order, the timeout of a request, and the settings of transports; and from where memory is taken to judge by
/// them.
#[derive(Drop)]
pub struct TraceConf {
    alloc: Global,
    servers: Vec<ServerUse>,
    timeout: Duration,
    transports: Transports,
}

impl Model for TraceConf {
    ghost use Rattle.right_trace.specs.Trace.{Conf};
    ghost use Rattle.trace_points.specs.questions.Configured.{conf_of};

    ghost Value = { Conf };

    ghost view = { λ c. conf_of c.servers.items c.timeout c.transports };
}

impl TraceConf {
    /// A configuration of these servers.
    pub fn new(
        alloc: Global,
        servers: Vec<ServerUse>,
        timeout: Duration,
        transports: Transports,
    ) -> TraceConf
        ensures { result ≡ conf_of servers.items timeout transports }
    {
        TraceConf {
            alloc,
            servers,
            timeout,
            transports,
        }
    }

    /// Whether a number is one of a server.
    pub fn has_server(&self, server: u32) -> bool
        ensures { result ≡ nat_lt server (length self.now.servers) }
    {
        (server as usize) < self.servers.len()
    }

    /// The timeout of a request.
    pub fn timeout(&self) -> Duration
        ensures { result ≡ self.now.timeout }
    {
        self.timeout
    }

    /// From where memory is taken.
    pub fn alloc(&self) -> Global {
        self.alloc
    }

    /// How many datagram places of a server are live at most.
    #[tactic(auto, using(crate::proofs::lemmas::questions::Numbers::places_are))]
    pub fn max_places(&self) -> usize
        ensures { result ≡ max_places self.now }
    {
        self.transports.are_limited();
        self.transports.dgram.max_parallel()
    }

    /// How often a request is sent to a server by datagram at most.
    #[tactic(auto, using(crate::proofs::lemmas::questions::Numbers::tries_are))]
    pub fn max_tries(&self) -> u16
        ensures { result ≡ max_tries self.now }
    {
        u16::from(self.transports.dgram.max_retries()) + 1
    }

    /// How many octets of a datagram are read.
    #[tactic(auto, using(crate::proofs::lemmas::questions::Numbers::size_is))]
    pub fn recv_size(&self) -> usize
        ensures { result ≡ recv_size self.now }
    {
        self.transports.dgram.recv_size()
    }

    /// The payload size that a datagram announces.
    #[tactic(auto, using(crate::proofs::lemmas::questions::Numbers::announced_is))]
    pub fn udp_payload_size(&self) -> Option<u16>
        ensures { result ≡ self.now.transports.dgram_udp_payload_size }
    {
        self.transports.are_limited();
        self.transports.dgram.udp_payload_size()
    }

    /// How long an answer by datagram is waited for.
    #[tactic(auto, using(crate::proofs::lemmas::questions::Numbers::read_is))]
    pub fn read_timeout(&self) -> Duration
        ensures { result ≡ read_timeout self.now }
    {
        self.transports.are_limited();
        self.transports.dgram.read_timeout()
    }

    /// How long a stream connection waits for a frame.
    #[tactic(auto, using(crate::proofs::lemmas::questions::Numbers::response_is))]
    pub fn response_timeout(&self) -> Duration
        ensures { result ≡ response_timeout self.now }
    {
        self.transports.are_limited();
        self.transports.multi_stream.stream().response_timeout()
    }

    /// How long a stream connection stays idle, unless its server says so (RFC 7766 6.2.3).
    #[tactic(auto, using(crate::proofs::lemmas::questions::Numbers::idle_is))]
    pub fn idle_timeout(&self) -> Duration
        ensures { result ≡ idle_timeout self.now }
    {
        self.transports.multi_stream.stream().idle_timeout()
    }

    /// How long a request by stream is waited for.
    #[tactic(auto, using(crate::proofs::lemmas::questions::Numbers::request_is))]
    pub fn stream_timeout(&self) -> Duration
        ensures { result ≡ stream_timeout self.now }
    {
        self.transports.are_limited();
        self.transports.multi_stream.response_timeout()
    }
}
