//! The settings of a datagram transport.

ghost use Rattle.std.specs.Prelude.{◌≡◌, ◌<◌, Option, Some, Ok};
ghost use Rattle.std.specs.Ordering.{nat_cmp};
ghost use Rattle.client_request.specs.Limits.{limited};
ghost use Rattle.client_settings.specs.Dgram.{AreLimited, Settings, default_settings};

use client_request::DefMinMax;
use dns_base::{Duration, NoMemory};
use std::marker::Model;

/// How many requests may hold a slot at a time.
fn max_parallel_limits() -> DefMinMax<usize>
    ensures { result ≡ record { def = 100; min = 1; max = 1000 } }
{
    DefMinMax::new(100, 1, 1000)
}

/// How long a try waits for its answer, from the moment when it was sent.
fn read_timeout_limits() -> DefMinMax<Duration>
    ensures { result ≡ record { def = 5000000; min = 1000; max = 60000000 } }
{
    DefMinMax::new(
        Duration::from_secs(5),
        Duration::from_millis(1),
        Duration::from_secs(60),
    )
}

/// How many tries may follow the first.
fn max_retries_limits() -> DefMinMax<u8>
    ensures { result ≡ record { def = 5; min = 0; max = 100 } }
{
    DefMinMax::new(5, 0, 100)
}

/// The settings of a connection.
#[derive(Clone, Copy, Debug)]
pub struct Config {
    max_parallel: usize,
    read_timeout: Duration,
    max_retries: u8,
    udp_payload_size: Option<u16>,
    recv_size: usize,
}

impl Model for Config {
    ghost use Rattle.client_settings.specs.Dgram.{Settings};
    ghost use Rattle.std.specs.Prelude.{◌≤◌};

    ghost Value = { Settings };

    ghost view = { λ c. record {
      max_parallel = c.max_parallel;
      read_timeout = c.read_timeout;
      max_retries = c.max_retries;
      udp_payload_size = c.udp_payload_size;
      recv_size = c.recv_size;
    } };

    ghost inverse = { λ s. record {
      max_parallel = s.max_parallel;
      read_timeout = s.read_timeout;
      max_retries = s.max_retries;
      udp_payload_size = s.udp_payload_size;
      recv_size = s.recv_size;
    } };

    ghost invariant = { λ c. (1 ≤ c.max_parallel) × (1000 ≤ c.read_timeout) };
}

impl Default for Config {
    ghost is_default = { λ c. c ≡ default_settings };

    fn default() -> Config {
        Config::new()
    }
}

/// A payload size has two octets.
fn size_is_short(size: u16)
    ensures { size < 65536 }
{
    let _size = size;
}

impl Config {
    /// There is a place at least, and an answer is waited for, whatever was set.
    pub fn are_limited(&self)
        ensures { AreLimited self.now }
    {
        let _places = self.max_parallel;
        let _time = self.read_timeout;
        match self.udp_payload_size {
            None => {}
            Some(size) => size_is_short(size),
        }
    }

    /// The defaults: 100 requests at a time, 5 seconds, 5 further tries, a payload size of 1232 octets,
    /// and 2000 octets of an answer.
    pub fn new() -> Config
        ensures { result ≡ default_settings }
    {
        Config {
            max_parallel: max_parallel_limits().default(),
            read_timeout: read_timeout_limits().default(),
            max_retries: max_retries_limits().default(),
            udp_payload_size: Some(1232),
            recv_size: 2000,
        }
    }

    /// The same settings. It takes no memory.
    pub fn try_clone(&self) -> Result<Config, NoMemory>
        ensures { result ≡ Ok self.now }
    {
        Ok(*self)
    }

    /// How many requests may be at work at a time: 1 to 1000.
    pub fn set_max_parallel(&mut self, value: usize)
        ensures { self.new ≡ record self.old { max_parallel = limited nat_cmp 1 1000 value } }
    {
        self.max_parallel = max_parallel_limits().limit(value);
    }

    /// How many requests may be at work at a time.
    pub fn max_parallel(&self) -> usize
        ensures { result ≡ self.now.max_parallel }
    {
        self.max_parallel
    }

    /// How long a try waits for its answer: 1 millisecond to 60 seconds.
    pub fn set_read_timeout(&mut self, value: Duration)
        ensures { self.new ≡ record self.old { read_timeout = limited nat_cmp 1000 60000000 value } }
    {
        self.read_timeout = read_timeout_limits().limit(value);
    }

    /// How long a try waits for its answer.
    pub fn read_timeout(&self) -> Duration
        ensures { result ≡ self.now.read_timeout }
    {
        self.read_timeout
    }

    /// How many tries may follow the first: 0 to 100.
    pub fn set_max_retries(&mut self, value: u8)
        ensures { self.new ≡ record self.old { max_retries = limited nat_cmp 0 100 value } }
    {
        self.max_retries = max_retries_limits().limit(value);
    }

    /// How many tries may follow the first.
    pub fn max_retries(&self) -> u8
        ensures { result ≡ self.now.max_retries }
    {
        self.max_retries
    }

    /// The payload size that a request announces, in octets (RFC 6891 6.2.3); with `None` the request's
    /// own stays.
    pub fn set_udp_payload_size(&mut self, value: Option<u16>)
        ensures { self.new ≡ record self.old { udp_payload_size = value } }
    {
        self.udp_payload_size = value;
    }

    /// The payload size that a request announces, in octets.
    pub fn udp_payload_size(&self) -> Option<u16>
        ensures { result ≡ self.now.udp_payload_size }
    {
        self.udp_payload_size
    }

    /// How many octets of a datagram are looked at.
    pub fn set_recv_size(&mut self, value: usize)
        ensures { self.new ≡ record self.old { recv_size = value } }
    {
        self.recv_size = value;
    }

    /// How many octets of a datagram are looked at.
    pub fn recv_size(&self) -> usize
        ensures { result ≡ self.now.recv_size }
    {
        self.recv_size
    }
}
