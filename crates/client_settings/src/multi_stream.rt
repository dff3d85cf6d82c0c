//! The settings of reconnection.

ghost use Rattle.std.specs.Prelude.{◌≡◌, Ok};
ghost use Rattle.std.specs.Borrow.{Lends, sem};
ghost use Rattle.std.specs.Ordering.{nat_cmp};
ghost use Rattle.client_request.specs.Limits.{limited};
ghost use Rattle.client_settings.specs.contracts.stream.Config.{the_row as stream_row};
ghost use Rattle.client_settings.specs.contracts.multi_stream.Config.{the_row};
ghost use Rattle.client_settings.specs.MultiStream.{AreLimited, default_settings, over_stream, with_stream};

use crate::stream;
use client_request::DefMinMax;
use dns_base::{Duration, NoMemory};
use std::marker::Model;

/// How long a request waits for its result.
fn response_timeout_limits() -> DefMinMax<Duration>
    ensures { result ≡ record { def = 30000000; min = 1000; max = 600000000 } }
{
    DefMinMax::new(
        Duration::from_secs(30),
        Duration::from_millis(1),
        Duration::from_secs(600),
    )
}

/// The settings of reconnection, and of each connection.
#[derive(Debug, Drop)]
pub struct Config {
    response_timeout: Duration,
    stream: stream::Config,
}

impl Model for Config {
    ghost use Rattle.client_settings.specs.MultiStream.{Settings};
    ghost use Rattle.std.specs.Prelude.{◌≤◌};

    ghost Value = { Settings };

    ghost view = { λ c. record { response_timeout = c.response_timeout; stream = c.stream } };

    ghost invariant = { λ c. 1000 ≤ c.response_timeout };
}

impl Default for Config {
    ghost is_default = { λ c. c ≡ default_settings };

    fn default() -> Config {
        Config::new()
    }
}

impl From<stream::Config> for Config {
    ghost from_gives = { λ stream c. c ≡ over_stream stream };

    fn from(stream: stream::Config) -> Config {
        Config {
            response_timeout: response_timeout_limits().default(),
            stream,
        }
    }
}

impl Config {
    /// A request and a frame are waited for, whatever was set.
    pub fn are_limited(&self)
        ensures { AreLimited self.now }
    {
        let _ = &self.response_timeout;
        self.stream.are_limited();
    }

    /// The defaults: 30 seconds for a request, and those of a stream connection.
    pub fn new() -> Config
        ensures { result ≡ default_settings }
    {
        Config {
            response_timeout: response_timeout_limits().default(),
            stream: stream::Config::new(),
        }
    }

    /// The same settings. It takes no memory.
    pub fn try_clone(&self) -> Result<Config, NoMemory>
        ensures { result ≡ Ok self.now }
    {
        Ok(Config {
            response_timeout: self.response_timeout,
            stream: self.stream,
        })
    }

    /// How long a request waits for its result, over all connections and times of backing off: 1
    /// millisecond to 600 seconds.
    pub fn set_response_timeout(&mut self, value: Duration)
        ensures { self.new ≡ record self.old { response_timeout = limited nat_cmp 1000 600000000 value } }
    {
        self.response_timeout = response_timeout_limits().limit(value);
    }

    pub fn response_timeout(&self) -> Duration
        ensures { result ≡ self.now.response_timeout }
    {
        self.response_timeout
    }

    /// The settings of each connection.
    pub fn stream(&self) -> &stream::Config
        ensures { result.now ≡ self.now.stream }
    {
        &self.stream
    }

    /// The settings of each connection, to be changed. A connection that is open keeps its own.
    pub fn stream_mut(&mut self) -> &mut stream::Config
        ensures* writes_back { sem 𝓛 (Lends the_row stream_row self.entry result (with_stream self.old)) }
        ensures value { result.now ≡ self.old.stream }
    {
        &mut self.stream
    }
}
