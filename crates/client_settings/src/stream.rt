//! The settings of a stream connection.

ghost use Rattle.std.specs.Prelude.{◌≡◌, ℕ, Ok};
ghost use Rattle.std.specs.Ordering.{nat_cmp};
ghost use Rattle.client_request.specs.Limits.{limited};
ghost use Rattle.client_settings.specs.Stream.{AreLimited, Settings, default_settings};

use client_request::DefMinMax;
use dns_base::{Duration, NoMemory};
use std::marker::Model;

/// How long an active connection waits for the next frame.
fn response_timeout_limits() -> DefMinMax<Duration>
    ensures { result ≡ record { def = 19000000; min = 1000; max = 600000000 } }
{
    DefMinMax::new(
        Duration::from_secs(19),
        Duration::from_millis(1),
        Duration::from_secs(600),
    )
}

/// How long a connection stays open while nobody waits for a frame.
fn idle_timeout_limits() -> DefMinMax<Duration>
    ensures { result ≡ record { def = 10000000; min = 0; max = 3600000000 } }
{
    DefMinMax::new(
        Duration::from_secs(10),
        Duration::ZERO,
        Duration::from_secs(3600),
    )
}

/// The settings of a connection.
#[derive(Clone, Copy, Debug)]
pub struct Config {
    response_timeout: Duration,
    streaming_response_timeout: Duration,
    idle_timeout: Duration,
}

impl Model for Config {
    ghost use Rattle.client_settings.specs.Stream.{Settings};
    ghost use Rattle.std.specs.Prelude.{◌≤◌};

    ghost Value = { Settings };

    ghost view = { λ c. record {
      response_timeout = c.response_timeout;
      streaming_response_timeout = c.streaming_response_timeout;
      idle_timeout = c.idle_timeout;
    } };

    ghost inverse = { λ s. record {
      response_timeout = s.response_timeout;
      streaming_response_timeout = s.streaming_response_timeout;
      idle_timeout = s.idle_timeout;
    } };

    ghost invariant = { λ c. 1000 ≤ c.response_timeout };
}

impl Default for Config {
    ghost is_default = { λ c. c ≡ default_settings };

    fn default() -> Config {
        Config::new()
    }
}

impl Config {
    /// A frame is waited for, whatever was set.
    pub fn are_limited(&self)
        ensures { AreLimited self.now }
    {
        let _ = &self.response_timeout;
    }

    /// The defaults: 19 seconds for a response, of a transfer too, and 10 seconds without a request.
    pub fn new() -> Config
        ensures { result ≡ default_settings }
    {
        Config {
            response_timeout: response_timeout_limits().default(),
            streaming_response_timeout: response_timeout_limits().default(),
            idle_timeout: idle_timeout_limits().default(),
        }
    }

    /// The same settings. It takes no memory.
    pub fn try_clone(&self) -> Result<Config, NoMemory>
        ensures { result ≡ Ok self.now }
    {
        Ok(*self)
    }

    /// How long an active connection waits for the next frame, of a transfer too: 1 millisecond to 600
    /// seconds. It ends one microsecond later.
    pub fn set_response_timeout(&mut self, value: Duration)
        ensures single { self.new.response_timeout ≡ limited nat_cmp 1000 600000000 value }
        ensures streaming { self.new.streaming_response_timeout ≡ limited nat_cmp 1000 600000000 value }
        ensures idle { self.new.idle_timeout ≡ self.old.idle_timeout }
    {
        self.response_timeout = response_timeout_limits().limit(value);
        self.streaming_response_timeout = self.response_timeout;
    }

    pub fn response_timeout(&self) -> Duration
        ensures { result ≡ self.now.response_timeout }
    {
        self.response_timeout
    }

    /// How long an active connection waits for the next frame of a transfer: 1 millisecond to 600
    /// seconds.
    pub fn set_streaming_response_timeout(&mut self, value: Duration)
        ensures { self.new ≡ record self.old { streaming_response_timeout = limited nat_cmp 1000 600000000 value } }
    {
        self.streaming_response_timeout = response_timeout_limits().limit(value);
    }

    pub fn streaming_response_timeout(&self) -> Duration
        ensures { result ≡ self.now.streaming_response_timeout }
    {
        self.streaming_response_timeout
    }

    /// How long a connection stays open while nobody waits for a frame: 0 to 3600 seconds, unless the
    /// server tells another time (RFC 7828). With 0 it ends at once.
    pub fn set_idle_timeout(&mut self, value: Duration)
        ensures { self.new ≡ record self.old { idle_timeout = limited nat_cmp 0 3600000000 value } }
    {
        self.idle_timeout = idle_timeout_limits().limit(value);
    }

    pub fn idle_timeout(&self) -> Duration
        ensures { result ≡ self.now.idle_timeout }
    {
        self.idle_timeout
    }
}
