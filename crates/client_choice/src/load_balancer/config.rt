//! The settings of a balancer.

ghost use Rattle.std.specs.Prelude.{◌≡◌, Ok};
ghost use Rattle.std.specs.Ordering.{nat_cmp};
ghost use Rattle.client_request.specs.Limits.{at_least, limited};
ghost use Rattle.client_choice.specs.BalancerSettings.{default_balancer, default_bursts};

use client_request::DefMinMax;
use client_settings::redundant;
use dns_base::{Duration, NoMemory};
use std::marker::Model;

/// How much slower than the fastest server one may be that is not slow, in thousandths.
fn slow_rt_factor_limits() -> DefMinMax<u32>
    ensures { result ≡ record { def = 5000; min = 1000; max = 4294967295 } }
{
    DefMinMax::new(5000, 1000, u32::MAX)
}

/// How long a burst lasts.
fn burst_interval_limits() -> DefMinMax<Duration>
    ensures { result ≡ record { def = 1000000; min = 1000; max = 3600000000 } }
{
    DefMinMax::new(
        Duration::from_secs(1),
        Duration::from_millis(1),
        Duration::from_secs(3600),
    )
}

/// Which results of one server are put off while another may still answer, and which servers are slow.
#[derive(Clone, Copy, Debug, PartialEq, Eq)]
pub struct Config {
    deferring: redundant::Config,
    slow_rt_factor: u32,
}

impl Model for Config {
    ghost use Rattle.client_choice.specs.BalancerSettings.{BalancerSettings};

    ghost Value = { BalancerSettings };

    ghost view = { λ c. record { deferring = c.deferring; slow_rt_factor = c.slow_rt_factor } };

    ghost inverse = { λ s. record { deferring = s.deferring; slow_rt_factor = s.slow_rt_factor } };
}

impl Default for Config {
    ghost is_default = { λ c. c ≡ default_balancer };

    fn default() -> Config {
        Config::new()
    }
}

impl Config {
    /// Nothing is put off, and a server is slow past five times the least estimate.
    pub fn new() -> Config
        ensures { result ≡ default_balancer }
    {
        Config {
            deferring: redundant::Config::new(),
            slow_rt_factor: slow_rt_factor_limits().default(),
        }
    }

    /// What is put off.
    pub(crate) fn deferring(&self) -> &redundant::Config
        ensures { result.now ≡ self.now.deferring }
    {
        &self.deferring
    }

    /// Whether an error of a transport is put off.
    pub fn defer_transport_error(&self) -> bool
        ensures { result ≡ self.now.deferring.defer_transport_error }
    {
        self.deferring.defer_transport_error()
    }

    /// Lets an error of a transport wait for the other servers, or not.
    pub fn set_defer_transport_error(&mut self, value: bool)
        ensures { self.new ≡ record self.old { deferring = record self.old.deferring { defer_transport_error = value } } }
    {
        self.deferring.set_defer_transport_error(value);
    }

    /// Whether an answer with the code REFUSED is put off (RFC 1035 4.1.1).
    pub fn defer_refused(&self) -> bool
        ensures { result ≡ self.now.deferring.defer_refused }
    {
        self.deferring.defer_refused()
    }

    /// Lets an answer with the code REFUSED wait for the other servers, or not.
    pub fn set_defer_refused(&mut self, value: bool)
        ensures { self.new ≡ record self.old { deferring = record self.old.deferring { defer_refused = value } } }
    {
        self.deferring.set_defer_refused(value);
    }

    /// Whether an answer with the code SERVFAIL is put off (RFC 1035 4.1.1).
    pub fn defer_servfail(&self) -> bool
        ensures { result ≡ self.now.deferring.defer_servfail }
    {
        self.deferring.defer_servfail()
    }

    /// Lets an answer with the code SERVFAIL wait for the other servers, or not.
    pub fn set_defer_servfail(&mut self, value: bool)
        ensures { self.new ≡ record self.old { deferring = record self.old.deferring { defer_servfail = value } } }
    {
        self.deferring.set_defer_servfail(value);
    }

    /// Past how many thousandths of the least estimate a server is slow.
    pub fn slow_rt_factor(&self) -> u32
        ensures { result ≡ self.now.slow_rt_factor }
    {
        self.slow_rt_factor
    }

    /// 1000, which is once the least estimate, or more.
    pub fn set_slow_rt_factor(&mut self, value: u32)
        ensures { self.new ≡ record self.old { slow_rt_factor = at_least nat_cmp 1000 value } }
    {
        self.slow_rt_factor = slow_rt_factor_limits().limit(value);
    }

    /// The same settings. It takes no memory.
    pub fn try_clone(&self) -> Result<Config, NoMemory>
        ensures { result ≡ Ok self.now }
    {
        Ok(*self)
    }
}

/// How many requests a server gets in a burst, and how long a burst lasts.
#[derive(Clone, Copy, Debug, PartialEq, Eq)]
pub struct ConnConfig {
    max_burst: Option<u64>,
    burst_interval: Duration,
}

impl Model for ConnConfig {
    ghost use Rattle.client_choice.specs.BalancerSettings.{BurstSettings};

    ghost Value = { BurstSettings };

    ghost view = { λ c. record { max_burst = c.max_burst; burst_interval = c.burst_interval } };

    ghost inverse = { λ s. record { max_burst = s.max_burst; burst_interval = s.burst_interval } };
}

impl Default for ConnConfig {
    ghost is_default = { λ c. c ≡ default_bursts };

    fn default() -> ConnConfig {
        ConnConfig::new()
    }
}

impl ConnConfig {
    /// No limit; a burst lasts a second.
    pub fn new() -> ConnConfig
        ensures { result ≡ default_bursts }
    {
        ConnConfig {
            max_burst: None,
            burst_interval: burst_interval_limits().default(),
        }
    }

    /// How many requests the server gets in a burst, if that is limited.
    pub fn max_burst(&self) -> Option<u64>
        ensures { result ≡ self.now.max_burst }
    {
        self.max_burst
    }

    /// Limits how many requests the server gets in a burst, or lets it get any number.
    pub fn set_max_burst(&mut self, value: Option<u64>)
        ensures { self.new ≡ record self.old { max_burst = value } }
    {
        self.max_burst = value;
    }

    /// How long a burst lasts.
    pub fn burst_interval(&self) -> Duration
        ensures { result ≡ self.now.burst_interval }
    {
        self.burst_interval
    }

    /// 1 millisecond to 3600 seconds.
    pub fn set_burst_interval(&mut self, value: Duration)
        ensures { self.new ≡ record self.old { burst_interval = limited nat_cmp 1000 3600000000 value } }
    {
        self.burst_interval = burst_interval_limits().limit(value);
    }

    /// The same settings. It takes no memory.
    pub fn try_clone(&self) -> Result<ConnConfig, NoMemory>
        ensures { result ≡ Ok self.now }
    {
        Ok(*self)
    }
}
