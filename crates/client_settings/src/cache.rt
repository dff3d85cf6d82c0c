//! The settings of the cache.

ghost use Rattle.std.specs.Prelude.{◌≡◌, ◌≤◌, Ok};
ghost use Rattle.std.specs.Ordering.{nat_cmp};
ghost use Rattle.client_request.specs.Limits.{limited};
ghost use Rattle.client_settings.specs.Settings.{default_cache, no_bound, seconds};

use client_request::DefMinMax;
use dns_base::{Duration, NoMemory};
use std::marker::Model;

/// A default and its limits, in seconds.
fn limits(def: u64, min: u64, max: u64) -> DefMinMax<Duration>
    ensures { result ≡ record { def = seconds def; min = seconds min; max = seconds max } }
{
    DefMinMax::new(
        Duration::from_secs(def),
        Duration::from_secs(min),
        Duration::from_secs(max),
    )
}

fn max_cache_entries_limits() -> DefMinMax<u64>
    ensures { result ≡ record { def = 1000; min = 1; max = 1000000000 } }
{
    DefMinMax::new(1000, 1, 1_000_000_000)
}

fn max_cache_octets_limits() -> DefMinMax<u64>
    ensures { result ≡ record { def = no_bound; min = 65536; max = no_bound } }
{
    DefMinMax::new(u64::MAX, 65_536, u64::MAX)
}

fn max_validity_limits() -> DefMinMax<Duration>
    ensures { result ≡ record { def = seconds 604800; min = seconds 60; max = seconds 6048000 } }
{
    limits(604_800, 60, 6_048_000)
}

fn transport_failure_duration_limits() -> DefMinMax<Duration>
    ensures { result ≡ record { def = seconds 30; min = seconds 1; max = seconds 300 } }
{
    limits(30, 1, 300)
}

fn misc_error_duration_limits() -> DefMinMax<Duration>
    ensures { result ≡ record { def = seconds 30; min = seconds 1; max = seconds 300 } }
{
    limits(30, 1, 300)
}

fn max_nxdomain_validity_limits() -> DefMinMax<Duration>
    ensures { result ≡ record { def = seconds 3600; min = seconds 60; max = seconds 86400 } }
{
    limits(3600, 60, 86_400)
}

fn max_nodata_validity_limits() -> DefMinMax<Duration>
    ensures { result ≡ record { def = seconds 3600; min = seconds 60; max = seconds 86400 } }
{
    limits(3600, 60, 86_400)
}

fn max_delegation_validity_limits() -> DefMinMax<Duration>
    ensures { result ≡ record { def = seconds 1000000; min = seconds 60; max = seconds 1000000000 } }
{
    limits(1_000_000, 60, 1_000_000_000)
}

fn stale_for_limits() -> DefMinMax<Duration>
    ensures { result ≡ record { def = seconds 0; min = seconds 0; max = seconds 604800 } }
{
    limits(0, 0, 604_800)
}

/// How many answers are kept, and for how long at most.
#[derive(Clone, Debug, PartialEq, Eq, Drop)]
pub struct Config {
    max_cache_entries: u64,
    max_cache_octets: u64,
    max_validity: Duration,
    transport_failure_duration: Duration,
    misc_error_duration: Duration,
    max_nxdomain_validity: Duration,
    max_nodata_validity: Duration,
    max_delegation_validity: Duration,
    cache_truncated: bool,
    stale_for: Duration,
}

impl Model for Config {
    ghost use Rattle.client_settings.specs.Settings.{CacheSettings, seconds};
    ghost use Rattle.std.specs.Prelude.{◌≤◌};

    ghost Value = { CacheSettings };

    ghost view = { λ c. record {
      max_cache_entries = c.max_cache_entries;
      max_cache_octets = c.max_cache_octets;
      max_validity = c.max_validity;
      transport_failure_duration = c.transport_failure_duration;
      misc_error_duration = c.misc_error_duration;
      max_nxdomain_validity = c.max_nxdomain_validity;
      max_nodata_validity = c.max_nodata_validity;
      max_delegation_validity = c.max_delegation_validity;
      cache_truncated = c.cache_truncated;
      stale_for = c.stale_for;
    } };

    ghost inverse = { λ s. record {
      max_cache_entries = s.max_cache_entries;
      max_cache_octets = s.max_cache_octets;
      max_validity = s.max_validity;
      transport_failure_duration = s.transport_failure_duration;
      misc_error_duration = s.misc_error_duration;
      max_nxdomain_validity = s.max_nxdomain_validity;
      max_nodata_validity = s.max_nodata_validity;
      max_delegation_validity = s.max_delegation_validity;
      cache_truncated = s.cache_truncated;
      stale_for = s.stale_for;
    } };

    ghost invariant = { λ c. c.max_validity ≤ seconds 6048000 };
}

impl Config {
    /// No answer is kept for longer than 6048000 seconds, whatever was set.
    pub fn max_validity_is_limited(&self)
        ensures { self.now.max_validity ≤ seconds 6048000 }
    {
        let _ = &self.max_validity;
    }

    /// 1000 answers, whatever they weigh, a week at most; failures for half a minute, names and data that are not there for
    /// an hour, delegations for 1000000 seconds; truncated answers not at all, and none once it has expired.
    pub fn new() -> Config
        ensures { result ≡ default_cache }
    {
        Config {
            max_cache_entries: max_cache_entries_limits().default(),
            max_cache_octets: max_cache_octets_limits().default(),
            max_validity: max_validity_limits().default(),
            transport_failure_duration: transport_failure_duration_limits().default(),
            misc_error_duration: misc_error_duration_limits().default(),
            max_nxdomain_validity: max_nxdomain_validity_limits().default(),
            max_nodata_validity: max_nodata_validity_limits().default(),
            max_delegation_validity: max_delegation_validity_limits().default(),
            cache_truncated: false,
            stale_for: stale_for_limits().default(),
        }
    }

    /// How many answers are kept.
    pub fn max_cache_entries(&self) -> u64
        ensures { result ≡ self.now.max_cache_entries }
    {
        self.max_cache_entries
    }

    /// 1 to 1000000000.
    pub fn set_max_cache_entries(&mut self, value: u64)
        ensures { self.new ≡ record self.old { max_cache_entries = limited nat_cmp 1 1000000000 value } }
    {
        self.max_cache_entries = max_cache_entries_limits().limit(value);
    }

    /// How much the answers that are kept may weigh together: of each 1024 and twice the octets of its message.
    pub fn max_cache_octets(&self) -> u64
        ensures { result ≡ self.now.max_cache_octets }
    {
        self.max_cache_octets
    }

    /// 65536 to the greatest `u64`.
    pub fn set_max_cache_octets(&mut self, value: u64)
        ensures { self.new ≡ record self.old { max_cache_octets = limited nat_cmp 65536 no_bound value } }
    {
        self.max_cache_octets = max_cache_octets_limits().limit(value);
    }

    /// How long an answer is kept at most, whatever its records say.
    pub fn max_validity(&self) -> Duration
        ensures { result ≡ self.now.max_validity }
    {
        self.max_validity
    }

    /// 60 to 6048000 seconds.
    pub fn set_max_validity(&mut self, value: Duration)
        ensures { self.new ≡ record self.old { max_validity = limited nat_cmp (seconds 60) (seconds 6048000) value } }
    {
        self.max_validity = max_validity_limits().limit(value);
    }

    /// How long an error of the transport below is kept.
    pub fn transport_failure_duration(&self) -> Duration
        ensures { result ≡ self.now.transport_failure_duration }
    {
        self.transport_failure_duration
    }

    /// 1 to 300 seconds.
    pub fn set_transport_failure_duration(&mut self, value: Duration)
        ensures { self.new ≡ record self.old { transport_failure_duration = limited nat_cmp (seconds 1) (seconds 300) value } }
    {
        self.transport_failure_duration = transport_failure_duration_limits().limit(value);
    }

    /// How long an answer with an error code is kept, but for names that are not there.
    pub fn misc_error_duration(&self) -> Duration
        ensures { result ≡ self.now.misc_error_duration }
    {
        self.misc_error_duration
    }

    /// 1 to 300 seconds.
    pub fn set_misc_error_duration(&mut self, value: Duration)
        ensures { self.new ≡ record self.old { misc_error_duration = limited nat_cmp (seconds 1) (seconds 300) value } }
    {
        self.misc_error_duration = misc_error_duration_limits().limit(value);
    }

    /// How long it is kept at most that a name is not there (RFC 2308 5).
    pub fn max_nxdomain_validity(&self) -> Duration
        ensures { result ≡ self.now.max_nxdomain_validity }
    {
        self.max_nxdomain_validity
    }

    /// 60 to 86400 seconds.
    pub fn set_max_nxdomain_validity(&mut self, value: Duration)
        ensures { self.new ≡ record self.old { max_nxdomain_validity = limited nat_cmp (seconds 60) (seconds 86400) value } }
    {
        self.max_nxdomain_validity = max_nxdomain_validity_limits().limit(value);
    }

    /// How long it is kept at most that a name has no such data (RFC 2308 5).
    pub fn max_nodata_validity(&self) -> Duration
        ensures { result ≡ self.now.max_nodata_validity }
    {
        self.max_nodata_validity
    }

    /// 60 to 86400 seconds.
    pub fn set_max_nodata_validity(&mut self, value: Duration)
        ensures { self.new ≡ record self.old { max_nodata_validity = limited nat_cmp (seconds 60) (seconds 86400) value } }
    {
        self.max_nodata_validity = max_nodata_validity_limits().limit(value);
    }

    /// How long a delegation is kept at most.
    pub fn max_delegation_validity(&self) -> Duration
        ensures { result ≡ self.now.max_delegation_validity }
    {
        self.max_delegation_validity
    }

    /// 60 to 1000000000 seconds.
    pub fn set_max_delegation_validity(&mut self, value: Duration)
        ensures { self.new ≡ record self.old { max_delegation_validity = limited nat_cmp (seconds 60) (seconds 1000000000) value } }
    {
        self.max_delegation_validity = max_delegation_validity_limits().limit(value);
    }

    /// Whether truncated answers are kept.
    pub fn cache_truncated(&self) -> bool
        ensures { result ≡ self.now.cache_truncated }
    {
        self.cache_truncated
    }

    /// Keeps truncated answers, or not.
    pub fn set_cache_truncated(&mut self, value: bool)
        ensures { self.new ≡ record self.old { cache_truncated = value } }
    {
        self.cache_truncated = value;
    }

    /// For how long an answer that has expired is given where the servers fail (RFC 8767).
    pub fn stale_for(&self) -> Duration
        ensures { result ≡ self.now.stale_for }
    {
        self.stale_for
    }

    /// 0 to 604800 seconds.
    pub fn set_stale_for(&mut self, value: Duration)
        ensures { self.new ≡ record self.old { stale_for = limited nat_cmp (seconds 0) (seconds 604800) value } }
    {
        self.stale_for = stale_for_limits().limit(value);
    }

    /// The same settings. It takes no memory.
    pub fn try_clone(&self) -> Result<Config, NoMemory>
        ensures { result ≡ Ok self.now }
    {
        Ok(Config { ..*self })
    }
}

impl Default for Config {
    ghost is_default = { λ c. c ≡ default_cache };

    fn default() -> Config {
        Config::new()
    }
}
