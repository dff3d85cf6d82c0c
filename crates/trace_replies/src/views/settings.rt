//! The settings of which replies are judged.

ghost use Rattle.std.specs.Prelude.{◌≡◌, IfOk};
ghost use Rattle.trace_errors.specs.promptness.Settings.{settings_of};

use client_settings::cache;
use dns_base::{Duration, NoMemory};
use std::marker::Model;
use trace_errors::promptness::TraceSettings;

/// The settings of a trace, beside those of its cache alone.
#[derive(Drop)]
pub struct ReplySettings {
    trace: TraceSettings,
    cache: cache::Config,
}

impl Model for ReplySettings {
    ghost use Rattle.std.specs.Prelude.{◌≡◌};
    ghost use Rattle.right_trace.specs.Settings.{Settings};
    ghost use Rattle.trace_errors.specs.promptness.Settings.{settings_of};

    ghost Value = { Settings };

    ghost view = { λ s. s.trace };

    ghost invariant = { λ s. settings_of s.cache s.trace.defers_errors s.trace.defers_refused s.trace.defers_servfail ≡ s.trace };
}

impl ReplySettings {
    /// The settings of a client with this cache, that defers errors, REFUSED and SERVFAIL so.
    pub fn new(
        cache: cache::Config,
        defers_errors: bool,
        defers_refused: bool,
        defers_servfail: bool,
    ) -> Result<ReplySettings, NoMemory>
        ensures { IfOk result (λ s. s ≡ settings_of cache defers_errors defers_refused defers_servfail) }
    {
        let copy = cache.try_clone()?;
        let trace = TraceSettings::new(copy, defers_errors, defers_refused, defers_servfail);
        Ok(ReplySettings { trace, cache })
    }

    /// Those of the trace.
    pub fn trace(&self) -> &TraceSettings
        ensures { result.now ≡ self.now }
    {
        &self.trace
    }

    /// Those of its cache.
    pub fn cache(&self) -> &cache::Config
        ensures { settings_of result.now self.now.defers_errors self.now.defers_refused self.now.defers_servfail ≡ self.now }
    {
        &self.cache
    }

    /// For how long an answer is kept at most.
    #[tactic(auto, using(crate::proofs::lemmas::views::Durations::kept_for))]
    pub(crate) fn max_validity(&self) -> Duration
        ensures { result ≡ self.now.max_validity }
    {
        self.cache().max_validity()
    }

    /// For how long an answer that has expired is given.
    #[tactic(auto, using(crate::proofs::lemmas::views::Durations::expired_for))]
    pub(crate) fn stale_for(&self) -> Duration
        ensures { result ≡ self.now.stale_for }
    {
        self.cache().stale_for()
    }

    /// For how long an error of the transport below is kept.
    #[tactic(auto, using(crate::proofs::lemmas::views::Durations::failed_for))]
    pub(crate) fn transport_failure_duration(&self) -> Duration
        ensures { result ≡ self.now.transport_failure_duration }
    {
        self.cache().transport_failure_duration()
    }
}
