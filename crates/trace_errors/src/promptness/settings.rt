//! The settings of which a trace is judged.

ghost use Rattle.std.specs.Prelude.{◌≡◌, IfOk, is_some, nat_lt};
ghost use Rattle.number_table.specs.Entries.{entry_at};
ghost use Rattle.right_trace.specs.Validity.{is_deferred, is_final, validity_of_message};
ghost use Rattle.trace_errors.specs.promptness.Settings as plain;

use cache_rules::validity;
use client_request::RequestMessage;
use client_settings::cache;
use dns_base::{Duration, Message, NoMemory, OptRcode};
use message_judging::validity::RequestValidity;
use number_table::NumberTable;
use std::marker::Model;
use trace_tables::Asked;

/// What is kept for how long, and what is deferred while another server may do better.
#[derive(Drop)]
pub struct TraceSettings {
    cache: cache::Config,
    defers_errors: bool,
    defers_refused: bool,
    defers_servfail: bool,
}

impl Model for TraceSettings {
    ghost use Rattle.right_trace.specs.Settings.{Settings};
    ghost use Rattle.trace_errors.specs.promptness.Settings.{settings_of};

    ghost Value = { Settings };

    ghost view = { λ s. settings_of s.cache s.defers_errors s.defers_refused s.defers_servfail };
}

impl TraceSettings {
    /// The settings of a client with this cache, that defers errors, REFUSED and SERVFAIL so.
    pub fn new(
        cache: cache::Config,
        defers_errors: bool,
        defers_refused: bool,
        defers_servfail: bool,
    ) -> TraceSettings
        ensures { result ≡ plain.settings_of cache defers_errors defers_refused defers_servfail }
    {
        TraceSettings {
            cache,
            defers_errors,
            defers_refused,
            defers_servfail,
        }
    }

    /// Whether errors are deferred.
    pub fn defers_errors(&self) -> bool
        ensures { result ≡ self.now.defers_errors }
    {
        self.defers_errors
    }

    /// Whether a message that has expired may be given.
    pub fn serves_stale(&self) -> bool
        ensures { result ≡ nat_lt 0 self.now.stale_for }
    {
        self.cache.stale_for() > Duration::ZERO
    }

    /// Whether a message may be replaced by one of another server.
    #[tactic(auto, unfolding(right_trace::specs::Validity::is_deferred))]
    pub fn is_deferred(&self, message: &Message) -> bool
        ensures { result ≡ is_deferred self.now message.now }
    {
        (self.defers_refused && message.opt_rcode() == OptRcode(5))
            || (self.defers_servfail && message.opt_rcode() == OptRcode(2))
    }

    /// Whether a message is read, so it has a validity.
    #[tactic(auto, using(crate::proofs::lemmas::promptness::Settling::has_validity))]
    pub fn has_validity(&self, message: &Message) -> Result<bool, NoMemory>
        ensures { IfOk result (λ b. b ≡ is_some (validity_of_message self.now message.now)) }
    {
        let outcome = Ok(message.try_clone()?);
        Ok(validity(&outcome, &self.cache).is_ok())
    }

    /// Whether a message ends a request.
    fn is_final(&self, request: &RequestMessage, message: &Message) -> Result<bool, NoMemory>
        ensures { IfOk result (λ b. b ≡ is_final self.now request.now message.now) }
    {
        if self.is_deferred(message) {
            return Ok(false);
        }
        if !RequestValidity::of(request).is_cacheable {
            return Ok(true);
        }
        self.has_validity(message)
    }

    /// Whether a message ends a request that was asked.
    pub(crate) fn is_final_for(
        &self,
        askings: &NumberTable<Asked>,
        request: u64,
        message: &Message,
    ) -> Result<bool, NoMemory>
        ensures { IfOk result (λ b. b ≡ plain.is_final_for self.now message.now (entry_at request askings.now)) }
    {
        match askings.get(request) {
            None => Ok(false),
            Some(asked) => self.is_final(&asked.request, message),
        }
    }
}
