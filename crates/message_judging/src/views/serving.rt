//! Whether a message is what a kept one says to a later request.

ghost use Rattle.std.specs.Prelude.{◌≡◌, ◌≤◌, nat_le, IfOk};
ghost use Rattle.client_settings.specs.Settings.{seconds};
ghost use Rattle.dns_base.specs.Message.{header_of};
ghost use Rattle.dns_base.specs.OptRecord.{opt_rcode};
ghost use Rattle.right_trace.specs.Validity.{is_above, validity_of_message};
ghost use Rattle.right_trace.specs.Views.{tells_of_name};
ghost use Rattle.cache_rules.specs.Validity.{cached_by};
ghost use Rattle.cache_rules.specs.declared.copying.Ttls.TheVariants.{Lessened};
ghost use Rattle.message_judging.specs.views.Serving as spec;

use crate::views::same::is_same_message;
use cache_rules::{AdDo, stale_under, validity, view};
use client_request::Error;
use client_settings::cache::Config;
use dns_base::{Duration, Message, Name, NoMemory, OptRcode};
use std::alloc::Global;

/// Microseconds in a second.
const SECOND: u64 = 1_000_000;

/// What a request asks of DNSSEC, and whether it has RD set.
#[derive(Clone, Copy, Debug)]
pub struct Flags {
    pub class: AdDo,
    pub rd: bool,
}

/// A message that was kept of a first request, and a later one to which it may be given.
pub struct Served<'a> {
    pub kept: &'a Message,
    /// Those of the first request.
    pub from: Flags,
    /// Those of the later one.
    pub to: Flags,
    /// The name of the later one's question, as it is spelled.
    pub name: &'a Name,
}

impl Drop for Served<'_> {
    fn drop(self) {
        let Served {
            kept: _,
            from: _,
            to: _,
            name: _,
        } = self;
    }
}

/// For how long a message may be kept, if it is read.
pub fn validity_of(config: &Config, message: &Message) -> Result<Option<Duration>, NoMemory>
    ensures { IfOk result (λ v. v ≡ validity_of_message (cached_by config.now) message.now) }
{
    let outcome = Ok(message.try_clone()?);
    Ok(validity(&outcome, config).ok())
}

/// Whether a validity is above 0.
fn is_above(validity: Option<Duration>) -> bool
    ensures { result ≡ is_above validity }
{
    match validity {
        None => false,
        Some(validity) => validity.as_micros() > 0,
    }
}

/// Whether a message may be kept at all.
pub fn is_kept(config: &Config, message: &Message) -> Result<bool, NoMemory>
    ensures { IfOk result (λ b. b ≡ is_above (validity_of_message (cached_by config.now) message.now)) }
{
    Ok(is_above(validity_of(config, message)?))
}

/// Whether an age is no more than a validity, and so much.
fn is_within(more: Duration, age: u64, validity: Option<Duration>) -> bool
    ensures { result ≡ spec.is_within more age validity }
{
    match validity {
        None => false,
        Some(validity) => {
            u128::from(age).saturating_sub(validity.as_micros()) <= more.as_micros()
        }
    }
}

/// An age in whole seconds, as far as a TTL goes.
fn seconds_of(age: u64) -> u32
    ensures { result ≡ spec.seconds_of age }
{
    let seconds = age / SECOND;
    if seconds < u64::from(u32::MAX) {
        seconds as u32
    } else {
        u32::MAX
    }
}

/// Whether a response code tells of a name: what it has, or that it is not there.
fn tells_of_name(message: &Message) -> bool
    ensures { result ≡ tells_of_name (opt_rcode message.now) }
{
    matches!(message.opt_rcode(), OptRcode(0) | OptRcode(3))
}

impl Served<'_> {
    /// The view, so many seconds later. None exactly where the message is not read by type.
    fn view(&self, alloc: Global, seconds: u32) -> Result<Option<Message>, NoMemory>
        ensures { IfOk result (spec.IsMade self.now.kept.now self.now.from self.now.to self.now.name.now (Lessened seconds)) }
    {
        let clears_rd = self.from.rd && !self.to.rd;
        match view(
            alloc,
            self.kept,
            self.from.class,
            self.to.class,
            clears_rd,
            self.name,
            seconds,
        ) {
            Ok(message) => Ok(Some(message)),
            Err(Error::NoMemory) => Err(NoMemory),
            Err(_) => Ok(None),
        }
    }

    /// What has expired of a view.
    fn expire(&self, alloc: Global, view: &Message) -> Result<Option<Message>, NoMemory>
        ensures { IfOk result (spec.IsExpired view.now (header_of view.now) self.now.to self.now.name.now) }
    {
        match stale_under(alloc, view.header(), view, self.to.class, self.name) {
            Ok(message) => Ok(Some(message)),
            Err(Error::NoMemory) => Err(NoMemory),
            Err(_) => Ok(None),
        }
    }

    /// The view at no age, where it may be given at an age, or is no longer valid for more than so much.
    fn view_within(
        &self,
        alloc: Global,
        config: &Config,
        more: Duration,
        age: u64,
    ) -> Result<Option<Message>, NoMemory>
        ensures { IfOk result (spec.IsWithin (cached_by config.now) self.now.kept.now self.now.from self.now.to self.now.name.now more age) }
    {
        if !is_kept(config, self.kept)? {
            return Ok(None);
        }
        let Some(view) = self.view(alloc, 0)? else {
            return Ok(None);
        };
        if is_within(more, age, validity_of(config, &view)?) {
            Ok(Some(view))
        } else {
            Ok(None)
        }
    }

    /// Whether a message says the view so many seconds later.
    fn is_aged(&self, alloc: Global, seconds: u32, given: &Message) -> Result<bool, NoMemory>
        ensures { IfOk result (spec.TellsAged self.now.kept.now self.now.from self.now.to self.now.name.now seconds given.now) }
    {
        match self.view(alloc, seconds)? {
            None => Ok(false),
            Some(view) => Ok(is_same_message(given, &view)),
        }
    }

    /// Whether a message is the valid view of the kept one at an age, in microseconds.
    pub fn is_view(
        &self,
        alloc: Global,
        config: &Config,
        age: u64,
        given: &Message,
    ) -> Result<bool, NoMemory>
        ensures { IfOk result (spec.TellsView (cached_by config.now) self.now.kept.now self.now.from self.now.to self.now.name.now age given.now) }
    {
        config.max_validity_is_limited();
        let Some(_) = self.view_within(alloc, config, Duration::ZERO, age)? else {
            return Ok(false);
        };
        self.is_aged(alloc, seconds_of(age), given)
    }

    /// Whether a message is what the kept one says when it has expired, at an age, in microseconds.
    pub fn is_stale(
        &self,
        alloc: Global,
        config: &Config,
        age: u64,
        given: &Message,
    ) -> Result<bool, NoMemory>
        ensures { IfOk result (spec.TellsStale (cached_by config.now) self.now.kept.now self.now.from self.now.to self.now.name.now age given.now) }
    {
        if config.stale_for().as_micros() == 0 {
            return Ok(false);
        }
        if !tells_of_name(self.kept) {
            return Ok(false);
        }
        let Some(view) = self.view_within(alloc, config, config.stale_for(), age)? else {
            return Ok(false);
        };
        match self.expire(alloc, &view)? {
            None => Ok(false),
            Some(expired) => Ok(is_same_message(given, &expired)),
        }
    }
}
