//! What a request asks.

ghost use Rattle.std.specs.Prelude.{◌≡◌, IfOk};
ghost use Rattle.right_trace.specs.Keys.{is_cacheable};
ghost use Rattle.right_trace.specs.Keys as keys;
ghost use Rattle.cache_rules.specs.Key.{flag_class};
ghost use Rattle.trace_replies.specs.given.Asks as plain;

use cache_rules::{AdDo, Key, is_signing};
use client_request::{Compose, RequestMessage};
use dns_base::{Name, NoMemory, ToName};
use message_judging::validity::RequestValidity;
use message_judging::views::Flags;
use std::alloc::Global;

/// What a request asks whose results are kept.
#[derive(Drop)]
pub struct Asks {
    /// What it shares with all that may serve it: its key without AD, DO and RD.
    pub key: Key,
    pub flags: Flags,
    /// The name of its question, as it is spelled.
    pub name: Name,
}

/// The key of a request without its flags, and these.
fn split(mut key: Key, name: Name) -> Asks
    ensures key { result.key ≡ plain.common key }
    ensures class { flag_class result.flags.class ≡ key.flags }
    ensures rd { result.flags.rd ≡ key.rd }
    ensures name { result.name ≡ name }
{
    let flags = Flags {
        class: key.addo(),
        rd: key.rd(),
    };
    key.set_addo(AdDo::None);
    key.set_rd(false);
    Asks { key, flags, name }
}

/// Whether the results of a request are kept.
fn is_cacheable(request: &RequestMessage) -> bool
    ensures { result ≡ is_cacheable request.now }
{
    RequestValidity::of(request).is_cacheable
}

/// The key that a request shows.
fn key_of(alloc: Global, request: &RequestMessage) -> Result<Option<Key>, NoMemory>
    ensures { IfOk result (λ key. key ≡ plain.key_shown request.now) }
{
    Key::of(
        alloc,
        request.base(),
        *request.header(),
        request.dnssec_ok(),
    )
}

/// The name of its only question.
fn name_of(alloc: Global, request: &RequestMessage) -> Result<Option<Name>, NoMemory>
    ensures { IfOk result (λ name. name ≡ plain.name_shown request.now) }
{
    match request.base().sole_question() {
        Err(_) => Ok(None),
        Ok(question) => {
            let name = question.qname().to_name(alloc)?;
            Ok(Some(name))
        }
    }
}

/// What a request asks. None exactly where its results are not kept.
pub fn asks_of(alloc: Global, request: &RequestMessage) -> Result<Option<Asks>, NoMemory>
    ensures { IfOk result (plain.IsTold request.now) }
{
    if !is_cacheable(request) {
        return Ok(None);
    }
    let Some(key) = key_of(alloc, request)? else {
        return Ok(None);
    };
    let Some(name) = name_of(alloc, request)? else {
        return Ok(None);
    };
    Ok(Some(split(key, name)))
}

/// Whether a class of flags has what another asks for.
fn covers_class(from: AdDo, to: AdDo) -> bool
    ensures { result ≡ keys.flags_cover (flag_class from) (flag_class to) }
{
    match (from, to) {
        (AdDo::Do, _) => true,
        (AdDo::Ad, AdDo::Do) => false,
        (AdDo::Ad, _) => true,
        (AdDo::None, AdDo::None) => true,
        (AdDo::None, _) => false,
    }
}

fn is_do(class: AdDo) -> bool
    ensures { result ≡ keys.is_do (flag_class class) }
{
    matches!(class, AdDo::Do)
}

impl Asks {
    /// Whether a reply to the same question with these flags may serve it.
    pub fn is_covered_by(&self, from: Flags) -> bool
        ensures { result ≡ plain.covers_flags from self.now.flags self.now.key.rtype }
    {
        (from.rd || !self.flags.rd)
            && covers_class(from.class, self.flags.class)
            && (!(is_do(from.class) && is_signing(self.key.qtype())) || is_do(self.flags.class))
    }
}
