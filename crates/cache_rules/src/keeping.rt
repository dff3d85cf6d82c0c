//! How long a result may be kept (RFC 2308 3, 5).

ghost use Rattle.std.specs.Prelude.{◌≡◌, ◌≤◌, length, [], Some, None, IfSome, IsSome, IsTrue, MatchResult, min};
ghost use Rattle.dns_base.specs.Message.{first_question};
ghost use Rattle.client_request.specs.Composed.{section_items};
ghost use Rattle.right_trace.specs.Validity.{validity_of_message};
ghost use Rattle.cache_rules.specs.Validity as spec;

use client_request::Error;
use client_settings::cache;
use dns_base::{
    Class, Duration, Message, OptRcode, ParseError, Rcode, Record, RecordSection, Rtype, Section,
    Ttl,
};

/// The records of a section. Refused exactly where a section before it can't be read.
pub(crate) fn section_of(
    message: &Message,
    section: Section,
) -> Result<RecordSection<'_>, ParseError>
    ensures { MatchResult result (λ s. section_items section message.now ≡ Some s) (λ _. section_items section message.now ≡ None) }
{
    match section {
        Section::Answer => message.answer(),
        Section::Authority => message.authority(),
        Section::Additional => message.additional(),
    }
}

/// Whether a record of this type and class is met before the first that can't be read.
fn meets(records: RecordSection<'_>, rtype: Rtype, class: Class) -> bool
    ensures { result ≡ spec.meets rtype.0 class.0 records.entry }
{
    for record in records {
        let record = match record {
            Err(_) => return false,
            Ok(record) => record,
        };
        if record.rtype() == rtype && record.class() == class {
            return true;
        }
    }
    false
}

/// Whether a section counts no record. Nothing is met there then, where those before it are read.
#[tactic(auto, using(crate::proofs::EmptySections::none_in))]
fn is_empty(message: &Message, section: Section) -> bool
    ensures { IsTrue result → IfSome (section_items section message.now) (λ items. items ≡ []) }
{
    message.has_no_records_in(section)
}

/// Whether such a record is met in a section, where those before it are read.
#[tactic(auto, using(crate::proofs::EmptySections::nothing_met))]
fn section_meets(message: &Message, section: Section, rtype: Rtype, class: Class) -> bool
    ensures { result ≡ spec.section_meets rtype.0 class.0 (section_items section message.now) }
{
    if is_empty(message, section) {
        return false;
    }
    match section_of(message, section) {
        Err(_) => false,
        Ok(records) => meets(records, rtype, class),
    }
}

/// The limit of a message without error, by its first question.
fn limit_without_error(message: &Message, config: &cache::Config) -> Duration
    ensures { result ≡ spec.limit_asked config.now message.now (first_question message.now) }
{
    let question = match message.first_question() {
        None => return Duration::ZERO,
        Some(question) => question,
    };
    let class = question.qclass();
    if section_meets(message, Section::Answer, question.qtype(), class) {
        config.max_validity()
    } else if section_meets(message, Section::Authority, Rtype::SOA, class) {
        config.max_nodata_validity()
    } else if section_meets(message, Section::Authority, Rtype::NS, class) {
        config.max_delegation_validity()
    } else {
        Duration::ZERO
    }
}

/// The limit of a message that says that the name is not there, by its first question: without an SOA it is not kept
/// (RFC 2308 5).
fn limit_of_absence(message: &Message, config: &cache::Config) -> Duration
    ensures { result ≡ spec.limit_absent config.now message.now (first_question message.now) }
{
    let question = match message.first_question() {
        None => return Duration::ZERO,
        Some(question) => question,
    };
    if section_meets(message, Section::Authority, Rtype::SOA, question.qclass()) {
        config.max_nxdomain_validity()
    } else {
        Duration::ZERO
    }
}

/// The limit of a message, by its response code with the bits of its OPT record.
fn limit_of(message: &Message, config: &cache::Config) -> Duration
    ensures { result ≡ spec.limit_met config.now message.now }
{
    match message.opt_rcode() {
        OptRcode(0) => limit_without_error(message, config),
        OptRcode(3) => limit_of_absence(message, config),
        _ => config.misc_error_duration(),
    }
}

fn shorter(a: Duration, b: Duration) -> Duration
    ensures { result ≡ min a b }
{
    if b.as_micros() < a.as_micros() { b } else { a }
}

/// Whether the TTL of a record says how long it may be kept: that of an OPT record of the additional section does not
/// (RFC 6891 6.1.3).
pub(crate) fn has_ttl(section: Section, rtype: Rtype) -> bool
    ensures { result ≡ spec.has_ttl section rtype.0 }
{
    match section {
        Section::Answer | Section::Authority => true,
        Section::Additional => rtype != Rtype::OPT,
    }
}

fn shortened(section: Section, source: &Record<'_>, least: Duration) -> Duration
    ensures { result ≡ spec.least_with section source.now least }
{
    if has_ttl(section, source.rtype()) {
        shorter(least, Duration::from_secs(u64::from(source.ttl().0)))
    } else {
        least
    }
}

/// The least TTL of these records and what was found before. Refused exactly where one can't be read.
fn least_ttl(
    section: Section,
    records: RecordSection<'_>,
    before: Duration,
) -> Result<Duration, ParseError>
    ensures { MatchResult result (λ n. spec.least_met section records.entry before ≡ Some n) (λ _. spec.least_met section records.entry before ≡ None) }
{
    let mut least = before;
    for record in records {
        least = shortened(section, &record?, least);
    }
    Ok(least)
}

/// The least TTL of a section and what was found before. Refused exactly where it or a section before it can't be read.
fn least_in(message: &Message, section: Section, before: Duration) -> Result<Duration, ParseError>
    ensures { MatchResult result (λ n. spec.least_in section (section_items section message.now) before ≡ Some n) (λ _. spec.least_in section (section_items section message.now) before ≡ None) }
{
    least_ttl(section, section_of(message, section)?, before)
}

/// The least TTL of a section behind those that are read, and what was found before. One that counts no record is not
/// looked for.
#[tactic(auto, using(crate::proofs::EmptySections::nothing_less))]
fn least_behind(
    message: &Message,
    section: Section,
    before: Duration,
) -> Result<Duration, ParseError>
    requires { IsSome (section_items section message.now) }
    ensures { MatchResult result (λ n. spec.least_in section (section_items section message.now) before ≡ Some n) (λ _. spec.least_in section (section_items section message.now) before ≡ None) }
{
    if is_empty(message, section) {
        return Ok(before);
    }
    least_in(message, section, before)
}

/// The least TTL of a message and what was found before. Refused exactly where it can't be read.
#[tactic(auto, using(crate::proofs::EmptySections::authority_behind_least, crate::proofs::EmptySections::additional_behind_least))]
fn least_of(message: &Message, before: Duration) -> Result<Duration, ParseError>
    ensures { MatchResult result (λ n. spec.least_of message.now before ≡ Some n) (λ _. spec.least_of message.now before ≡ None) }
{
    let least = least_in(message, Section::Answer, before)?;
    let least = least_behind(message, Section::Authority, least)?;
    least_behind(message, Section::Additional, least)
}

/// Whether each of these records is read, and its data by its type.
fn are_known(records: RecordSection<'_>) -> bool
    ensures { result ≡ spec.are_known records.entry }
{
    for record in records {
        let record = match record {
            Err(_) => return false,
            Ok(record) => record,
        };
        if record.data().is_err() {
            return false;
        }
    }
    true
}

/// Whether each record of a section is read, and its data by its type, where those before it are read.
fn section_is_known(message: &Message, section: Section) -> bool
    ensures { result ≡ spec.section_is_known (section_items section message.now) }
{
    match section_of(message, section) {
        Err(_) => false,
        Ok(records) => are_known(records),
    }
}

/// The same of a section behind those that are read. One that counts no record is not looked for.
#[tactic(auto, using(crate::proofs::EmptySections::nothing_unknown))]
fn is_known_behind(message: &Message, section: Section) -> bool
    requires { IsSome (section_items section message.now) }
    ensures { result ≡ spec.section_is_known (section_items section message.now) }
{
    is_empty(message, section) || section_is_known(message, section)
}

/// Whether the data of each record of a message is read by its type.
#[tactic(auto, using(crate::proofs::EmptySections::authority_behind_known, crate::proofs::EmptySections::additional_behind_known))]
fn is_known(message: &Message) -> bool
    ensures { result ≡ spec.is_known message.now }
{
    section_is_known(message, Section::Answer)
        && is_known_behind(message, Section::Authority)
        && is_known_behind(message, Section::Additional)
}

/// The validity of a message by what it says; or 0, where the data of a record can't be read. What is 0 already is not
/// looked into.
#[tactic(auto, using(crate::proofs::WhatIsMet::nothing_either_way))]
fn if_known(message: &Message, validity: Duration) -> Duration
    ensures { result ≡ spec.if_known (spec.is_known message.now) validity }
{
    if validity.as_micros() == 0 {
        return Duration::ZERO;
    }
    if is_known(message) {
        validity
    } else {
        Duration::ZERO
    }
}

/// How long a message may be kept. Refused exactly where it can't be read, unless it is truncated and those are not kept.
fn message_validity(message: &Message, config: &cache::Config) -> Result<Duration, Error>
    ensures met { result ≡ spec.or_unread (spec.validity_met config.now message.now) }
    ensures long { 12 ≤ length message.now }
{
    let _octets = message.as_slice();
    if message.header().tc() && !config.cache_truncated() {
        return Ok(Duration::ZERO);
    }
    let start = shorter(config.max_validity(), limit_of(message, config));
    let validity = least_of(message, start)?;
    Ok(if_known(message, validity))
}

/// The validity of a message.
fn validity_of(message: &Message, config: &cache::Config) -> Result<Duration, Error>
    ensures { result ≡ spec.or_unread (validity_of_message (spec.cached_by config.now) message.now) }
{
    message_validity(message, config)
}

/// How long a result may be kept, in whole microseconds: an error for a time of its own, a truncated message not at all
/// where those are not kept, nor one with a record whose data can't be read by its type, and any other for the least of its
/// TTLs and of the limit of its kind (RFC 2308 3, 5).
/// `MessageParseError` exactly where a message is neither truncated so nor read. It takes no memory.
pub fn validity(outcome: &Result<Message, Error>, config: &cache::Config) -> Result<Duration, Error>
    ensures { result ≡ spec.kept_for config.now outcome.now }
{
    match outcome {
        Err(_) => Ok(config.transport_failure_duration()),
        Ok(message) => validity_of(message, config),
    }
}
