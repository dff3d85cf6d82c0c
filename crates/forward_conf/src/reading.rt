//! The configuration whose servers are asked.

ghost use Rattle.std.specs.Prelude.{◌≡◌, ◌≢◌, false, IfErr, IfOk, IfSome, OnOk};
ghost use Rattle.command_parts.specs.Conf.{Configures};
ghost use Rattle.forward_conf.specs.Reading.{AnyNotes, IsConfAsked, IsNoted, IsReadBy, IsReadCause, IsReadyIn, IsRefusalBy, IsUntakenIn, NotesIn};
ghost use Rattle.forward_conf.specs.Sentences.{status_of};
ghost use Rattle.forward_words.specs.declared.options.Policy.{Policy};
ghost use Rattle.resolv_conf.specs.Final.{finalized};
ghost use Rattle.resolver_policy.specs.Found.{IsFoundFrom, takes_no_server};
ghost use Rattle.resolver_policy.specs.Practice.{practical_options};

use crate::cause::Cause;
use crate::settings::conf_of;
use crate::telling::tell_notes;
use client_request::Words;
use command_parts::statuses::SOURCE_FAULT;
use command_parts::{Ending, configuration};
use dns_values::{ReadFault, Sink, Source};
use forward_words::{Options, Policy};
use resolv_conf::ResolvConf;
use resolver_policy::{Found, practical_options};
use std::alloc::Global;

/// The configuration that a source gives to the letter.
fn read_exactly<S: Source>(alloc: Global, source: &mut S) -> Result<ResolvConf, Cause>
    ensures read { IfOk result (λ conf. IfSome (S.left source.old) (λ text. Configures text conf)) }
    ensures cause { IfErr result (IsReadCause Policy.Plain (S.left source.old) (S.faults source.old) (S.faults source.new)) }
{
    match configuration(alloc, source) {
        Ok(conf) => Ok(conf),
        Err(Ending::Says(_, line)) => Err(Cause::Refused(line)),
        Err(Ending::Silent(status)) => {
            if status == SOURCE_FAULT {
                Err(Cause::SourceFault)
            } else {
                Err(Cause::NoMemory)
            }
        }
    }
}

/// A refusal by this line, unless memory ran out.
fn refused(alloc: Global, line: &str) -> Cause
    ensures { IsRefusalBy line.now result }
{
    match Vec::from_slice(alloc, line.as_bytes()) {
        Ok(line) => Cause::Refused(line),
        Err(_) => Cause::NoMemory,
    }
}

/// What is found in a source.
fn find<S: Source>(alloc: Global, source: &mut S) -> Result<Found, Cause>
    ensures found { IfOk result (λ found. IfSome (S.left source.old) (λ text. IsFoundFrom practical_options text found)) }
    ensures cause { IfErr result (IsReadCause Policy.Practice (S.left source.old) (S.faults source.old) (S.faults source.new)) }
{
    match Found::read_from(alloc, practical_options(alloc), source) {
        Ok(found) => Ok(found),
        Err(ReadFault::Failed) => Err(Cause::SourceFault),
        Err(ReadFault::TooLong) => Err(refused(alloc, "input too long\n")),
        Err(ReadFault::NoMemory) => Err(Cause::NoMemory),
    }
}

/// The configuration that was found, finalized. It is refused where it names servers and none of them is taken.
fn ready(alloc: Global, found: Found) -> Result<ResolvConf, Cause>
    ensures takes { OnOk result (takes_no_server found ≡ false) }
    ensures conf { IfOk result (λ conf. conf ≡ finalized found.conf) }
    ensures cause { IfErr result (IsUntakenIn found) }
{
    if found.takes_no_server() {
        return Err(refused(alloc, "no nameserver line is taken\n"));
    }
    let Found { mut conf, notes } = found;
    conf.finalize(alloc)?;
    Ok(conf)
}

/// The configuration that is found in a source, of which it is told.
fn read_as_found<S: Source, L: Sink>(
    alloc: Global,
    source: &mut S,
    errors: &mut L,
) -> Result<ResolvConf, Cause>
    ensures read { IfOk result (λ conf. IfSome (S.left source.old) (λ text. IsReadyIn text conf)) }
    ensures noted { OnOk result (IsNoted (NotesIn Policy.Practice (S.left source.old)) (L.held errors.old) (L.held errors.new) (L.faults errors.old) (L.faults errors.new)) }
    ensures told { IfErr result (λ cause. status_of cause ≢ 6 → IsNoted AnyNotes (L.held errors.old) (L.held errors.new) (L.faults errors.old) (L.faults errors.new)) }
    ensures cause { IfErr result (IsReadCause Policy.Practice (S.left source.old) (S.faults source.old) (S.faults source.new)) }
{
    let found = find(alloc, source)?;
    tell_notes(alloc, found.notes.as_slice(), errors)?;
    ready(alloc, found)
}

/// The configuration that a source gives, read as the policy has it.
fn read_by<S: Source, L: Sink>(
    alloc: Global,
    policy: Policy,
    source: &mut S,
    errors: &mut L,
) -> Result<ResolvConf, Cause>
    ensures read { IfOk result (λ conf. IfSome (S.left source.old) (λ text. IsReadBy policy text conf)) }
    ensures noted { OnOk result (IsNoted (NotesIn policy (S.left source.old)) (L.held errors.old) (L.held errors.new) (L.faults errors.old) (L.faults errors.new)) }
    ensures told { IfErr result (λ cause. status_of cause ≢ 6 → IsNoted AnyNotes (L.held errors.old) (L.held errors.new) (L.faults errors.old) (L.faults errors.new)) }
    ensures cause { IfErr result (IsReadCause policy (S.left source.old) (S.faults source.old) (S.faults source.new)) }
{
    match policy {
        Policy::Plain => read_exactly(alloc, source),
        Policy::Practice => read_as_found(alloc, source, errors),
    }
}

/// The configuration whose servers are asked, of the one that a source gives, as the options say. In practice it is read as it is
/// found: of lines that aren't taken as they stand it is told.
pub fn conf_asked<S: Source, L: Sink, W: Words>(
    alloc: Global,
    options: &Options,
    source: &mut S,
    errors: &mut L,
    rng: &mut W,
) -> Result<ResolvConf, Cause>
    ensures asked { IfOk result (λ conf. IfSome (S.left source.old) (λ text. IsConfAsked options.now text (W.stream rng.old) conf (W.stream rng.new))) }
    ensures noted { OnOk result (IsNoted (NotesIn options.now.policy (S.left source.old)) (L.held errors.old) (L.held errors.new) (L.faults errors.old) (L.faults errors.new)) }
    ensures told { IfErr result (λ cause. status_of cause ≢ 6 → IsNoted AnyNotes (L.held errors.old) (L.held errors.new) (L.faults errors.old) (L.faults errors.new)) }
    ensures cause { IfErr result (IsReadCause options.now.policy (S.left source.old) (S.faults source.old) (S.faults source.new)) }
{
    let read = read_by(alloc, options.policy, source, errors)?;
    let conf = conf_of(alloc, options, read, rng)?;
    Ok(conf)
}
