//! A whole script.

ghost use Rattle.std.specs.Prelude.{◌≡◌, ◌++◌, ◌==◌, false, true, length, OnOk, IfOk, IfErr};
ghost use Rattle.std.specs.List.{AllByRecursion, flat_map, list_all};
ghost use Rattle.dns_script.specs.Lines.{event_line};
ghost use Rattle.dns_script.specs.ScriptReading.{IsScript};
ghost use Rattle.script_printing.specs.CanBeTold.{CanBeTold, IsEvent, IsInRange, IsUntold, are_told_events, are_told_options, are_told_settings, are_told_transports, is_told_server};
ghost use Rattle.script_printing.specs.Texts.{first_lane, head_text, script_text_of};

use crate::events::{event_is_in_range, push_event};
use crate::head::{head_is_in_range, head_text};
use crate::told::{
    events_are_told, options_are_told, servers_are_told, settings_are_told, transports_are_told,
};
use crate::untold::Untold;
use client_request::{Event, Outs, Row};
use dns_base::NoMemory;
use dns_script::Script;
use std::alloc::Global;

/// The events of the first lane.
fn first_lane(script: &Script) -> &[Event]
    ensures { result.now ≡ first_lane script.entry.now.lanes }
{
    match script.lanes.as_slice() {
        [] => &[],
        [events, ..] => events.as_slice(),
    }
}

/// Adds the line of an event.
fn push_line(alloc: Global, text: &mut Vec<u8>, event: &Event) -> Result<(), NoMemory>
    ensures { OnOk result (text.new.items ≡ text.old.items ++ event_line event.now) }
{
    let mut row = Row {
        event: event.try_clone(alloc)?,
        outs: Outs::new(alloc),
    };
    push_event(alloc, text, &mut row)
}

/// Adds the line of each event.
fn push_lines(alloc: Global, text: &mut Vec<u8>, events: &[Event]) -> Result<(), NoMemory>
    ensures { OnOk result (text.new.items ≡ text.old.items ++ flat_map event_line events.now) }
{
    for event in events {
        push_line(alloc, text, event)?;
    }
    Ok(())
}

#[tactic(auto, using(crate::proofs::InRange::all_events, crate::proofs::InRange::one_event_more))]
fn events_are_in_range(events: &[Event])
    ensures { AllByRecursion IsEvent events.now }
{
    for event in events {
        event_is_in_range(event);
    }
}

/// That a script is told by its text, or why it is not.
fn check(script: &Script) -> Result<(), Untold>
    ensures told { OnOk result (CanBeTold script.now) }
    ensures untold { IfErr result (λ e. IsUntold e script.now) }
{
    if !servers_are_told(script.conf.servers.as_slice()) {
        return Err(Untold::Server);
    }
    if !options_are_told(&script.conf.options) {
        return Err(Untold::Options);
    }
    if !settings_are_told(&script.cache) {
        return Err(Untold::Settings);
    }
    if !transports_are_told(&script.transports) {
        return Err(Untold::Transports);
    }
    if script.lanes.len() != 1 {
        return Err(Untold::Lanes);
    }
    if !events_are_told(first_lane(script)) {
        return Err(Untold::Event);
    }
    Ok(())
}

/// The numbers of a script have the ranges of their types.
fn script_is_in_range(script: &Script)
    ensures { IsInRange script.now }
{
    head_is_in_range(&script.conf, &script.transports, script.words.as_slice());
    events_are_in_range(first_lane(script));
}

/// The text of a script.
fn text_of(alloc: Global, script: &Script) -> Result<Vec<u8>, NoMemory>
    ensures { IfOk result (λ v. v.items ≡ script_text_of script.now) }
{
    let mut text = head_text(
        alloc,
        &script.conf,
        script.redundant,
        &script.cache,
        &script.transports,
        script.words.as_slice(),
    )?;
    push_lines(alloc, &mut text, first_lane(script))?;
    Ok(text)
}

/// The text of a script of one lane, which is read back as that script.
///
/// `Server`, `Options`, `Settings`, `Transports`, `Lanes` or `Event`, the first of these that is so, where its text would not tell it, and
/// `NoMemory`.
#[tactic(auto, using(crate::proofs::Scripts::printed_is_read))]
pub fn script_text(alloc: Global, script: &Script) -> Result<Vec<u8>, Untold>
    ensures text { IfOk result (λ v. v.items ≡ script_text_of script.now) }
    ensures back { IfOk result (λ v. IsScript false v.items script.now) }
    ensures told { OnOk result (CanBeTold script.now) }
    ensures untold { IfErr result (λ e. IsUntold e script.now) }
{
    check(script)?;
    script_is_in_range(script);
    match text_of(alloc, script) {
        Ok(text) => Ok(text),
        Err(NoMemory) => Err(Untold::NoMemory),
    }
}
