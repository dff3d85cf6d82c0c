//! An edge in memory.

ghost use Rattle.std.specs.Prelude.{◌≡◌, ◌⊎◌, [], ◌∷◌, ◌++◌, Some, OnOk, OnErr, IfOk};
ghost use Rattle.dns_values.specs.Source.{one_more};
ghost use Rattle.client_core.specs.declared.edge.Deed.{Deed};
ghost use Rattle.client_core.specs.Edge.{after_fault};
ghost use Rattle.client_core.specs.ListEdge.{later_events, next_event};
ghost use Rattle.client_core.specs.Waiting.{Waited};

use crate::edge::{Deed, Edge, is_fault};
use client_request::{Out, What};
use dns_base::NoMemory;
use resolv_conf::ServerConf;
use std::alloc::Global;
use std::collections::VecDeque;
use std::marker::Model;

/// An edge that gives the events of a list, and none past its end, and keeps what was done with it and the waits that it was told.
/// After want of memory it is as it was.
#[derive(Drop)]
pub struct ListEdge {
    alloc: Global,
    events: VecDeque<Option<What>>,
    deeds: Vec<Deed>,
    waits: Vec<u128>,
    polls: u64,
    faults: u64,
}

impl Model for ListEdge {
    ghost use Rattle.client_core.specs.ListEdge.{Kept};

    ghost Value = { Kept };

    ghost view = { λ e. record { events = e.events.items; deeds = e.deeds.items; waits = e.waits.items; polls = e.polls; faults = e.faults } };
}

/// The same once more.
fn copy_of(alloc: Global, what: &Option<What>) -> Result<Option<What>, NoMemory>
    ensures { IfOk result (λ copy. copy ≡ what.now) }
{
    match what {
        None => Ok(None),
        Some(what) => Ok(Some(what.try_clone(alloc)?)),
    }
}

/// What the next poll gives, once more.
fn next_copy(alloc: Global, events: &VecDeque<Option<What>>) -> Result<Option<What>, NoMemory>
    ensures { IfOk result (λ copy. copy ≡ next_event events.now.items) }
{
    match events.front() {
        Some(what) => copy_of(alloc, what),
        None => Ok(None),
    }
}

impl ListEdge {
    /// An edge that gives these events, poll by poll, with which nothing was done.
    pub fn new(alloc: Global, events: Vec<Option<What>>) -> ListEdge
        ensures { result ≡ record { events = events.items; deeds = []; waits = []; polls = 0; faults = 0 } }
    {
        ListEdge {
            alloc,
            events: VecDeque::from(events),
            deeds: Vec::new(alloc),
            waits: Vec::new(alloc),
            polls: 0,
            faults: 0,
        }
    }

    /// What was done with it, in order.
    pub fn deeds(&self) -> &[Deed]
        ensures { result.now ≡ self.now.deeds }
    {
        self.deeds.as_slice()
    }

    /// The waits that it was told, in microseconds, in order.
    pub fn waits(&self) -> &[u128]
        ensures { result.now ≡ self.now.waits }
    {
        self.waits.as_slice()
    }

    fn keep(&mut self, deed: Deed) -> Result<(), NoMemory>
        ensures ok { OnOk result (self.new ≡ record self.old { deeds = self.old.deeds ++ deed ∷ [] }) }
        ensures err { OnErr result (self.new ≡ self.old) }
    {
        match self.deeds.push(deed) {
            Ok(()) => Ok(()),
            Err(_) => Err(NoMemory),
        }
    }
}

impl Edge for ListEdge {
    ghost deeds = { λ e. Some e.deeds };

    ghost waits = { λ e. Some e.waits };

    ghost polls = { λ e. e.polls };

    ghost faults = { λ e. e.faults };

    fn learn_server(&mut self, server: &ServerConf) -> Result<(), NoMemory>
        ensures deeds { OnOk result (self.new.deeds ≡ self.old.deeds ++ Deed.Learned server.now ∷ []) }
        ensures waits { self.new.waits ≡ self.old.waits }
        ensures polls { self.new.polls ≡ self.old.polls }
        ensures faults { self.new.faults ≡ self.old.faults }
        ensures events { self.new.events ≡ self.old.events }
        ensures err { OnErr result (self.new ≡ self.old) }
    {
        self.keep(Deed::Learned(*server))
    }

    fn act(&mut self, out: &Out) -> Result<(), NoMemory>
        ensures deeds { OnOk result (self.new.deeds ≡ self.old.deeds ++ Deed.Acted out.now ∷ []) }
        ensures waits { self.new.waits ≡ self.old.waits }
        ensures polls { self.new.polls ≡ self.old.polls }
        ensures faults { self.new.faults ≡ self.old.faults }
        ensures events { self.new.events ≡ self.old.events }
        ensures err { OnErr result (self.new ≡ self.old) }
    {
        let out = out.try_clone()?;
        self.keep(Deed::Acted(out))
    }

    fn poll(&mut self) -> Result<Option<What>, NoMemory>
        ensures deeds { IfOk result (λ what. self.new.deeds ≡ self.old.deeds ++ Deed.Polled what ∷ []) }
        ensures waits { self.new.waits ≡ self.old.waits }
        ensures polls { OnOk result (self.new.polls ≡ one_more self.old.polls) }
        ensures faults { IfOk result (λ what. self.new.faults ≡ after_fault what self.old.faults) }
        ensures gives { IfOk result (λ what. what ≡ next_event self.old.events) }
        ensures events { OnOk result (self.new.events ≡ later_events self.old.events) }
        ensures err { OnErr result (self.new ≡ self.old) }
    {
        let copy = next_copy(self.alloc, &self.events)?;
        self.keep(Deed::Polled(copy))?;
        let what = self.events.pop_front().unwrap_or(None);
        self.polls = self.polls.saturating_add(1);
        if is_fault(&what) {
            self.faults = self.faults.saturating_add(1);
        }
        Ok(what)
    }

    /// It doesn't sleep. A wait for which there is no memory isn't kept.
    fn wait(&mut self, most: u128)
        ensures kept { (self.new ≡ record self.old { waits = self.old.waits ++ most ∷ [] }) ⊎ (self.new ≡ self.old) }
        ensures waits { Waited most (Some self.old.waits) (Some self.new.waits) }
        ensures deeds { self.new.deeds ≡ self.old.deeds }
        ensures polls { self.new.polls ≡ self.old.polls }
        ensures faults { self.new.faults ≡ self.old.faults }
    {
        match self.waits.push(most) {
            Ok(()) | Err(_) => {}
        }
    }
}
