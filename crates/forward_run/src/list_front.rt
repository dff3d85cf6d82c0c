//! A front in memory.

ghost use Rattle.std.specs.Prelude.{◌≡◌, [], ◌∷◌, ◌++◌, None, Some, Err, OnOk, OnErr, IfOk, IfSome};
ghost use Rattle.dns_values.specs.Source.{Rose, one_more};
ghost use Rattle.forward_run.specs.Front.{later_events, next_event};
ghost use Rattle.forward_run.specs.declared.front.FrontDeed.{FrontDeed};

use crate::front::{Front, FrontDeed};
use client_request::Fault;
use dns_base::NoMemory;
use front_peers::{FrontOut, FrontWhat};
use resolv_conf::ServerConf;
use std::alloc::Global;
use std::collections::VecDeque;
use std::marker::Model;

/// A front that gives the events of a list, and none past its end, and keeps what was done with it. After want of memory it is as
/// it was, but for the count of faults.
#[derive(Drop)]
pub struct ListFront {
    alloc: Global,
    events: VecDeque<Option<FrontWhat>>,
    listen_fault: Option<Fault>,
    deeds: Vec<FrontDeed>,
    polls: u64,
    faults: u64,
}

impl Model for ListFront {
    ghost use Rattle.forward_run.specs.Front.{Kept};

    ghost Value = { Kept };

    ghost view = { λ f. record { events = f.events.items; listen_fault = f.listen_fault; deeds = f.deeds.items; polls = f.polls; faults = f.faults } };
}

/// The same once more.
fn copy_of(alloc: Global, what: &Option<FrontWhat>) -> Result<Option<FrontWhat>, NoMemory>
    ensures { IfOk result (λ copy. copy ≡ what.now) }
{
    match what {
        None => Ok(None),
        Some(what) => Ok(Some(what.try_clone(alloc)?)),
    }
}

/// What the next poll gives, once more.
fn next_copy(
    alloc: Global,
    events: &VecDeque<Option<FrontWhat>>,
) -> Result<Option<FrontWhat>, NoMemory>
    ensures { IfOk result (λ copy. copy ≡ next_event events.now.items) }
{
    match events.front() {
        Some(what) => copy_of(alloc, what),
        None => Ok(None),
    }
}

impl ListFront {
    /// A front that gives these events, poll by poll, with which nothing was done, and that fails to listen by this fault, if there
    /// is one.
    pub fn new(
        alloc: Global,
        events: Vec<Option<FrontWhat>>,
        listen_fault: Option<Fault>,
    ) -> ListFront
        ensures { result ≡ record { events = events.items; listen_fault = listen_fault; deeds = []; polls = 0; faults = 0 } }
    {
        ListFront {
            alloc,
            events: VecDeque::from(events),
            listen_fault,
            deeds: Vec::new(alloc),
            polls: 0,
            faults: 0,
        }
    }

    /// What was done with it, in order.
    pub fn deeds(&self) -> &[FrontDeed]
        ensures { result.now ≡ self.now.deeds }
    {
        self.deeds.as_slice()
    }

    fn keep(&mut self, deed: FrontDeed) -> Result<(), NoMemory>
        ensures ok { OnOk result (self.new ≡ record self.old { deeds = self.old.deeds ++ deed ∷ [] }) }
        ensures err { OnErr result (self.new ≡ self.old) }
    {
        match self.deeds.push(deed) {
            Ok(()) => Ok(()),
            Err(_) => Err(NoMemory),
        }
    }

    fn count_fault(&mut self)
        ensures count { self.new ≡ record self.old { faults = one_more self.old.faults } }
        ensures rose { Rose self.old.faults self.new.faults }
    {
        self.faults = self.faults.saturating_add(1);
    }
}

impl Front for ListFront {
    ghost deeds = { λ f. Some f.deeds };

    ghost polls = { λ f. f.polls };

    ghost faults = { λ f. f.faults };

    fn listen(&mut self, port: u16) -> Result<(), Fault>
        ensures deeds { OnOk result (self.new.deeds ≡ self.old.deeds ++ FrontDeed.Listens port ∷ []) }
        ensures polls { self.new.polls ≡ self.old.polls }
        ensures refused { OnErr result (Rose self.old.faults self.new.faults) }
        ensures faults { OnOk result (self.new.faults ≡ self.old.faults) }
        ensures events { self.new.events ≡ self.old.events }
        ensures listen_fault { self.new.listen_fault ≡ self.old.listen_fault }
        ensures fails { IfSome self.old.listen_fault (λ fault. result ≡ Err fault) }
        ensures err { OnErr result (self.new ≡ record self.old { faults = one_more self.old.faults }) }
    {
        if let Some(fault) = self.listen_fault {
            self.count_fault();
            return Err(fault);
        }
        match self.keep(FrontDeed::Listens(port)) {
            Ok(()) => Ok(()),
            Err(NoMemory) => {
                self.count_fault();
                Err(Fault::Other)
            }
        }
    }

    fn learn_server(&mut self, server: &ServerConf) -> Result<(), NoMemory>
        ensures deeds { OnOk result (self.new.deeds ≡ self.old.deeds ++ FrontDeed.Learned server.now ∷ []) }
        ensures polls { self.new.polls ≡ self.old.polls }
        ensures faults { self.new.faults ≡ self.old.faults }
        ensures events { self.new.events ≡ self.old.events }
        ensures listen_fault { self.new.listen_fault ≡ self.old.listen_fault }
        ensures err { OnErr result (self.new ≡ self.old) }
    {
        self.keep(FrontDeed::Learned(*server))
    }

    fn act(&mut self, out: &FrontOut) -> Result<(), NoMemory>
        ensures deeds { OnOk result (self.new.deeds ≡ self.old.deeds ++ FrontDeed.Acted out.now ∷ []) }
        ensures polls { self.new.polls ≡ self.old.polls }
        ensures faults { self.new.faults ≡ self.old.faults }
        ensures events { self.new.events ≡ self.old.events }
        ensures listen_fault { self.new.listen_fault ≡ self.old.listen_fault }
        ensures err { OnErr result (self.new ≡ self.old) }
    {
        let out = out.try_clone()?;
        self.keep(FrontDeed::Acted(out))
    }

    fn poll(&mut self) -> Result<Option<FrontWhat>, NoMemory>
        ensures deeds { IfOk result (λ what. self.new.deeds ≡ self.old.deeds ++ FrontDeed.Polled what ∷ []) }
        ensures polls { OnOk result (self.new.polls ≡ one_more self.old.polls) }
        ensures faults { self.new.faults ≡ self.old.faults }
        ensures listen_fault { self.new.listen_fault ≡ self.old.listen_fault }
        ensures gives { IfOk result (λ what. what ≡ next_event self.old.events) }
        ensures events { OnOk result (self.new.events ≡ later_events self.old.events) }
        ensures err { OnErr result (self.new ≡ self.old) }
    {
        let copy = next_copy(self.alloc, &self.events)?;
        self.keep(FrontDeed::Polled(copy))?;
        let what = self.events.pop_front().unwrap_or(None);
        self.polls = self.polls.saturating_add(1);
        Ok(what)
    }
}
