//! A door in memory.

ghost use Rattle.std.specs.Prelude.{◌≡◌, ◌++◌, [], ◌∷◌, Some, IfOk, OnErr, OnOk};
ghost use Rattle.forward_run.specs.declared.front.FrontDeed.{FrontDeed};
ghost use Rattle.forward_workers.specs.Doors.{later, next_of, taken};

use crate::door::Door;
use dns_base::NoMemory;
use forward_run::FrontDeed;
use front_peers::{FrontOut, FrontWhat};
use std::alloc::Global;
use std::collections::VecDeque;
use std::marker::Model;

/// A door that gives what stands in a list, and nothing past its end, and keeps what was done with it. After want of memory it is not to
/// be used again.
#[derive(Drop)]
pub struct ListDoor {
    alloc: Global,
    whats: VecDeque<FrontWhat>,
    deeds: Vec<FrontDeed>,
}

impl Model for ListDoor {
    ghost use Rattle.forward_workers.specs.Doors.{Kept};

    ghost Value = { Kept };

    ghost view = { λ d. record { whats = d.whats.items; deeds = d.deeds.items } };
}

impl ListDoor {
    /// A door that gives these, one after another, with which nothing was done.
    pub fn new(alloc: Global, whats: Vec<FrontWhat>) -> ListDoor
        ensures { result ≡ record { whats = whats.items; deeds = [] } }
    {
        ListDoor {
            alloc,
            whats: VecDeque::from(whats),
            deeds: Vec::new(alloc),
        }
    }

    /// What was done with it, in order.
    pub fn deeds(&self) -> &[FrontDeed]
        ensures { result.now ≡ self.now.deeds }
    {
        self.deeds.as_slice()
    }

    fn keep(&mut self, deed: FrontDeed) -> Result<(), NoMemory>
        ensures { OnOk result (self.new ≡ record self.old { deeds = self.old.deeds ++ deed ∷ [] }) }
    {
        self.deeds.push(deed)?;
        Ok(())
    }
}

impl Door for ListDoor {
    ghost deeds = { λ d. Some d.deeds };

    fn wait(&mut self) -> Result<(), NoMemory>
        ensures { self.new ≡ self.old }
    {
        Ok(())
    }

    fn has_come(&self) -> bool {
        !self.whats.is_empty()
    }

    fn take(&mut self) -> Result<Option<FrontWhat>, NoMemory>
        ensures what { IfOk result (λ what. what ≡ next_of self.old.whats) }
        ensures deeds { IfOk result (λ what. self.new.deeds ≡ self.old.deeds ++ taken what) }
        ensures left { OnOk result (self.new.whats ≡ later self.old.whats) }
    {
        let Some(what) = self.whats.pop_front() else {
            return Ok(None);
        };
        let copy = what.try_clone(self.alloc)?;
        self.keep(FrontDeed::Polled(Some(copy)))?;
        Ok(Some(what))
    }

    fn answer(&mut self, out: &FrontOut) -> Result<(), NoMemory>
        ensures deeds { OnOk result (self.new.deeds ≡ self.old.deeds ++ FrontDeed.Acted out.now ∷ []) }
        ensures left { OnOk result (self.new.whats ≡ self.old.whats) }
    {
        let out = out.try_clone()?;
        self.keep(FrontDeed::Acted(out))
    }

    fn wake(&mut self)
        ensures { self.new ≡ self.old }
    {}

    fn flush(&mut self)
        ensures { self.new ≡ self.old }
    {}
}
