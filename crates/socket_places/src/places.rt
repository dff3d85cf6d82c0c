//! Places by their numbers.

ghost use Rattle.std.specs.Prelude.{◌≡◌, ◌++◌, [], IfOk, OnOk, OnErr, is_some};
ghost use Rattle.socket_places.specs.Table.{LooksInto, PutsInto, TouchesOnly, and_place, asked_of_all, but_place, numbers_found, place_at};

use crate::network::{Asked, Network};
use crate::place::Place;
use crate::socket::Socket;
use client_request::What;
use dns_values::{NoMemory, Octets};
use std::alloc::Global;
use std::collections::{BTreeMap, VecDeque};
use std::marker::Model;

/// The places that are open, in rising order of their numbers.
pub struct Places<K: Socket + Drop> {
    by_number: BTreeMap<u64, Place<K>>,
}

impl<K: Socket + Drop> Drop for Places<K> {
    fn drop(self) {
        let Places { by_number: _ } = self;
    }
}

impl<K: Socket + Drop> Model for Places<K> {
    ghost use Rattle.std.specs.Prelude.{ℕ, List};
    ghost use Rattle.socket_places.specs.Places.{Place};

    ghost Value = { List (ℕ × Place) };

    ghost view = { λ p. p.by_number.entries };
}

impl<K: Socket + Drop> Places<K> {
    /// No place. It takes no memory.
    pub fn new(alloc: Global) -> Places<K>
        ensures { result ≡ [] }
    {
        Places {
            by_number: BTreeMap::new(alloc),
        }
    }

    /// Whether the place of a number is open.
    pub fn is_open(&self, number: u64) -> bool
        ensures { result ≡ is_some (place_at number self.now) }
    {
        self.by_number.contains_key(&number)
    }

    /// A place of this number is open. One of the same number is closed before.
    pub fn open(&mut self, number: u64, place: Place<K>) -> Result<(), NoMemory>
        ensures ok { OnOk result (self.new ≡ and_place number place self.old) }
        ensures err { OnErr result (self.new ≡ self.old) }
    {
        self.by_number.insert(number, place)?;
        Ok(())
    }

    /// The place of this number is closed: its socket is no longer there.
    pub fn close(&mut self, number: u64)
        ensures { self.new ≡ but_place number self.old }
    {
        drop(self.by_number.remove(&number));
    }

    /// Octets are put at the place of a number: what is told of it.
    pub fn put(&mut self, number: u64, octets: &Octets) -> Result<Option<What>, NoMemory>
        ensures own { IfOk result (PutsInto number octets.now self.old self.new) }
        ensures others { TouchesOnly number self.old self.new }
    {
        match self.by_number.get_mut(&number) {
            Some(place) => place.put(number, octets),
            None => Ok(None),
        }
    }

    /// What happened at the place of a number, if anything did.
    pub fn look(
        &mut self,
        number: u64,
        alloc: Global,
        buf: &mut [u8],
    ) -> Result<Option<What>, NoMemory>
        ensures own { IfOk result (LooksInto number self.old self.new) }
        ensures others { TouchesOnly number self.old self.new }
    {
        match self.by_number.get_mut(&number) {
            Some(place) => place.look(number, alloc, buf),
            None => Ok(None),
        }
    }

    /// What a wait is to look for at each place, behind what stands there.
    pub fn ask(&self, asked: &mut Vec<Asked>) -> Result<(), NoMemory>
        ensures { OnOk result (asked.new.items ≡ asked.old.items ++ asked_of_all self.now) }
    {
        for (_, place) in &self.by_number {
            asked.push(place.asked())?;
        }
        Ok(())
    }

    /// The numbers of the places at which the last wait found something, the first place having this position in what was asked.
    pub fn find<N: Network>(
        &self,
        network: &N,
        first: usize,
        found: &mut VecDeque<u64>,
    ) -> Result<(), NoMemory>
        ensures { OnOk result (found.new.items ≡ found.old.items ++ numbers_found (N.found network.now) first self.now) }
    {
        let mut at = first;
        for (number, _) in &self.by_number {
            if network.is_found(at) {
                found.push_back(*number)?;
            }
            at = at.saturating_add(1);
        }
        Ok(())
    }
}
