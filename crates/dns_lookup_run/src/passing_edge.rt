//! An edge by which servers that say NOTIMP are passed by.

ghost use Rattle.std.specs.Prelude.{◌≡◌, ◌&&◌, [], None, Some, IfOk, OnOk, length, map, option_map};
ghost use Rattle.dns_values.specs.Source.{one_more};
ghost use Rattle.client_core.specs.Edge.{after_deed, after_fault};
ghost use Rattle.client_core.specs.declared.edge.Deed.{Deed};
ghost use Rattle.dns_lookup_run.specs.Passing.{Gives, added_once, asked_after, asked_under, given_for, is_refusal, place_at, refuser};

use client_core::{Edge, is_fault};
use client_request::{Fault, Out, What};
use dns_base::NoMemory;
use resolv_conf::ServerConf;
use std::alloc::Global;
use std::marker::Model;

/// A place for datagrams, its server, and the id of what was sent there last.
#[derive(Clone, Copy, Debug, PartialEq, Eq)]
pub struct Asked {
    pub place: u64,
    pub server: u32,
    /// None where nothing was sent yet.
    pub id: Option<u16>,
}

/// An edge that gives a datagram by which a server says that it does not know such a request (NOTIMP, RFC 1035 4.1.1) as a fault of
/// its place, so that a client that passes a dead server by asks the next one. The one by which the last of all servers says so
/// is given as it came.
#[derive(Drop)]
pub struct PassingEdge<E: Edge + Drop> {
    edge: E,
    /// How many servers were learned.
    servers: u64,
    places: Vec<Asked>,
    /// The servers that said so, each once.
    refused: Vec<u32>,
    faults: u64,
}

impl<E: Edge + Drop> Model for PassingEdge<E> {
    ghost use Rattle.dns_lookup_run.specs.Passing.{Passing};

    ghost Value = { Passing E };

    ghost view = { λ p. record { edge = p.edge; servers = p.servers; places = p.places.items; refused = p.refused.items; faults = p.faults } };
}

/// Whether a datagram answers what was sent under an id by NOTIMP.
fn is_refusal(id: u16, octets: &[u8]) -> bool
    ensures { result ≡ is_refusal id octets.now }
{
    match octets {
        [first, second, third, fourth, ..] => {
            let came = u16::from_be_bytes([*first, *second]);
            came == id && *third >= 128 && *fourth & 15 == 4
        }
        _ => false,
    }
}

/// A place, if it is this one, and something was sent there.
fn place_at(place: u64, places: &[Asked]) -> Option<Asked>
    ensures { result ≡ place_at place places.now }
{
    for one in places {
        if one.place == place {
            return Some(*one);
        }
    }
    None
}

/// The same place, with the id of what was sent there, if it is this one.
fn asked_under(place: u64, id: u16, one: Asked) -> Asked
    ensures { result ≡ asked_under place id one }
{
    if one.place == place {
        Asked {
            id: Some(id),
            ..one
        }
    } else {
        one
    }
}

fn set_id(places: &mut Vec<Asked>, place: u64, id: u16)
    ensures { places.new.items ≡ map (asked_under place id) places.old.items }
{
    for one in places.iter_mut() {
        *one = asked_under(place, id, *one);
    }
}

/// The place that refused, and its server.
fn refuser(came: &Option<What>, places: &[Asked]) -> Option<(u64, u32)>
    ensures { result ≡ refuser came.now places.now }
{
    let Some(What::Datagram { place, octets }) = came else {
        return None;
    };
    let asked = place_at(*place, places)?;
    let id = asked.id?;
    if is_refusal(id, octets.as_slice()) {
        Some((*place, asked.server))
    } else {
        None
    }
}

/// Adds a server, unless it is there.
fn add_once(refused: &mut Vec<u32>, server: u32) -> Result<(), NoMemory>
    ensures { OnOk result (refused.new.items ≡ added_once server refused.old.items) }
{
    if !refused.contains(&server) {
        refused.push(server)?;
    }
    Ok(())
}

impl<E: Edge + Drop> PassingEdge<E> {
    /// The edge, of which no server was learned. It takes no memory.
    pub fn new(alloc: Global, edge: E) -> PassingEdge<E>
        ensures { result ≡ record { edge = edge; servers = 0; places = []; refused = []; faults = 0 } }
    {
        PassingEdge {
            edge,
            servers: 0,
            places: Vec::new(alloc),
            refused: Vec::new(alloc),
            faults: 0,
        }
    }

    /// Remembers a place that an out opens, and the id of what it sends.
    fn remember(&mut self, out: &Out) -> Result<(), NoMemory>
        ensures places { OnOk result (self.new ≡ record self.old { places = asked_after out.now self.old.places }) }
        ensures edge { self.new.edge ≡ self.old.edge }
        ensures faults { self.new.faults ≡ self.old.faults }
    {
        match out {
            Out::OpenDgram { place, server } => {
                self.places.push(Asked {
                    place: *place,
                    server: *server,
                    id: None,
                })?;
            }
            Out::Send { place, id, .. } => set_id(&mut self.places, *place, *id),
            _ => {}
        }
        Ok(())
    }

    /// What is given where this came.
    fn given(&mut self, came: Option<What>) -> Result<Option<What>, NoMemory>
        ensures given { IfOk result (λ what. given_for (refuser came self.old.places) came self.old ≡ (what, self.new)) }
        ensures edge { self.new.edge ≡ self.old.edge }
    {
        let Some((place, server)) = refuser(&came, &self.places) else {
            return Ok(came);
        };
        add_once(&mut self.refused, server)?;
        if self.refused.len() as u64 >= self.servers {
            return Ok(came);
        }
        let fault = Fault::Other;
        Ok(Some(What::RecvFailed { place, fault }))
    }

    /// Counts what is given, if it tells of a fault.
    fn count(&mut self, what: &Option<What>)
        ensures { self.new ≡ record self.old { faults = after_fault what.now self.old.faults } }
    {
        if is_fault(what) {
            self.faults = self.faults.saturating_add(1);
        }
    }
}

impl<E: Edge + Drop> Edge for PassingEdge<E> {
    ghost deeds = { λ _. None };

    ghost waits = { λ p. E.waits p.edge };

    ghost polls = { λ p. E.polls p.edge };

    ghost faults = { λ p. p.faults };

    fn learn_server(&mut self, server: &ServerConf) -> Result<(), NoMemory> {
        self.servers = self.servers.saturating_add(1);
        self.edge.learn_server(server)
    }

    fn act(&mut self, out: &Out) -> Result<(), NoMemory> {
        self.remember(out)?;
        self.edge.act(out)
    }

    #[tactic(auto, using(crate::proofs::Passed::keeps_faults))]
    fn poll(&mut self) -> Result<Option<What>, NoMemory>
        ensures waits { E.waits self.new.edge ≡ E.waits self.old.edge }
        ensures polls { OnOk result (E.polls self.new.edge ≡ one_more (E.polls self.old.edge)) }
        ensures faults { IfOk result (λ what. self.new.faults ≡ after_fault what self.old.faults) }
        ensures gives { IfOk result (λ what. Gives E.deeds self.old what self.new) }
    {
        let came = self.edge.poll()?;
        let what = self.given(came)?;
        self.count(&what);
        Ok(what)
    }

    fn wait(&mut self, most: u128) {
        self.edge.wait(most);
    }
}
