//! The servers of a service.

ghost use Rattle.std.specs.Prelude.{◌≡◌, ◌≤◌, ◌<◌, ◌+◌, ◌++◌, [], ◌∷◌, length, map, IfOk, IfErr, OnOk, OnErr, MatchOption};
ghost use Rattle.std.specs.Iterator.{YieldsFirst, item_count};
ghost use Rattle.resolv_lookup.specs.declared.fault.SrvError.TheVariants as errors;
ghost use Rattle.resolv_lookup.specs.Asked.{Asks};
ghost use Rattle.resolv_lookup.specs.Order.{IsOrder, behind};
ghost use Rattle.resolv_lookup.specs.Services.{service_in, fallback_at, IsServed, LooksUpSrv, IsLong, Fits, AsksNothing, IsNameFault, IsAnswerFault, SrvIsCounted};

use crate::fault::SrvError;
use crate::resolver::{AsMessage, Resolver};
use crate::service::{Service, service_in};
use crate::srv_item::{Srv, SrvItem};
use crate::srv_order::order;
use client_request::Words;
use dns_base::{Message, Name, NoMemory, RelativeName, Rtype, Seq};
use std::alloc::Global;
use std::collections::VecDeque;
use std::marker::Model;
use std::sync::Arc;

/// Asks for the servers of a service at a name: for the SRV records of `service` before `name`.
///
/// None says that the service is decidedly not there. Where no server is listed, the one item is `name`
/// at the port `fallback_port`.
pub fn lookup_srv<R: Resolver, W: Words>(
    alloc: Global,
    resolver: &mut R,
    words: &mut W,
    service: &RelativeName,
    name: &Name,
    fallback_port: u16,
) -> Result<Option<FoundSrvs>, SrvError>
    ensures long { IsLong (service.now ++ name.now) → AsksNothing resolver.old resolver.new (W.stream words.old) (W.stream words.new) result }
    ensures long_only { result ≡ Err errors.LongName → IsLong (service.now ++ name.now) }
    ensures asked { Fits (service.now ++ name.now) → LooksUpSrv (Asks R.says R.asked) (service.now ++ name.now) name.now fallback_port
        resolver.old resolver.new (W.stream words.old) (W.stream words.new) result }
    ensures count { R.faults resolver.old ≤ R.faults resolver.new }
    ensures failed { IfErr result (SrvIsCounted (R.faults resolver.old) (R.faults resolver.new)) }
{
    let full = full_name(alloc, service, name)?;
    let answer = resolver.query(alloc, &full, Rtype::SRV)?;
    serve(alloc, words, answer.as_message(), name, fallback_port)
}

/// The name of a service at a name.
fn full_name(alloc: Global, service: &RelativeName, name: &Name) -> Result<Name, SrvError>
    ensures made { IfOk result (λ full. (full ≡ service.now ++ name.now) × Fits full) }
    ensures long { result ≡ Err errors.LongName → IsLong (service.now ++ name.now) }
    ensures faults { IfErr result IsNameFault }
{
    let full = service.chain(alloc, name)?;
    let _octets = full.as_octets();
    Ok(full)
}

/// What an answer gives of a service.
fn serve<W: Words>(
    alloc: Global,
    words: &mut W,
    answer: &Message,
    name: &Name,
    fallback_port: u16,
) -> Result<Option<FoundSrvs>, SrvError>
    ensures served { IsServed (service_in answer.now) (fallback_at name.now fallback_port) (W.stream words.old) (W.stream words.new) result }
    ensures faults { IfErr result IsAnswerFault }
{
    match service_in(alloc, answer)? {
        Service::Absent => Ok(None),
        Service::Unlisted => Ok(Some(FoundSrvs::fallback(alloc, name, fallback_port)?)),
        Service::Listed(items) => Ok(Some(FoundSrvs::ordered(items, words)?)),
    }
}

/// The servers of a service that are left, in the order in which they are tried.
#[derive(Debug, Drop)]
pub struct FoundSrvs {
    items: VecDeque<SrvItem>,
}

impl Model for FoundSrvs {
    ghost use Rattle.std.specs.Prelude.{List};
    ghost use Rattle.resolv_lookup.specs.Items.{Item};

    ghost Value = { List Item };

    ghost view = { λ f. f.items.items };
}

impl FoundSrvs {
    /// A name itself, at a port.
    fn fallback(alloc: Global, name: &Name, port: u16) -> Result<FoundSrvs, NoMemory>
        ensures { IfOk result (λ f. f ≡ fallback_at name.now port ∷ []) }
    {
        let srv = Srv {
            priority: 0,
            weight: 0,
            port,
            target: name.try_clone(alloc)?,
        };
        let mut items = VecDeque::new(alloc);
        let none = Arc::new(alloc, Vec::new(alloc))?;
        items.push_back(SrvItem::new(srv, none))?;
        Ok(FoundSrvs { items })
    }

    /// Items in the order in which they are tried. After `NoMemory` no word was drawn.
    fn ordered<W: Words>(items: Seq<SrvItem>, words: &mut W) -> Result<FoundSrvs, NoMemory>
        ensures ordered { IfOk result (IsOrder (W.stream words.old) items) }
        ensures drawn { OnOk result (W.stream words.new ≡ behind (length items) (W.stream words.old)) }
        ensures none_drawn { OnErr result (W.stream words.new ≡ W.stream words.old) }
    {
        let mut items = items.into_vec();
        order(&mut items, words)?;
        Ok(FoundSrvs {
            items: VecDeque::from(items),
        })
    }

    /// The next server. It takes no memory.
    pub fn next_item(&mut self) -> Option<SrvItem>
        ensures { MatchOption result ((self.old ≡ []) × (self.new ≡ [])) (λ item. self.old ≡ item ∷ self.new) }
    {
        self.items.pop_front()
    }

    /// Where the servers are, in order. It takes no memory.
    pub fn into_srvs(self) -> IntoSrvs
        ensures { result ≡ map (λ item. item.srv) self }
    {
        IntoSrvs { found: self }
    }

    /// Adds the items of `other`, and orders them all anew, with a word drawn for each. After `NoMemory`
    /// nothing has changed, and no word was drawn.
    pub fn merge<W: Words>(
        &mut self,
        alloc: Global,
        words: &mut W,
        other: &FoundSrvs,
    ) -> Result<(), NoMemory>
        ensures ordered { OnOk result (IsOrder (W.stream words.old) (self.old ++ other.now) self.new) }
        ensures drawn { OnOk result (W.stream words.new ≡ behind (length self.old + length other.now) (W.stream words.old)) }
        ensures same { OnErr result (self.new ≡ self.old) }
        ensures none_drawn { OnErr result (W.stream words.new ≡ W.stream words.old) }
    {
        let mut items = Vec::new(alloc);
        push_copies(alloc, &mut items, self)?;
        push_copies(alloc, &mut items, other)?;
        *self = FoundSrvs::ordered(Seq::from_vec(items), words)?;
        Ok(())
    }

    /// The same servers in the same order.
    pub fn try_clone(&self, alloc: Global) -> Result<FoundSrvs, NoMemory>
        ensures { IfOk result (λ f. f ≡ self.now) }
    {
        let mut items = Vec::new(alloc);
        push_copies(alloc, &mut items, self)?;
        Ok(FoundSrvs {
            items: VecDeque::from(items),
        })
    }
}

/// Adds copies of the servers that are left.
fn push_copies(alloc: Global, items: &mut Vec<SrvItem>, found: &FoundSrvs) -> Result<(), NoMemory>
    ensures { OnOk result (items.new.items ≡ items.old.items ++ found.now) }
{
    for item in &found.items {
        items.push(item.try_clone(alloc)?)?;
    }
    Ok(())
}

/// Where the servers of a service are that are left to give, in order.
#[derive(Debug, Drop)]
pub struct IntoSrvs {
    found: FoundSrvs,
}

impl Model for IntoSrvs {
    ghost use Rattle.std.specs.Prelude.{List, map};
    ghost use Rattle.resolv_lookup.specs.declared.srv_item.Srv.{Srv};

    ghost Value = { List Srv };

    ghost view = { λ f. map (λ item. item.srv) f.found };
}

impl Iterator for IntoSrvs {
    type Item = Srv;

    ghost next_gives = { YieldsFirst (λ s. s) };

    ghost remaining = { item_count (λ s. s) };

    fn next(&mut self) -> Option<Srv> {
        let item = self.found.next_item()?;
        Some(item.into_srv())
    }
}
