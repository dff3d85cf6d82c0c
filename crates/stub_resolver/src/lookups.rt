//! Lookups over a stub resolver.

ghost use Rattle.std.specs.Prelude.{◌≡◌, ◌≤◌, ◌++◌, None, true, Err, IfErr, IfOk, IsErrOf};
ghost use Rattle.client_request.specs.Response.{IsRefusal};
ghost use Rattle.resolv_lookup.specs.Asked.{IsCounted, IsTold, asking};
ghost use Rattle.resolv_lookup.specs.Hosts.{HostIsCounted, LooksUpHost};
ghost use Rattle.resolv_lookup.specs.Names.{LooksUpAddr};
ghost use Rattle.resolv_lookup.specs.Search.{SearchesHost};
ghost use Rattle.resolv_lookup.specs.Services.{AsksNothing, IsLong, SrvIsCounted};
ghost use Rattle.resolv_lookup.specs.declared.fault.SrvError.TheVariants as services;
ghost use Rattle.stub_resolver.specs.All.{LooksUpHosts, StopFor, all_found, host_questions};
ghost use Rattle.stub_resolver.specs.Both.{AsksStubBoth, AsksTogether};
ghost use Rattle.stub_resolver.specs.Queries.{AsksStub, FindsSrv, Queries, question};
ghost use Rattle.stub_resolver.specs.Stub.{seen};

use crate::all::{Got, Question};
use crate::stub::StubResolver;
use client_core::{Clock, Edge};
use client_request::{Error, Words};
use dns_base::{IpAddr, Name, NoMemory, RelativeName, Rtype};
use resolv_lookup::{
    Answer, FoundAddrs, FoundHosts, FoundSrvs, HostFault, QueryFault, Resolver, SearchIter,
    SearchNames, SrvError, lookup_addr, lookup_host, lookup_srv, search_host,
};
use std::alloc::Global;
use std::collections::VecDeque;

/// The questions for the addresses of hosts: of each its A records, then its AAAA records.
fn host_questions(alloc: Global, names: &[Name]) -> Result<Vec<Question>, NoMemory>
    ensures { IfOk result (λ r. r.items ≡ host_questions names.now) }
{
    let mut questions = Vec::new(alloc);
    for name in names {
        questions.push(Question::new(name.try_clone(alloc)?, Rtype::A))?;
        questions.push(Question::new(name.try_clone(alloc)?, Rtype::AAAA))?;
    }
    Ok(questions)
}

/// What is found of each host in what its two questions got.
fn all_found<E: Edge + Drop, C: Clock + Drop, W: Words + Drop>(
    alloc: Global,
    gots: Vec<Got>,
) -> Result<Vec<Result<FoundHosts<StubResolver<E, C, W>>, HostFault>>, NoMemory>
    ensures { IfOk result (λ r. r.items ≡ all_found gots.items) }
{
    let mut left = VecDeque::from(gots);
    let mut found = Vec::new(alloc);
    while let Some(a) = left.pop_front() {
        match left.pop_front() {
            Some(aaaa) => found.push(FoundHosts::new(aaaa, a))?,
            None => return Ok(found),
        }
    }
    Ok(found)
}

/// It counts its faults, tells no list of its questions, and asks two of a name side by side.
impl<E: Edge + Drop, C: Clock + Drop, W: Words + Drop> Resolver for StubResolver<E, C, W> {
    type Answer = Answer;

    ghost says = { λ old one new. Queries (seen E.deeds E.waits E.polls C.given W.stream) true (question one.name one.rtype.0) old new one.got };

    ghost together = { AsksTogether (seen E.deeds E.waits E.polls C.given W.stream) };

    ghost asked = { λ _. None };

    ghost faults = { λ s. s.faults };

    fn query(&mut self, alloc: Global, name: &Name, rtype: Rtype) -> Result<Answer, QueryFault>
        ensures says { Queries (seen E.deeds E.waits E.polls C.given W.stream) true (question name.now rtype.0) self.old self.new result }
        ensures asked { IsTold (asking name.now rtype.0 result) None None }
        ensures count { self.old.faults ≤ self.new.faults }
        ensures failed { IfErr result (IsCounted self.old.faults self.new.faults) }
    {
        StubResolver::query(self, alloc, name, rtype)
    }

    fn query_both(
        &mut self,
        alloc: Global,
        name: &Name,
        first: Rtype,
        second: Rtype,
    ) -> (Result<Answer, QueryFault>, Result<Answer, QueryFault>) {
        StubResolver::query_both(self, alloc, name, first, second)
    }
}

impl<E: Edge + Drop, C: Clock + Drop, W: Words + Drop> SearchNames for StubResolver<E, C, W> {
    ghost suffixes = { λ s. s.options.search };

    fn search_iter(&self) -> SearchIter<'_> {
        SearchIter::new(&self.options().search)
    }
}

impl<E: Edge + Drop, C: Clock + Drop, W: Words + Drop> StubResolver<E, C, W> {
    /// Asks for the names of an address, as `resolv_lookup::lookup_addr` does.
    pub fn lookup_addr(
        &mut self,
        alloc: Global,
        addr: IpAddr,
    ) -> Result<FoundAddrs<StubResolver<E, C, W>>, QueryFault>
        ensures asked { LooksUpAddr (AsksStub (seen E.deeds E.waits E.polls C.given W.stream)) addr self.old self.new result }
        ensures count { self.old.faults ≤ self.new.faults }
        ensures failed { IfErr result (IsCounted self.old.faults self.new.faults) }
    {
        lookup_addr(alloc, self, addr)
    }

    /// Asks for the addresses of a host, as `resolv_lookup::lookup_host` does: both questions wait at once.
    pub fn lookup_host(
        &mut self,
        alloc: Global,
        name: &Name,
    ) -> Result<FoundHosts<StubResolver<E, C, W>>, HostFault>
        ensures asked { LooksUpHost (AsksStubBoth (seen E.deeds E.waits E.polls C.given W.stream)) name.now self.old self.new result }
        ensures count { self.old.faults ≤ self.new.faults }
        ensures failed { IfErr result (HostIsCounted self.old.faults self.new.faults) }
    {
        lookup_host(alloc, self, name)
    }

    /// Asks for the addresses of many hosts at once, of each as `lookup_host` does, and gives what is found of each, in their order. It
    /// returns when the last reply is there, and so in the time of the slowest, whatever becomes of the others.
    ///
    /// The faults of each are those of `lookup_host`. An error of them all is one of `resolve_all`. Where memory runs out before anything
    /// is asked, or when all is answered, the resolver has not failed.
    pub fn lookup_hosts(
        &mut self,
        alloc: Global,
        names: &[Name],
    ) -> Result<Vec<Result<FoundHosts<StubResolver<E, C, W>>, HostFault>>, Error>
        ensures found { IfOk result (λ r. LooksUpHosts (seen E.deeds E.waits E.polls C.given W.stream) names.now r.items self.old self.new) }
        ensures numbers { IsErrOf result Error.NumbersUsed → StopFor (host_questions names.now) (seen E.deeds E.waits E.polls C.given W.stream self.old) (seen E.deeds E.waits E.polls C.given W.stream self.new) }
        ensures refused { IfErr result IsRefusal }
        ensures failed_only { IsErrOf result Error.Failed → self.old.failed ≡ true }
    {
        let questions = host_questions(alloc, names)?;
        let gots = match self.resolve_all(alloc, &questions) {
            Ok(gots) => gots,
            Err(error) => return Err(error),
        };
        match all_found(alloc, gots) {
            Ok(found) => Ok(found),
            Err(NoMemory) => Err(Error::NoMemory),
        }
    }

    /// Looks a host up behind each suffix of the options, and else by its name alone, as `resolv_lookup::search_host` does.
    pub fn search_host(
        &mut self,
        alloc: Global,
        name: &RelativeName,
    ) -> Result<FoundHosts<StubResolver<E, C, W>>, HostFault>
        ensures asked { SearchesHost (AsksStubBoth (seen E.deeds E.waits E.polls C.given W.stream)) self.old.options.search name.now self.old self.new result }
        ensures count { self.old.faults ≤ self.new.faults }
        ensures failed { IfErr result (HostIsCounted self.old.faults self.new.faults) }
    {
        search_host(alloc, self, name)
    }

    /// Asks for the servers of a service at a name, as `resolv_lookup::lookup_srv` does.
    pub fn lookup_srv<V: Words>(
        &mut self,
        alloc: Global,
        words: &mut V,
        service: &RelativeName,
        name: &Name,
        fallback_port: u16,
    ) -> Result<Option<FoundSrvs>, SrvError>
        ensures long { IsLong (service.now ++ name.now) → AsksNothing self.old self.new (V.stream words.old) (V.stream words.new) result }
        ensures long_only { result ≡ Err services.LongName → IsLong (service.now ++ name.now) }
        ensures asked { FindsSrv (AsksStub (seen E.deeds E.waits E.polls C.given W.stream)) service.now name.now fallback_port self.old self.new (V.stream words.old) (V.stream words.new) result }
        ensures count { self.old.faults ≤ self.new.faults }
        ensures failed { IfErr result (SrvIsCounted self.old.faults self.new.faults) }
    {
        lookup_srv(alloc, self, words, service, name, fallback_port)
    }
}
