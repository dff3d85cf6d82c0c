//! A query of a message of one's own.

ghost use Rattle.std.specs.Prelude.{◌≡◌, ◌||◌, true, false, Err, OnErr};
ghost use Rattle.dns_values.specs.Source.{Rose};
ghost use Rattle.resolv_lookup.specs.ListAnswers.{faults_after};
ghost use Rattle.stub_resolver.specs.Queries.{GetsBy, is_want};
ghost use Rattle.stub_resolver.specs.Stub.{seen, with_fault};

use crate::stub::StubResolver;
use client_core::{Clock, Edge};
use client_request::{Error, Words};
use dns_base::Message;
use resolv_lookup::{Answer, QueryFault};
use std::alloc::Global;

/// A query that is yet to be run on a resolver.
#[derive(Drop)]
pub struct Query<'a, E, C, W> {
    resolver: &'a mut StubResolver<E, C, W>,
    edns: bool,
}

impl<'a, E: Edge + Drop, C: Clock + Drop, W: Words + Drop> Query<'a, E, C, W> {
    /// A query that is asked once more where its first answer says that it could not be read.
    pub fn new(resolver: &'a mut StubResolver<E, C, W>) -> Query<'a, E, C, W>
        ensures same_reference { result.resolver.ghost_name ≡ resolver.entry.ghost_name }
        ensures resolver { result.resolver.now ≡ resolver.old }
        ensures edns { result.edns ≡ true }
    {
        Query {
            resolver,
            edns: true,
        }
    }

    /// Whether it is asked once more where its first answer says that it could not be read (RFC 6891 7).
    pub fn does_edns(&self) -> bool
        ensures { result ≡ self.now.edns }
    {
        self.edns
    }

    /// Lets the first answer stand, whatever it says.
    pub fn disable_edns(&mut self)
        ensures same_reference { self.new.resolver.ghost_name ≡ self.old.resolver.ghost_name }
        ensures resolver { self.new.resolver.now ≡ self.old.resolver.now }
        ensures edns { self.new.edns ≡ false }
    {
        self.edns = false;
    }

    /// Asks what a message asks, under the message's own header. Any message is an answer, one with an error code too.
    ///
    /// The faults are those of `StubResolver::query`. `Client(FormError)` where the message is a query without a first question
    /// that can be read, or one for a whole zone, which several messages answer; then nothing was asked.
    pub fn run(self, alloc: Global, message: Message) -> Result<Answer, QueryFault>
        ensures failed { self.entry.resolver.now.failed ≡ true → (result ≡ Err (QueryFault.Client Error.Failed)) × (self.exit.0.now ≡ with_fault self.entry.resolver.now) }
        ensures gets { self.entry.resolver.now.failed ≡ false → GetsBy (seen E.deeds E.waits E.polls C.given W.stream) self.entry.edns message self.entry.resolver.now self.exit.0.now result }
        ensures count { self.exit.0.now.faults ≡ faults_after result self.entry.resolver.now.faults }
        ensures rose { OnErr result (Rose self.entry.resolver.now.faults self.exit.0.now.faults) }
        ensures lasts { self.exit.0.now.failed ≡ (self.entry.resolver.now.failed || is_want result) }
        ensures options { self.exit.0.now.options ≡ self.entry.resolver.now.options }
    {
        let Query { resolver, edns } = self;
        resolver.ask(alloc, message, edns)
    }
}
