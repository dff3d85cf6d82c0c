//! What lookups are made over: a resolver, and what it answers with.

ghost use Rattle.std.specs.Prelude.{◌≡◌, ◌≤◌, ℕ, List, Option, IfErr};
ghost use Rattle.dns_names.specs.Name.{Labels};
ghost use Rattle.resolv_lookup.specs.declared.resolver.Asking.{Asking};
ghost use Rattle.resolv_lookup.specs.Asked.{AsksBoth, IsCounted, IsTold, asking, octets_in};

use crate::fault::QueryFault;
use crate::search_iter::SearchIter;
use dns_base::{Message, Name, Rtype};
use std::alloc::Global;

/// What a resolver answers with: a message, and maybe more.
pub trait AsMessage {
    ghost octets_of: { Self → List ℕ };

    /// The message.
    fn as_message(&self) -> &Message
        ensures { result.now ≡ octets_of self.now };
}

/// A question that was asked, of the class IN, and what it got.
#[derive(Drop)]
pub struct Asking {
    /// The name that it asked for.
    pub name: Name,
    /// The type of the records that it asked for.
    pub rtype: Rtype,
    /// The message that came, or why none came.
    pub got: Result<Message, QueryFault>,
}

/// What answers questions of the class IN.
///
/// Where a resolver knows them, it tells the questions that were asked so far, each with its result.
/// Its count of faults never falls, so whoever hands a resolver in sees from the count that a fault
/// was the resolver's own.
pub trait Resolver {
    type Answer: AsMessage + Drop;

    /// What is said of a call: the resolver before it, the question with what it got, and the resolver after it.
    ghost says: { Self → Asking → Self → Type 0 };

    /// What is said of a call that asks two questions side by side: the resolver before it, both with what they got, and the
    /// resolver after it. Nothing is, where they are asked one after the other.
    ghost together: { Self → Asking → Asking → Self → Type 0 } = { λ _ _ _ _. ⊥ };

    ghost asked: { Self → Option (List Asking) };

    ghost faults: { Self → ℕ };

    /// Asks for the records of a type that a name has. Any message is an answer, one with an error
    /// code too. The question is told with its result; one that found no memory may not have been
    /// asked, and is then told or not. Of any other fault the count rose.
    fn query(
        &mut self,
        alloc: Global,
        name: &Name,
        rtype: Rtype,
    ) -> Result<Self::Answer, QueryFault>
        ensures says { says self.old (asking name.now rtype.0 (octets_in Self.Answer.octets_of result)) self.new }
        ensures asked { IsTold (asking name.now rtype.0 (octets_in Self.Answer.octets_of result)) (asked self.old) (asked self.new) }
        ensures count { faults self.old ≤ faults self.new }
        ensures failed { IfErr result (IsCounted (faults self.old) (faults self.new)) };

    /// Asks for the records of two types that a name has, and gives what each question got. A resolver that can asks them side by
    /// side, so that both wait at once; one that leaves this out asks one after the other. They are told in this order.
    fn query_both(
        &mut self,
        alloc: Global,
        name: &Name,
        first: Rtype,
        second: Rtype,
    ) -> (
        Result<Self::Answer, QueryFault>,
        Result<Self::Answer, QueryFault>,
    )
        ensures asked { AsksBoth says together asked self.old (asking name.now first.0 (octets_in Self.Answer.octets_of result.0)) (asking name.now second.0 (octets_in Self.Answer.octets_of result.1)) self.new }
        ensures count { faults self.old ≤ faults self.new }
        ensures first_failed { IfErr result.0 (IsCounted (faults self.old) (faults self.new)) }
        ensures second_failed { IfErr result.1 (IsCounted (faults self.old) (faults self.new)) }
    {
        let one = self.query(alloc, name, first);
        let other = self.query(alloc, name, second);
        (one, other)
    }
}

/// What knows suffixes that are put behind a name that is looked for.
pub trait SearchNames {
    ghost suffixes: { Self → List Labels };

    /// The suffixes, in the order in which they are tried.
    fn search_iter(&self) -> SearchIter<'_>
        ensures { result ≡ suffixes self.now };
}
