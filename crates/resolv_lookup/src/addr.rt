//! The names of an address.

ghost use Rattle.std.specs.Prelude.{◌≡◌, ◌≤◌, [], ◌∷◌, MatchOption, IfErr};
ghost use Rattle.std.specs.Iterator.{YieldsFirst, item_count};
ghost use Rattle.resolv_lookup.specs.Asked.{Asks, IsCounted};
ghost use Rattle.resolv_lookup.specs.Names.{names_said, names_found, LooksUpAddr};

use crate::fault::QueryFault;
use crate::owned::OwnedRecords;
use crate::resolver::{AsMessage, Resolver};
use dns_base::{IpAddr, Name, ParsedName, RecordData, Rtype};
use std::alloc::Global;
use std::marker::Model;

/// Asks for the names of an address: for the PTR records of its reverse name (RFC 1035 3.5).
pub fn lookup_addr<R: Resolver>(
    alloc: Global,
    resolver: &mut R,
    addr: IpAddr,
) -> Result<FoundAddrs<R>, QueryFault>
    ensures asked { LooksUpAddr (Asks R.says R.asked) addr resolver.old resolver.new result }
    ensures count { R.faults resolver.old ≤ R.faults resolver.new }
    ensures failed { IfErr result (IsCounted (R.faults resolver.old) (R.faults resolver.new)) }
{
    let name = Name::reverse_from_addr(alloc, addr)?;
    let answer = resolver.query(alloc, &name, Rtype::PTR)?;
    Ok(FoundAddrs { answer })
}

/// The answer for the names of an address.
pub struct FoundAddrs<R: Resolver> {
    answer: R::Answer,
}

impl<R: Resolver> Model for FoundAddrs<R> {
    ghost use Rattle.std.specs.Prelude.{List, ℕ};

    ghost Value = { List ℕ };

    ghost view = { λ f. R.Answer.octets_of f.answer };
}

impl<R: Resolver> Drop for FoundAddrs<R> {
    fn drop(self) {
        let FoundAddrs { answer: _ } = self;
    }
}

impl<R: Resolver> FoundAddrs<R> {
    /// The names: the targets of the PTR records that the answer's canonical name owns, up to the
    /// first that can't be read.
    pub fn iter(&self) -> FoundAddrsIter<'_>
        ensures { result ≡ names_found self.now }
    {
        FoundAddrsIter {
            records: OwnedRecords::of(self.answer.as_message()),
        }
    }
}

impl<'a, R: Resolver> IntoIterator for &'a FoundAddrs<R> {
    type Item = ParsedName<'a>;

    type IntoIter = FoundAddrsIter<'a>;

    ghost into_iter_gives = { λ f r. r ≡ names_found f.now };

    fn into_iter(self) -> FoundAddrsIter<'a> {
        self.iter()
    }
}

/// The names of an address that are left to give.
#[derive(Drop)]
pub struct FoundAddrsIter<'a> {
    records: Option<OwnedRecords<'a>>,
}

impl<'a> Model for FoundAddrsIter<'a> {
    ghost use Rattle.std.specs.Prelude.{List, [], unwrap_or};
    ghost use Rattle.dns_names.specs.Name.{Labels};
    ghost use Rattle.resolv_lookup.specs.Names.{names_said};

    ghost Value = { List Labels };

    ghost view = { λ f. names_said (unwrap_or f.records []) };
}

/// The next name that records say.
fn next_name<'a>(records: &mut OwnedRecords<'a>) -> Option<ParsedName<'a>>
    ensures { MatchOption result (names_said records.old ≡ [])
        (λ name. names_said records.old ≡ name ∷ names_said records.new) }
{
    'records: while let Some(record) = records.next() {
        if record.rtype() == Rtype::PTR {
            return match record.data() {
                Ok(RecordData::Ptr(target)) => Some(target),
                _ => None,
            };
        }
    }
    None
}

impl<'a> Iterator for FoundAddrsIter<'a> {
    type Item = ParsedName<'a>;

    ghost next_gives = { YieldsFirst (λ s. s) };

    ghost remaining = { item_count (λ s. s) };

    fn next(&mut self) -> Option<ParsedName<'a>> {
        let mut records = self.records.take()?;
        let name = next_name(&mut records)?;
        self.records = Some(records);
        Some(name)
    }
}
