//! The names that are put behind the name that is looked for.

ghost use Rattle.std.specs.Prelude.{◌≡◌, ◌==◌, List, [], ◌∷◌, ◌++◌, length, slice_get, option_copied, OnErr, IfOk, MatchResult};
ghost use Rattle.dns_names.specs.Name.{Labels};

use dns_names::Name;
use dns_values::NoMemory;
use std::alloc::Global;
use std::marker::Model;

/// A name that is put behind the name that is looked for.
pub type SearchSuffix = Name;

/// A list of search suffixes, in the order in which they are tried.
#[derive(Debug, Drop)]
pub struct SearchList {
    suffixes: Vec<SearchSuffix>,
}

impl Model for SearchList {
    ghost Value = { List Labels };

    ghost view = { λ s. s.suffixes.items };
}

impl SearchList {
    /// No suffixes. It takes no memory.
    pub fn new(alloc: Global) -> SearchList
        ensures { result ≡ [] }
    {
        SearchList {
            suffixes: Vec::new(alloc),
        }
    }

    /// A list of one suffix.
    pub fn from_suffix(alloc: Global, name: SearchSuffix) -> Result<SearchList, NoMemory>
        ensures { IfOk result (λ s. s ≡ name ∷ []) }
    {
        let mut list = SearchList::new(alloc);
        list.push(name)?;
        Ok(list)
    }

    /// Adds a suffix at the end.
    pub fn push(&mut self, name: SearchSuffix) -> Result<(), NoMemory>
        ensures { MatchResult result (λ _. self.new ≡ self.old ++ name ∷ []) (λ _. self.new ≡ self.old) }
    {
        self.suffixes.push(name)?;
        Ok(())
    }

    /// Adds the root at the end.
    pub fn push_root(&mut self, alloc: Global) -> Result<(), NoMemory>
        ensures { MatchResult result (λ _. self.new ≡ self.old ++ [] ∷ []) (λ _. self.new ≡ self.old) }
    {
        self.push(Name::root(alloc))
    }

    /// How many suffixes there are.
    pub fn len(&self) -> usize
        ensures { result ≡ length self.now }
    {
        self.suffixes.len()
    }

    /// Whether there is none.
    pub fn is_empty(&self) -> bool
        ensures { result ≡ (length self.now == 0) }
    {
        self.suffixes.is_empty()
    }

    /// The suffix at a place, counted from 0.
    pub fn get(&self, pos: usize) -> Option<&SearchSuffix>
        ensures { option_copied result ≡ slice_get self.now pos }
    {
        self.suffixes.get(pos)
    }

    /// The suffixes in order.
    pub fn as_slice(&self) -> &[SearchSuffix]
        ensures { result.now ≡ self.now }
    {
        self.suffixes.as_slice()
    }

    /// The same suffixes.
    pub fn try_clone(&self, alloc: Global) -> Result<SearchList, NoMemory>
        ensures { IfOk result (λ s. s ≡ self.now) }
    {
        let mut list = SearchList::new(alloc);
        for suffix in self.as_slice() {
            list.push(suffix.try_clone(alloc)?)?;
        }
        Ok(list)
    }
}
