//! The suffixes of a search list, one by one.

ghost use Rattle.std.specs.Prelude.{◌≡◌, ◌≤◌, drop, length};
ghost use Rattle.std.specs.Iterator.{YieldsFirstRef, item_count};

use dns_base::Name;
use resolv_conf::SearchList;
use std::alloc::AllocError;
use std::marker::Model;

/// The suffixes of a search list that are left to try, in order.
#[derive(Drop)]
pub struct SearchIter<'a> {
    suffixes: &'a [Name],
}

impl<'a> Model for SearchIter<'a> {
    ghost use Rattle.std.specs.Prelude.{List};
    ghost use Rattle.dns_names.specs.Name.{Labels};

    ghost Value = { List Labels };

    ghost view = { λ s. s.suffixes.now };
}

impl<'a> SearchIter<'a> {
    /// All suffixes of a list.
    pub fn new(list: &'a SearchList) -> SearchIter<'a>
        ensures { result ≡ list.now }
    {
        SearchIter {
            suffixes: list.as_slice(),
        }
    }
}

impl<'a> Iterator for SearchIter<'a> {
    type Item = &'a Name;

    ghost next_gives = { YieldsFirstRef (λ s. s) };

    ghost remaining = { item_count (λ s. s) };

    fn next(&mut self) -> Option<&'a Name> {
        let (first, rest) = self.suffixes.split_first()?;
        self.suffixes = rest;
        Some(first)
    }
}

/// What is left to give.
impl Clone for SearchIter<'_> {
    ghost is_clone = { λ s t. t ≡ s };

    ghost is_infallible = { λ _. Unit {0} };

    fn clone(&self) -> Result<Self, AllocError> {
        Ok(SearchIter {
            suffixes: self.suffixes,
        })
    }
}
