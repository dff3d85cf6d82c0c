//! Lists whose newest item stands first, and tables of them.

ghost use Rattle.std.specs.Prelude.{◌≡◌, ◌∷◌, ◌==◌, [], length, OnOk, OnErr};
ghost use Rattle.std.specs.Iterator.{YieldsFirstBy, item_count};
ghost use Rattle.trace_tables.specs.Lists.{adds, listed};

use dns_base::NoMemory;
use number_table::NumberTable;
use std::alloc::Global;
use std::iter::FusedIterator;
use std::marker::Model;

/// A list that grows at its front. A contract sees the newest item first.
#[derive(Debug, Drop)]
pub struct Newest<T> {
    // The oldest item stands first.
    items: Vec<T>,
}

impl<T> Model for Newest<T> {
    ghost use Rattle.std.specs.Prelude.{List, reverse};

    ghost Value = { List T };

    ghost view = { λ l. reverse l.items.items };
}

impl<T: Drop> Newest<T> {
    /// No items. It takes no memory.
    pub fn new(alloc: Global) -> Newest<T>
        ensures { result ≡ [] }
    {
        Newest {
            items: Vec::new(alloc),
        }
    }

    /// Whether there is no item.
    #[tactic(auto, using(crate::proofs::Listing::as_long))]
    pub fn is_empty(&self) -> bool
        ensures { result ≡ (length self.now == 0) }
    {
        self.items.is_empty()
    }

    /// Adds an item. After `NoMemory` nothing was added.
    #[tactic(auto, using(crate::proofs::Listing::pushed))]
    pub fn push(&mut self, item: T) -> Result<(), NoMemory>
        ensures ok { OnOk result (self.new ≡ item ∷ self.old) }
        ensures err { OnErr result (self.new ≡ self.old) }
    {
        match self.items.push(item) {
            Ok(()) => Ok(()),
            Err(_) => Err(NoMemory),
        }
    }
}

/// The items of a list, the newest first.
#[derive(Drop)]
pub struct Items<'a, T> {
    left: &'a [T],
}

impl<'a, T> Model for Items<'a, T> {
    ghost use Rattle.std.specs.Prelude.{List, reverse};

    ghost Value = { List T };

    ghost view = { λ i. reverse i.left.now };
}

impl<'a, T> Iterator for Items<'a, T> {
    type Item = &'a T;

    ghost next_gives = { YieldsFirstBy (λ item. item.now) (λ rest. rest) };

    ghost remaining = { item_count (λ rest. rest) };

    #[tactic(auto, using(crate::proofs::Listing::pushed))]
    fn next(&mut self) -> Option<&'a T> {
        let (item, left) = self.left.split_last()?;
        self.left = left;
        Some(item)
    }
}

impl<'a, T> FusedIterator for Items<'a, T> {}

impl<'a, T> IntoIterator for &'a Newest<T> {
    type Item = &'a T;

    type IntoIter = Items<'a, T>;

    ghost into_iter_gives = { λ list items. items ≡ list.now };

    fn into_iter(self) -> Items<'a, T> {
        Items {
            left: self.items.as_slice(),
        }
    }
}

/// Adds an item to the list of a key.
pub fn add<T: Drop>(
    table: &mut NumberTable<Newest<T>>,
    alloc: Global,
    key: u64,
    item: T,
) -> Result<(), NoMemory>
    ensures { OnOk result (table.new ≡ adds key item table.old) }
{
    let mut list = match table.remove(key) {
        Some(list) => list,
        None => Newest::new(alloc),
    };
    list.push(item)?;
    if table.insert(key, list).is_err() {
        return Err(NoMemory);
    }
    Ok(())
}
