//! The table of what is kept.

ghost use Rattle.std.specs.Prelude.{◌≡◌, [], IfOk, OnOk, is_some};
ghost use Rattle.std.specs.NonZero.{non_zero_usize_get};
ghost use Rattle.lru.specs.LruCache.{lru_cache};
ghost use Rattle.cache_rules.specs.Key.{flag_class};
ghost use Rattle.client_cache.specs.Keeping as plain;
ghost use Rattle.client_cache.specs.Plain as machine;

use crate::entry::Entry;
use cache_rules::{AdDo, Key};
use client_settings::cache::Config;
use dns_base::NoMemory;
use lru::LruCache;
use std::alloc::Global;
use std::hash::{BuildHasher, DefaultHasher, Hasher};
use std::num::NonZeroUsize;

/// Makes hashers that begin with a seed, so that who doesn't know it can't pick names of equal hash.
#[derive(Clone, Copy)]
pub struct Seeded {
    seeded: DefaultHasher,
}

impl Seeded {
    fn new(seed: u64) -> Seeded {
        let mut seeded = DefaultHasher::new();
        seeded.write_u64(seed);
        Seeded { seeded }
    }
}

impl BuildHasher for Seeded {
    type Hasher = DefaultHasher;

    ghost build_hasher = { λ s. s.seeded };

    fn build_hasher(&self) -> DefaultHasher {
        self.seeded
    }
}

/// The entries, the most recently used first.
pub(crate) type Table = LruCache<Key, Entry, Seeded>;

/// How many entries there may be.
fn room_of(config: &Config) -> NonZeroUsize
    ensures { non_zero_usize_get result ≡ machine.room_of config.now }
{
    match NonZeroUsize::new(config.max_cache_entries() as usize) {
        Some(room) => room,
        None => NonZeroUsize::MIN,
    }
}

/// A table without entries, which takes memory as it fills.
pub(crate) fn new_table(alloc: Global, config: &Config, seed: u64) -> Result<Table, NoMemory>
    ensures { IfOk result (λ t. t ≡ lru_cache [] (machine.room_of config.now)) }
{
    let mut table = LruCache::unbounded_with_hasher(alloc, Seeded::new(seed))?;
    table.resize(room_of(config));
    Ok(table)
}

/// Whether there is an entry under a key. An empty table says so at once, since a search would hash the key first.
pub(crate) fn holds(table: &Table, key: &Key) -> bool
    ensures { result ≡ is_some (plain.entry_under key.now table.now) }
{
    !table.is_empty() && table.contains(key)
}

/// Stores an entry; what was there under the key is no more.
pub(crate) fn store(table: &mut Table, key: Key, entry: Entry) -> Result<(), NoMemory>
    ensures { OnOk result (table.new ≡ plain.stores key entry table.old) }
{
    match table.put(key, entry) {
        Ok(_) => Ok(()),
        Err(_) => Err(NoMemory),
    }
}

/// What a request asks of DNSSEC, and whether it has RD set.
#[derive(Clone, Copy)]
pub struct Flags {
    pub class: AdDo,
    pub rd: bool,
}

impl Flags {
    pub(crate) fn new(class: AdDo, rd: bool) -> Flags
        ensures { result ≡ plain.flags class rd }
    {
        Flags { class, rd }
    }
}

/// Sets the flags of a key.
pub(crate) fn set_flags(key: &mut Key, flags: Flags)
    ensures { key.new ≡ plain.with_flags flags key.old }
{
    key.set_addo(flags.class);
    key.set_rd(flags.rd);
}
