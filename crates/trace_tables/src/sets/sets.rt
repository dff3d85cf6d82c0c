//! Sets of numbers, each under a key.

ghost use Rattle.std.specs.Prelude.{◌≡◌, OnOk};
ghost use Rattle.number_table.specs.Entries.{frees, puts};
ghost use Rattle.trace_tables.specs.sets.Sets as plain;

use dns_base::NoMemory;
use number_table::NumberTable;
use std::alloc::Global;

/// A set of numbers, each with nothing.
pub type Members = NumberTable<()>;

/// By key.
pub type Sets = NumberTable<Members>;

/// The set of a key is taken out.
fn take_set(sets: &mut Sets, alloc: Global, key: u64) -> Members
    ensures taken { result ≡ plain.members key sets.old }
    ensures left { sets.new ≡ frees key sets.old }
{
    match sets.remove(key) {
        Some(members) => members,
        None => NumberTable::new(alloc),
    }
}

fn put_set(sets: &mut Sets, key: u64, members: Members) -> Result<(), NoMemory>
    ensures { OnOk result (sets.new ≡ puts key members sets.old) }
{
    if sets.insert(key, members).is_err() {
        return Err(NoMemory);
    }
    Ok(())
}

fn add(members: &mut Members, number: u64) -> Result<(), NoMemory>
    ensures { OnOk result (members.new ≡ puts number tt members.old) }
{
    if members.insert(number, ()).is_err() {
        return Err(NoMemory);
    }
    Ok(())
}

fn take_out(members: &mut Members, number: u64)
    ensures { members.new ≡ frees number members.old }
{
    members.remove(number);
}

/// A number joins the set of a key, if it is not in it.
pub fn join(sets: &mut Sets, alloc: Global, key: u64, number: u64) -> Result<(), NoMemory>
    ensures { OnOk result (sets.new ≡ plain.joins key number sets.old) }
{
    let mut members = take_set(sets, alloc, key);
    add(&mut members, number)?;
    put_set(sets, key, members)
}

/// A number leaves the set of a key, if it is in it.
pub fn leave(sets: &mut Sets, alloc: Global, key: u64, number: u64) -> Result<(), NoMemory>
    ensures { OnOk result (sets.new ≡ plain.leaves key number sets.old) }
{
    let mut members = take_set(sets, alloc, key);
    take_out(&mut members, number);
    put_set(sets, key, members)
}

/// Whether a number is in the set of a key.
pub fn contains(sets: &Sets, key: u64, number: u64) -> bool
    ensures { result ≡ plain.has key number sets.now }
{
    match sets.get(key) {
        None => false,
        Some(members) => members.contains_key(number),
    }
}

/// How many numbers the set of a key has.
pub fn count(sets: &Sets, key: u64) -> usize
    ensures { result ≡ plain.size key sets.now }
{
    match sets.get(key) {
        None => 0,
        Some(members) => members.len(),
    }
}
