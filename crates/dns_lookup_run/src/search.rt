//! The names that are asked for in place of one, where suffixes are searched for it.

ghost use Rattle.std.specs.Prelude.{◌≡◌, ◌++◌, [], ◌∷◌, length, IfOk, OnOk};
ghost use Rattle.dns_lookup_run.specs.Search.{names_of, searched_names, suffixes_in, tries_by, tries_of};
ghost use Rattle.resolv_lookup.specs.Search.{chained};

use dns_base::{Name, NoMemory, ToName};
use dns_lookup_words::Ask;
use resolv_conf::ResolvOptions;
use std::alloc::Global;

/// The most octets of a name (RFC 1035 2.3.4).
const MOST_OCTETS: usize = 255;

/// A request that may be asked.
#[derive(Drop)]
pub(crate) struct Try {
    pub(crate) ask: Ask,
    /// Whether another name is tried behind it.
    pub(crate) more: bool,
}

/// Adds the name before a suffix, where it keeps within the most octets.
fn push_chained(
    alloc: Global,
    name: &Name,
    suffix: &Name,
    names: &mut Vec<Name>,
) -> Result<(), NoMemory>
    ensures { OnOk result (names.new.items ≡ names.old.items ++ chained name.now (suffix.now ∷ [])) }
{
    let front = name.as_octets();
    let back = suffix.as_octets();
    let kept = front.len() - 1;
    if kept + back.len() > MOST_OCTETS {
        return Ok(());
    }
    let mut octets = Vec::new(alloc);
    octets.extend_from_slice(&front[..kept])?;
    octets.extend_from_slice(back)?;
    let mut whole = Name::root(alloc);
    whole.respell(&octets)?;
    names.push(whole)?;
    Ok(())
}

/// Adds the name before each suffix of a list but the root.
fn push_suffixed(
    alloc: Global,
    name: &Name,
    suffixes: &[Name],
    names: &mut Vec<Name>,
) -> Result<(), NoMemory>
    ensures { OnOk result (names.new.items ≡ names.old.items ++ chained name.now (suffixes_in suffixes.now)) }
{
    for suffix in suffixes {
        if !suffix.is_root() {
            push_chained(alloc, name, suffix, names)?;
        }
    }
    Ok(())
}

/// How many labels a name has, the root's left out.
fn label_count(name: &Name) -> usize
    ensures { result ≡ length name.now }
{
    name.parsed().labels().count()
}

/// A name with each suffix: as it stands first where it has as many dots as `ndots` says, and else last.
fn searched_names(
    alloc: Global,
    options: &ResolvOptions,
    name: &Name,
) -> Result<Vec<Name>, NoMemory>
    ensures { IfOk result (λ names. names.items ≡ searched_names options.now name.now) }
{
    let suffixes = options.search.as_slice();
    let mut names = Vec::new(alloc);
    if options.ndots < label_count(name) {
        names.push(name.try_clone(alloc)?)?;
        push_suffixed(alloc, name, suffixes, &mut names)?;
    } else {
        push_suffixed(alloc, name, suffixes, &mut names)?;
        names.push(name.try_clone(alloc)?)?;
    }
    Ok(names)
}

/// The names that are asked for in place of that of an ask, in order.
fn names_of(
    alloc: Global,
    searched: bool,
    options: &ResolvOptions,
    ask: &Ask,
) -> Result<Vec<Name>, NoMemory>
    ensures { IfOk result (λ names. names.items ≡ names_of searched options.now ask.now) }
{
    if searched && !ask.rooted {
        return searched_names(alloc, options, &ask.name);
    }
    let mut names = Vec::new(alloc);
    names.push(ask.name.try_clone(alloc)?)?;
    Ok(names)
}

/// Adds the same ask of each name, of which each but the last says that another one follows.
fn push_tries(
    alloc: Global,
    ask: &Ask,
    names: &[Name],
    tries: &mut Vec<Try>,
) -> Result<(), NoMemory>
    ensures { OnOk result (tries.new.items ≡ tries.old.items ++ tries_by ask.now names.now) }
{
    let mut rest = names;
    while let Some((name, later)) = rest.split_first() {
        let name = name.try_clone(alloc)?;
        let ask = Ask {
            name,
            rtype: ask.rtype,
            rooted: ask.rooted,
            manner: ask.manner,
        };
        let more = !later.is_empty();
        tries.push(Try { ask, more })?;
        rest = later;
    }
    Ok(())
}

/// What may be asked in place of asks, in order.
pub(crate) fn tries_of(
    alloc: Global,
    searched: bool,
    options: &ResolvOptions,
    asks: &[Ask],
) -> Result<Vec<Try>, NoMemory>
    ensures { IfOk result (λ tries. tries.items ≡ tries_of searched options.now asks.now) }
{
    let mut tries = Vec::new(alloc);
    for ask in asks {
        let names = names_of(alloc, searched, options, ask)?;
        push_tries(alloc, ask, &names, &mut tries)?;
    }
    Ok(tries)
}
