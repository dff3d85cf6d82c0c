//! Names in pairs, and names made of others.

use crate::answer::line_of;
use dns_base::{ChainFault, IpAddr, Name, RelativeName, ToName, is_same_name};
use std::alloc::Global;

/// What is printed of one or two names.
pub fn text_of(alloc: Global, word: &str, rest: &str) -> Option<String> {
    match word {
        "chain" => chain(alloc, rest),
        "chain-root" => chain_root(alloc, rest),
        "chain-empty" => chained(alloc, &RelativeName::empty(alloc), rest),
        "reverse" => reverse(alloc, rest),
        "same" => same(alloc, rest),
        "copy" => copy(alloc, rest),
        _ => None,
    }
}

fn name(alloc: Global, text: &str) -> Option<Name> {
    Name::from_text(alloc, text).ok()
}

fn relative(alloc: Global, text: &str) -> Option<RelativeName> {
    RelativeName::from_text(alloc, text).ok()
}

/// The chain of a relative name and a name, and how many octets it has.
fn chained(alloc: Global, front: &RelativeName, back: &str) -> Option<String> {
    match front.chain(alloc, &name(alloc, back)?) {
        Ok(chain) => {
            let count = chain.as_octets().len();
            format!(in alloc; "{chain} {count}\n").ok()
        }
        Err(ChainFault::Long) => line_of(alloc, &"long"),
        Err(ChainFault::NoMemory) => None,
    }
}

fn chain(alloc: Global, rest: &str) -> Option<String> {
    let (front, back) = rest.split_once(' ')?;
    chained(alloc, &relative(alloc, front)?, back)
}

/// A copy of a relative name, ended at the root.
fn chain_root(alloc: Global, text: &str) -> Option<String> {
    let copy = relative(alloc, text)?.try_clone(alloc).ok()?;
    line_of(alloc, &copy.chain_root(alloc).ok()?)
}

fn reverse(alloc: Global, text: &str) -> Option<String> {
    let address = IpAddr::from_text(text).ok()?;
    line_of(alloc, &Name::reverse_from_addr(alloc, address).ok()?)
}

/// Whether two names are equal, and whether they are the same where they stand in octets.
fn same(alloc: Global, rest: &str) -> Option<String> {
    let (one, other) = rest.split_once(' ')?;
    let one = name(alloc, one)?;
    let other = name(alloc, other)?;
    let is_same = is_same_name(&one.parsed(), &other.parsed());
    let is_equal = one == other;
    format!(in alloc; "{is_equal} {is_same}\n").ok()
}

/// A copy of a name, whether it is equal, and whether it is the root.
fn copy(alloc: Global, text: &str) -> Option<String> {
    let name = name(alloc, text)?;
    let copy = name.to_name(alloc).ok()?;
    let is_equal = copy == name;
    let is_root = copy.is_root();
    format!(in alloc; "{copy} {is_equal} {is_root}\n").ok()
}
