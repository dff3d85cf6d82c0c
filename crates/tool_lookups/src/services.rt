//! The servers of services that are looked up, resolved and ordered together.

use crate::given::{results, words};
use crate::servers::{all_text, lookup};
use client_request::{ListWords, WordList, Words};
use dns_base::{Name, RelativeName};
use resolv_lookup::{FoundSrvs, ListResolver, ResolvedSrvItem, SrvItem, lookup_srv};
use std::alloc::Global;

/// The lines of the servers of a service at example.com, by words and by what the question gets; the next word, and how many
/// questions were asked.
pub fn service_text(alloc: Global, rest: &str) -> Option<String> {
    let (service, rest) = rest.split_once(' ')?;
    let (drawn, answers) = rest.split_once(' ')?;
    let mut resolver = ListResolver::new(alloc, results(alloc, answers)?);
    let mut words = words(alloc, drawn).ok()?;
    let service = RelativeName::from_text(alloc, service).ok()?;
    let name = Name::from_text(alloc, "example.com").ok()?;
    let found = lookup_srv(alloc, &mut resolver, &mut words, &service, &name, 99);
    let text = all_text(alloc, found).ok()?;
    let (word, asked) = (words.next(), resolver.asked().len());
    format!(in alloc; "{text}word {word} asked {asked}\n").ok()
}

/// The servers that an answer lists.
fn servers(alloc: Global, listing: &str) -> Option<FoundSrvs> {
    lookup(alloc, "0", listing).ok()?.ok()?
}

/// The first of them.
fn first_item(alloc: Global, listing: &str) -> Option<SrvItem> {
    let item = servers(alloc, listing)?.next_item()?;
    item.try_clone(alloc).ok()
}

/// The lines of a server's addresses.
fn addresses_text(alloc: Global, item: &ResolvedSrvItem) -> Option<String> {
    let mut text = String::new(alloc);
    for address in item.resolved() {
        let line = format!(in alloc; "at {address}\n").ok()?;
        text.push_str(line.as_str()).ok()?;
    }
    Some(text)
}

/// The addresses of the first server that an answer lists, by what more questions get, and how many were asked.
pub fn resolved_text(alloc: Global, rest: &str) -> Option<String> {
    let (listing, answers) = rest.split_once(' ')?;
    let item = first_item(alloc, listing)?;
    let mut resolver = ListResolver::new(alloc, results(alloc, answers)?);
    let found = item.resolve(alloc, &mut resolver).ok()?;
    let text = addresses_text(alloc, &found)?;
    let asked = resolver.asked().len();
    format!(in alloc; "{text}asked {asked}\n").ok()
}

/// The lines of servers in their order.
fn ordered_text(alloc: Global, found: FoundSrvs) -> Option<String> {
    let mut text = String::new(alloc);
    for srv in found.into_srvs() {
        let target = &srv.target;
        let line = format!(in alloc; "server {target}\n").ok()?;
        text.push_str(line.as_str()).ok()?;
    }
    Some(text)
}

/// The servers that two answers list, ordered together.
pub fn merged_text(alloc: Global, rest: &str) -> Option<String> {
    let (first, second) = rest.split_once(' ')?;
    let mut found = servers(alloc, first)?;
    let other = servers(alloc, second)?;
    let mut words = ListWords::new(WordList::new(alloc));
    found.merge(alloc, &mut words, &other).ok()?;
    ordered_text(alloc, found.try_clone(alloc).ok()?)
}
