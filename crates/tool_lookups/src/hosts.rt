//! The addresses of a host.

use crate::given::{answer, asked_text, results};
use crate::trouble::Trouble;
use dns_base::{Name, OptRcode, RelativeName, ToName};
use resolv_conf::SearchList;
use resolv_lookup::{FoundHosts, ListResolver, QueryFault, lookup_host, search_host};
use std::alloc::Global;

/// The lines of what was found: the name that was asked for, the canonical name, whether there is no record, and the addresses.
fn found_text(alloc: Global, found: &FoundHosts<ListResolver>) -> Result<String, Trouble> {
    let asked = found.qname().to_name(alloc)?;
    let canonical = found.canonical_name().to_name(alloc)?;
    let empty = found.is_empty();
    let mut text = format!(in alloc; "host {asked} {canonical} {empty}\n")?;
    for address in found.port_iter(53) {
        text.push_str(format!(in alloc; "at {address}\n")?.as_str())?;
    }
    Ok(text)
}

/// The lines of what two answers, to the questions for AAAA and for A records, give of a host.
pub fn text_of(alloc: Global, rest: &str) -> Result<String, Trouble> {
    let (aaaa, a) = rest.split_once(' ').ok_or(Trouble::Usage)?;
    let aaaa = answer(alloc, aaaa)?;
    let a = answer(alloc, a)?;
    match FoundHosts::<ListResolver>::new(aaaa, a) {
        Ok(found) => found_text(alloc, &found),
        Err(fault) => Ok(format!(in alloc; "fault {fault}\n")?),
    }
}

/// The response code of an answer, or why there is none.
fn rcode_text(alloc: Global, rcode: Result<OptRcode, QueryFault>) -> Option<String> {
    match rcode {
        Ok(OptRcode(number)) => format!(in alloc; "{number}").ok(),
        Err(fault) => format!(in alloc; "{fault}").ok(),
    }
}

/// The lines of the addresses that a copy gives, of which the first was taken before.
fn left_text(alloc: Global, found: &FoundHosts<ListResolver>) -> Option<String> {
    let mut addresses = found.iter();
    let _first = addresses.next();
    let mut text = String::new(alloc);
    for address in addresses.clone().ok()? {
        let line = format!(in alloc; "left {address}\n").ok()?;
        text.push_str(line.as_str()).ok()?;
    }
    Some(text)
}

/// The lines of what was found, of what is left, and of the response codes.
fn whole_text(alloc: Global, found: &FoundHosts<ListResolver>) -> Option<String> {
    let text = found_text(alloc, found).ok()?;
    let left = left_text(alloc, found)?;
    let a = rcode_text(alloc, found.a_rcode())?;
    let aaaa = rcode_text(alloc, found.aaaa_rcode())?;
    format!(in alloc; "{text}{left}a {a}\naaaa {aaaa}\n").ok()
}

/// The lines of a lookup of www.example.com, by what the questions for A and for AAAA records get.
pub fn lookup_text(alloc: Global, rest: &str) -> Option<String> {
    let mut resolver = ListResolver::new(alloc, results(alloc, rest)?);
    let name = Name::from_text(alloc, "www.example.com").ok()?;
    match lookup_host(alloc, &mut resolver, &name) {
        Ok(found) => whole_text(alloc, &found),
        Err(fault) => format!(in alloc; "fault {fault}\n").ok(),
    }
}

/// Suffixes between commas.
fn suffixes_of(alloc: Global, text: &str) -> Option<SearchList> {
    let mut suffixes = SearchList::new(alloc);
    for suffix in text.split(',') {
        let name = Name::from_text(alloc, suffix).ok()?;
        suffixes.push(name).ok()?;
    }
    Some(suffixes)
}

/// Whether a search of the name www finds an address.
fn is_found(alloc: Global, resolver: &mut ListResolver) -> Option<bool> {
    let name = RelativeName::from_text(alloc, "www").ok()?;
    match search_host(alloc, resolver, &name) {
        Ok(hosts) => Some(!hosts.is_empty()),
        Err(_) => Some(false),
    }
}

/// The questions of that search by suffixes, and whether it finds an address, by what the questions get.
pub fn search_text(alloc: Global, rest: &str) -> Option<String> {
    let (suffixes, answers) = rest.split_once(' ')?;
    let suffixes = suffixes_of(alloc, suffixes)?;
    let mut resolver = ListResolver::with_search(alloc, results(alloc, answers)?, suffixes);
    let found = is_found(alloc, &mut resolver)?;
    let asked = asked_text(alloc, &resolver)?;
    format!(in alloc; "{asked}found {found}\n").ok()
}
