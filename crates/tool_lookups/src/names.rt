//! The names of an address.

use crate::given::{answer, asked_text, results};
use crate::trouble::Trouble;
use dns_base::{IpAddr, ToName};
use resolv_lookup::{ListResolver, lookup_addr};
use std::alloc::Global;

/// The lines of the names that an answer gives.
pub fn text_of(alloc: Global, digits: &str) -> Result<String, Trouble> {
    let mut results = Vec::new(alloc);
    results.push(answer(alloc, digits)?)?;
    let mut resolver = ListResolver::new(alloc, results);
    let mut text = String::new(alloc);
    match lookup_addr(alloc, &mut resolver, IpAddr::V4([192, 0, 2, 1])) {
        Ok(found) => {
            for name in &found {
                let name = name.to_name(alloc)?;
                text.push_str(format!(in alloc; "name {name}\n")?.as_str())?;
            }
        }
        Err(fault) => text.push_str(format!(in alloc; "fault {fault}\n")?.as_str())?,
    }
    Ok(text)
}

/// The questions that a lookup of an address asks, by what they get.
pub fn asked(alloc: Global, rest: &str) -> Option<String> {
    let mut resolver = ListResolver::new(alloc, results(alloc, rest)?);
    let found = lookup_addr(alloc, &mut resolver, IpAddr::V4([192, 0, 2, 1])).is_ok();
    let asked = asked_text(alloc, &resolver)?;
    format!(in alloc; "{asked}found {found}\n").ok()
}
