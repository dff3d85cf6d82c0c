//! The servers of a service.

use crate::given::{answer, words};
use crate::trouble::Trouble;
use dns_base::{Name, RelativeName};
use resolv_lookup::{FoundSrvs, ListResolver, ResolvedSrvItem, SrvError, SrvItem, lookup_srv};
use std::alloc::Global;

/// The line of a server, and one for each of its addresses, where it is reached without a question.
fn item_text(alloc: Global, item: SrvItem) -> Result<String, Trouble> {
    let srv = item.srv();
    let (priority, weight, port) = (srv.priority, srv.weight, srv.port);
    let target = srv.target.try_clone(alloc)?;
    let mut text = format!(in alloc; "server {priority} {weight} {port} {target}\n")?;
    let mut none = ListResolver::new(alloc, Vec::new(alloc));
    if let Ok(item) = item.resolve(alloc, &mut none) {
        for address in item.resolved() {
            text.push_str(format!(in alloc; "at {address}\n")?.as_str())?;
        }
    }
    Ok(text)
}

/// The lines of what was found.
fn found_text(alloc: Global, mut found: FoundSrvs) -> Result<String, Trouble> {
    let mut text = String::new(alloc);
    for _ in 0..u64::MAX {
        match found.next_item() {
            Some(item) => text.push_str(item_text(alloc, item)?.as_str())?,
            None => break,
        }
    }
    Ok(text)
}

/// The lines of what a lookup finds, or of why it finds nothing.
pub fn all_text(
    alloc: Global,
    found: Result<Option<FoundSrvs>, SrvError>,
) -> Result<String, Trouble> {
    match found {
        Ok(Some(found)) => found_text(alloc, found),
        Ok(None) => Ok(String::from_str(alloc, "absent\n")?),
        Err(error) => Ok(format!(in alloc; "fault {error}\n")?),
    }
}

/// What the lookup of the service finds, where its question gets an answer.
pub fn lookup(
    alloc: Global,
    drawn: &str,
    digits: &str,
) -> Result<Result<Option<FoundSrvs>, SrvError>, Trouble> {
    let mut results = Vec::new(alloc);
    results.push(answer(alloc, digits)?)?;
    let mut resolver = ListResolver::new(alloc, results);
    let mut words = words(alloc, drawn)?;
    let service = RelativeName::from_text(alloc, "_s._tcp").map_err(|_| Trouble::NoMemory)?;
    let name = Name::from_text(alloc, "example.com").map_err(|_| Trouble::NoMemory)?;
    Ok(lookup_srv(alloc, &mut resolver, &mut words, &service, &name, 99))
}

/// The lines of what an answer gives of the service, by these words.
pub fn text_of(alloc: Global, rest: &str) -> Result<String, Trouble> {
    let (drawn, digits) = rest.split_once(' ').ok_or(Trouble::Usage)?;
    all_text(alloc, lookup(alloc, drawn, digits)?)
}
