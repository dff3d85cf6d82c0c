//! Configurations by their texts, lines and files.

use crate::answer::line_of;
use crate::escapes;
use dns_base::{MemSource, Octets};
use resolv_conf::{MemFiles, ResolvConf};
use std::alloc::Global;
use std::collections::BTreeMap;

/// What is printed of a configuration: what reading it answers, and then the configuration itself.
pub fn text_of(alloc: Global, word: &str, rest: &str) -> Option<String> {
    match word {
        "conf" => conf(alloc, rest),
        "conf-size" => size(alloc, rest),
        "conf-line" => line(alloc, rest),
        "conf-copy" => copy(alloc, rest),
        "conf-file" => file(alloc, rest),
        "conf-system" => system(alloc, rest),
        _ => None,
    }
}

/// A source of octets that never fails.
fn source(octets: Vec<u8>) -> Option<MemSource> {
    let fails = Vec::new(*octets.allocator());
    Some(MemSource::new(Octets::from_vec(octets).ok()?, fails))
}

fn conf(alloc: Global, rest: &str) -> Option<String> {
    let mut conf = ResolvConf::new(alloc);
    let answer = conf.parse(alloc, &mut source(escapes::octets(alloc, rest)?)?);
    format!(in alloc; "{answer:?}\n{conf}").ok()
}

/// What reading a comment of so many octets answers.
fn size(alloc: Global, count: &str) -> Option<String> {
    let octets = vec![in alloc; b'#'; count.parse::<usize>().ok()?].ok()?;
    let answer = ResolvConf::new(alloc).parse(alloc, &mut source(octets)?);
    format!(in alloc; "{answer:?}\n").ok()
}

fn line(alloc: Global, line: &str) -> Option<String> {
    let mut conf = ResolvConf::new(alloc);
    let answer = conf.parse_line(alloc, line);
    format!(in alloc; "{answer:?}\n{conf}").ok()
}

/// A copy of the configuration of a line.
fn copy(alloc: Global, line: &str) -> Option<String> {
    let mut conf = ResolvConf::new(alloc);
    conf.parse_line(alloc, line).ok()?;
    let copy = conf.try_clone(alloc).ok()?;
    format!(in alloc; "{copy}").ok()
}

/// A file at the place of the system's configuration, of which one call fails.
fn files(alloc: Global, fails: &str, text: &str) -> Option<MemFiles> {
    let mut files = BTreeMap::new(alloc);
    let path = String::from_str(alloc, "/etc/resolv.conf").ok()?;
    let octets = Octets::from_vec(escapes::octets(alloc, text)?).ok()?;
    files.insert(path, octets).ok()?;
    let fails = Vec::from_slice(alloc, &[fails.parse::<u64>().ok()?]).ok()?;
    Some(MemFiles::new(files, fails))
}

/// What reading the file at a path answers, by `FAILS PATH TEXT`: the call that fails, and what stands in the system's file.
fn file(alloc: Global, rest: &str) -> Option<String> {
    let (fails, rest) = rest.split_once(' ')?;
    let (path, text) = rest.split_once(' ')?;
    let mut files = files(alloc, fails, text)?;
    let mut conf = ResolvConf::new(alloc);
    let answer = conf.parse_file(alloc, &mut files, path);
    format!(in alloc; "{answer:?}\n{conf}").ok()
}

/// What the system's file says, by `FAILS TEXT`.
fn system(alloc: Global, rest: &str) -> Option<String> {
    let (fails, text) = rest.split_once(' ')?;
    let conf = ResolvConf::default(alloc, &mut files(alloc, fails, text)?).ok()?;
    format!(in alloc; "{conf}").ok()
}
