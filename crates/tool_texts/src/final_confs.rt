//! Configurations that are set by hand and finalized.

use dns_base::{Duration, IpAddr, Name, SocketAddr};
use resolv_conf::{ResolvConf, ResolvOptions, SearchList, ServerConf, Transport};
use std::alloc::Global;

/// What is printed of a configuration that is set by hand or finalized.
pub fn text_of(alloc: Global, word: &str, rest: &str) -> Option<String> {
    match word {
        "conf-options" => options(alloc, rest),
        "conf-final" => final_conf(alloc),
        "conf-final-again" => final_again(alloc, rest),
        "conf-search" => search(alloc, rest),
        _ => None,
    }
}

/// Turns an option that no line sets away from its default, by its word.
fn turn(options: &mut ResolvOptions, word: &str) -> Option<()> {
    match word {
        "aa-only" => options.aa_only = true,
        "primary" => options.primary = true,
        "no-recurse" => options.recurse = false,
        "no-default-names" => options.default_names = false,
        "stay-open" => options.stay_open = true,
        "no-dn-search" => options.dn_search = false,
        "keep-tsig" => options.keep_tsig = true,
        "blast" => options.blast = true,
        _ => return None,
    }
    Some(())
}

/// Options that are set by hand: the timeout in microseconds, and the words of others.
fn options(alloc: Global, rest: &str) -> Option<String> {
    let (timeout, words) = rest.split_once(' ')?;
    let mut conf = ResolvConf::new(alloc);
    conf.options.timeout = Duration::from_micros(timeout.parse::<u64>().ok()?);
    for word in words.split(' ') {
        turn(&mut conf.options, word)?;
    }
    format!(in alloc; "{conf}").ok()
}

fn finalized(alloc: Global) -> Option<ResolvConf> {
    let mut conf = ResolvConf::new(alloc);
    conf.finalize(alloc).ok()?;
    Some(conf)
}

/// The empty configuration, finalized.
fn final_conf(alloc: Global) -> Option<String> {
    let conf = finalized(alloc)?;
    format!(in alloc; "{conf}").ok()
}

/// How many seconds the servers have for a request, each in turn.
fn times(alloc: Global, servers: &[ServerConf]) -> Option<String> {
    let mut text = String::new(alloc);
    for server in servers {
        let time = format!(in alloc; " {}", server.request_timeout.as_secs()).ok()?;
        text.push_str(time.as_str()).ok()?;
    }
    Some(text)
}

/// A finalized configuration that has a server and a timeout more, and is finalized again, by `ADDRESS PORT SECONDS`.
fn final_again(alloc: Global, rest: &str) -> Option<String> {
    let (ip, rest) = rest.split_once(' ')?;
    let (port, seconds) = rest.split_once(' ')?;
    let ip = IpAddr::from_text(ip).ok()?;
    let port = port.parse::<u16>().ok()?;
    let server = ServerConf::new(SocketAddr { ip, port }, Transport::Tcp);
    let mut conf = finalized(alloc)?;
    conf.servers.push(server).ok()?;
    conf.options.timeout = Duration::from_secs(seconds.parse::<u64>().ok()?);
    conf.finalize(alloc).ok()?;
    let times = times(alloc, conf.servers.as_slice())?;
    format!(in alloc; "{conf}seconds{times}\n").ok()
}

/// A list of a name and the root: as it is printed, how many there are, whether it is empty, and whether it has a second and a
/// third one.
fn search(alloc: Global, name: &str) -> Option<String> {
    let name = Name::from_text(alloc, name).ok()?;
    let mut list = SearchList::from_suffix(alloc, name).ok()?;
    list.push_root(alloc).ok()?;
    let (count, is_empty) = (list.len(), list.is_empty());
    let (has_second, has_third) = (list.get(1).is_some(), list.get(2).is_some());
    let mut conf = ResolvConf::new(alloc);
    conf.options.search = list;
    format!(in alloc; "{conf}{count} {is_empty} {has_second} {has_third}\n").ok()
}
