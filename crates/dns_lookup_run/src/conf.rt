//! The configuration that is asked.

ghost use Rattle.std.specs.Prelude.{◌≡◌, ◌≢◌, ◌++◌, filter, map, IfOk, IfErr, IfSome, OnOk};
ghost use Rattle.dns_values.specs.Source.{Rose};
ghost use Rattle.command_parts.specs.Ends.{IsEarly, line_of, status_of};
ghost use Rattle.resolv_conf.specs.Conf.{name_server};
ghost use Rattle.dns_lookup_run.specs.Conf.{IsBase, IsConfOf, IsReadyIn, IsTooLong, conf_asked, is_file_needed, is_of_family, is_v4, named, of_family, streamed, timed, tried, with_domain, with_dots, with_suffixes};

use client_request::Words;
use command_parts::{Ending, conf_at, says, statuses};
use dns_base::NoMemory;
use dns_lookup_words::{Family, Lookup};
use dns_values::{Duration, IpAddr, ReadFault, SocketAddr, Source};
use resolv_conf::{ResolvConf, ResolvOptions, SearchList, ServerConf, Servers, Transport};
use resolver_policy::{Found, Notes, practical};
use std::alloc::Global;

/// The port of the DNS (RFC 1035 4.2).
const DNS_PORT: u16 = 53;

/// Adds servers by their addresses.
fn push_all(servers: &mut Servers, ips: &[IpAddr]) -> Result<(), NoMemory>
    ensures { OnOk result (servers.new ≡ servers.old ++ map name_server ips.now) }
{
    for ip in ips {
        let addr = SocketAddr {
            ip: *ip,
            port: DNS_PORT,
        };
        servers.push(ServerConf::new(addr, Transport::UdpTcp))?;
    }
    Ok(())
}

/// A configuration of servers by their addresses alone.
fn named(alloc: Global, ips: &[IpAddr]) -> Result<ResolvConf, NoMemory>
    ensures { IfOk result (λ conf. conf ≡ named ips.now) }
{
    let mut conf = ResolvConf::new(alloc);
    push_all(&mut conf.servers, ips)?;
    conf.finalize(alloc)?;
    Ok(conf)
}

/// With a time for a request, in seconds, if one is said.
fn timed(seconds: Option<u64>, mut conf: ResolvConf) -> ResolvConf
    ensures { result ≡ timed seconds conf }
{
    let Some(seconds) = seconds else {
        return conf;
    };
    conf.options.timeout = Duration::from_secs(seconds);
    conf
}

/// With so many rounds, if their number is said.
fn tried(tries: Option<usize>, mut conf: ResolvConf) -> ResolvConf
    ensures { result ≡ tried tries conf }
{
    let Some(tries) = tries else {
        return conf;
    };
    conf.options.attempts = tries;
    conf
}

/// With streams alone, if that is said.
fn streamed(tcp: bool, mut conf: ResolvConf) -> ResolvConf
    ensures { result ≡ streamed tcp conf }
{
    if tcp {
        conf.options.use_vc = true;
    }
    conf
}

fn is_v4(ip: IpAddr) -> bool
    ensures { result ≡ is_v4 ip }
{
    match ip {
        IpAddr::V4(_) => true,
        IpAddr::V6(_) => false,
    }
}

/// Whether a server's address is of a family, if one is said.
fn is_of_family(family: Option<Family>, server: &ServerConf) -> bool
    ensures { result ≡ is_of_family family server.now }
{
    match family {
        None => true,
        Some(Family::V4) => is_v4(server.addr.ip),
        Some(Family::V6) => !is_v4(server.addr.ip),
    }
}

/// Keeps the servers at addresses of a family, if one is said.
fn keep_family(family: Option<Family>, servers: &mut Vec<ServerConf>)
    ensures { servers.new.items ≡ filter (is_of_family family) servers.old.items }
{
    servers.retain(|server| is_of_family(family, server));
}

/// The servers at addresses of a family, if one is said.
fn servers_of(family: Option<Family>, servers: Servers) -> Servers
    ensures { result ≡ filter (is_of_family family) servers }
{
    let mut items = servers.into_vec();
    keep_family(family, &mut items);
    Servers::from_vec(items)
}

fn of_family(family: Option<Family>, conf: ResolvConf) -> ResolvConf
    ensures { result ≡ of_family family conf }
{
    let ResolvConf { servers, options } = conf;
    ResolvConf {
        servers: servers_of(family, servers),
        options,
    }
}

/// With a suffix in place of all others, if one is said.
fn with_domain(alloc: Global, lookup: &Lookup, mut conf: ResolvConf) -> Result<ResolvConf, NoMemory>
    ensures { IfOk result (λ c. c ≡ with_domain lookup.now.domain conf) }
{
    let Some(name) = &lookup.domain else {
        return Ok(conf);
    };
    let suffix = name.try_clone(alloc)?;
    conf.options.search = SearchList::from_suffix(alloc, suffix)?;
    Ok(conf)
}

/// With a count of dots, if one is said.
fn with_dots(dots: Option<usize>, mut conf: ResolvConf) -> ResolvConf
    ensures { result ≡ with_dots dots conf }
{
    if let Some(dots) = dots {
        conf.options.ndots = dots;
    }
    conf
}

/// With what the words say of addresses, the port, the time, streams and suffixes.
fn conf_asked(alloc: Global, lookup: &Lookup, base: ResolvConf) -> Result<ResolvConf, NoMemory>
    ensures { IfOk result (λ conf. conf ≡ conf_asked lookup.now base) }
{
    let conf = conf_at(lookup.port, of_family(lookup.family, base));
    let conf = streamed(lookup.tcp, timed(lookup.seconds, conf));
    let conf = with_domain(alloc, lookup, conf)?;
    Ok(with_dots(lookup.dots, conf))
}

/// The configuration that is found in a source, finalized.
fn ready_in<S: Source>(alloc: Global, source: &mut S) -> Result<Found, Ending>
    ensures ready { IfOk result (λ found. IfSome (S.left source.old) (λ text. IsReadyIn text found)) }
    ensures early { IfErr result IsEarly }
    ensures source_fault { IfErr result (λ e. status_of e ≡ 3 → Rose (S.faults source.old) (S.faults source.new)) }
    ensures too_long { IfErr result (λ e. status_of e ≡ 1 → IfSome (S.left source.old) (λ text. IsTooLong text (line_of e))) }
    ensures no_numbers { IfErr result (λ e. status_of e ≢ 7) }
{
    match Found::read(alloc, source) {
        Ok(mut found) => {
            found.conf.finalize(alloc)?;
            Ok(found)
        }
        Err(ReadFault::Failed) => Err(Ending::Silent(statuses::SOURCE_FAULT)),
        Err(ReadFault::TooLong) => Err(says(alloc, statuses::REFUSED, "input too long\n")),
        Err(ReadFault::NoMemory) => Err(Ending::Silent(statuses::NO_MEMORY)),
    }
}

/// Whether the file is needed though servers are named: suffixes are searched, and not all that it says of these is said.
fn is_file_needed(lookup: &Lookup) -> bool
    ensures { result ≡ is_file_needed lookup.now }
{
    lookup.search && !(lookup.domain.is_some() && lookup.dots.is_some())
}

/// A configuration with the suffixes of one that was found.
fn with_suffixes(found: Found, mut conf: ResolvConf) -> Found
    ensures { result ≡ record { conf = with_suffixes found.conf conf; notes = found.notes } }
{
    let Found { conf: from, notes } = found;
    let ResolvConf { options, .. } = from;
    let ResolvOptions { search, ndots, .. } = options;
    conf.options.search = search;
    conf.options.ndots = ndots;
    Found { conf, notes }
}

/// The configuration of the servers that words name, with the suffixes that are found in a source where these are searched, or else the
/// one that is found there.
#[tactic(auto, using(crate::proofs::Bases::named_base, crate::proofs::Bases::searched_base, crate::proofs::Bases::source_base))]
fn base_of<S: Source>(alloc: Global, lookup: &Lookup, source: &mut S) -> Result<Found, Ending>
    ensures base { IfOk result (λ found. IsBase lookup.now (S.left source.old) found) }
    ensures early { IfErr result IsEarly }
    ensures source_fault { IfErr result (λ e. status_of e ≡ 3 → Rose (S.faults source.old) (S.faults source.new)) }
    ensures too_long { IfErr result (λ e. status_of e ≡ 1 → IfSome (S.left source.old) (λ text. IsTooLong text (line_of e))) }
    ensures no_numbers { IfErr result (λ e. status_of e ≢ 7) }
{
    if lookup.servers.is_empty() {
        return ready_in(alloc, source);
    }
    let conf = named(alloc, lookup.servers.as_slice())?;
    if !is_file_needed(lookup) {
        return Ok(Found {
            conf,
            notes: Notes::new(alloc),
        });
    }
    match ready_in(alloc, source) {
        Ok(ready) => Ok(with_suffixes(ready, conf)),
        Err(ending) => Err(ending),
    }
}

/// The configuration that a lookup asks, and what is told of it: of the servers that its words name, or else the one that is
/// found in a source, as a client is given it in practice, with what the words say of it.
pub(crate) fn conf_of<S: Source, W: Words>(
    alloc: Global,
    lookup: &Lookup,
    source: &mut S,
    words: &mut W,
) -> Result<Found, Ending>
    ensures conf { IfOk result (λ found. IsConfOf lookup.now (S.left source.old) (W.stream words.old) found (W.stream words.new)) }
    ensures early { IfErr result IsEarly }
    ensures source_fault { IfErr result (λ e. status_of e ≡ 3 → Rose (S.faults source.old) (S.faults source.new)) }
    ensures too_long { IfErr result (λ e. status_of e ≡ 1 → IfSome (S.left source.old) (λ text. IsTooLong text (line_of e))) }
    ensures no_numbers { IfErr result (λ e. status_of e ≢ 7) }
{
    let Found { conf, notes } = match base_of(alloc, lookup, source) {
        Ok(base) => base,
        Err(ending) => return Err(ending),
    };
    let conf = practical(alloc, tried(lookup.tries, conf), words)?;
    let conf = conf_asked(alloc, lookup, conf)?;
    Ok(Found { conf, notes })
}
