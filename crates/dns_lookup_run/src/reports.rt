//! What is told of servers that were asked and gave no answer.

ghost use Rattle.std.specs.Prelude.{◌≡◌, IfOk, Some};
ghost use Rattle.std.specs.String.{string_bytes};
ghost use Rattle.dns_lookup_run.specs.Reports.{is_answer, is_of, is_same_ip, is_told, is_tried_again, is_try, news_text, report, report_line, reports_text, tries_of, tries_text, via_text};

use crate::watched_edge::{News, Opened};
use client_request::Via;
use dns_base::{NoMemory, Rcode};
use dns_values::{IpAddr, SocketAddr};
use resolv_conf::ServerConf;
use std::alloc::Global;
use std::fmt::{self, Display};

fn via_text(via: Via) -> &'static str
    ensures { result.now ≡ via_text via }
{
    match via {
        Via::Dgram => "UDP",
        Via::Stream => "TCP",
    }
}

/// What a place brought, as it is told; where there was no answer, a message that has the code of one is none.
#[derive(Clone, Copy)]
struct Brought {
    news: News,
    failed: bool,
}

/// Whether by this code there are data, or there is no such name.
fn is_answer(code: u8) -> bool
    ensures { result ≡ is_answer code }
{
    code == 0 || code == 3
}

impl Display for Brought {
    ghost output = { λ b. Some (news_text b.failed b.news) };

    fn fmt<W: fmt::Write>(&self, f: &mut fmt::Formatter<W>) -> fmt::Result {
        match self.news {
            News::Earlier => f.write_str("asked for an earlier request"),
            News::Nothing => f.write_str("no answer"),
            News::NoMessage => f.write_str("octets that are no message"),
            News::OtherId => f.write_str("an answer with another id"),
            News::Cut => f.write_str("a cut answer"),
            News::Code(code) => {
                if self.failed && is_answer(code) {
                    f.write_str("an answer to another question, or one that can't be read")
                } else {
                    write!(f, "{}", Rcode(code))
                }
            }
            News::Octets => f.write_str("octets of a stream, and no answer in them"),
            News::Fault(fault) => write!(f, "{fault}"),
        }
    }
}

/// Whether news are told: of a place that brought nothing, a fault, what is no answer, another code than that there are data or no such
/// name, or, where there was no answer, anything.
fn is_told(failed: bool, news: News) -> bool
    ensures { result ≡ is_told failed news }
{
    match news {
        News::Earlier => false,
        News::Nothing | News::NoMessage | News::OtherId => true,
        News::Cut | News::Octets => failed,
        News::Code(code) => failed || !is_answer(code),
        News::Fault(_) => true,
    }
}

/// Whether two addresses are the same.
fn is_same_ip(a: &IpAddr, b: &IpAddr) -> bool
    ensures { result ≡ is_same_ip a.now b.now }
{
    match (a, b) {
        (IpAddr::V4(a), IpAddr::V4(b)) => a.as_slice() == b.as_slice(),
        (IpAddr::V6(a), IpAddr::V6(b)) => a.as_slice() == b.as_slice(),
        _ => false,
    }
}

/// Whether a place is one of the server at this address.
fn is_of(servers: &[ServerConf], address: SocketAddr, opened: &Opened) -> bool
    ensures { result ≡ is_of servers.now address opened.now }
{
    match servers.get(opened.heard.server as usize) {
        Some(server) => {
            server.addr.port == address.port && is_same_ip(&server.addr.ip, &address.ip)
        }
        None => false,
    }
}

/// Whether a place of a server was opened for this request.
fn is_try(servers: &[ServerConf], address: SocketAddr, opened: &Opened) -> bool
    ensures { result ≡ is_try servers.now address opened.now }
{
    let is_earlier = match opened.news {
        News::Earlier => true,
        News::Nothing | News::NoMessage | News::OtherId | News::Cut => false,
        News::Code(_) | News::Octets | News::Fault(_) => false,
    };
    is_of(servers, address, opened) && !is_earlier
}

/// How many places of a server were opened for this request.
fn tries_of(servers: &[ServerConf], address: SocketAddr, opened: &[Opened]) -> usize
    ensures { result ≡ tries_of servers.now address opened.now }
{
    let mut tries = 0;
    for one in opened {
        if is_try(servers, address, one) {
            tries += 1;
        }
    }
    tries
}

/// How often a server was asked, where it was more than once.
fn tries_text(alloc: Global, tries: usize) -> Result<String, NoMemory>
    ensures { IfOk result (λ s. string_bytes s ≡ tries_text tries) }
{
    if tries < 2 {
        return Ok(String::new(alloc));
    }
    Ok(format!(in alloc; ", asked {tries} times")?)
}

/// The line that tells what a place of a server brought that was asked so often.
fn report_line(
    alloc: Global,
    failed: bool,
    prefix: &str,
    server: SocketAddr,
    tries: usize,
    opened: &Opened,
) -> Result<String, NoMemory>
    ensures { IfOk result (λ s. string_bytes s ≡ report_line failed prefix.now server tries opened.now) }
{
    let via = via_text(opened.heard.via);
    let news = opened.news;
    let often = tries_text(alloc, tries)?;
    let often = often.as_str();
    Ok(format!(in alloc;
        "{prefix}{server} ({via}){often}: {}\n",
        Brought { news, failed }
    )?)
}

/// Whether a server has a later place.
fn is_tried_again(servers: &[ServerConf], address: SocketAddr, later: &[Opened]) -> bool
    ensures { result ≡ is_tried_again servers.now address later.now }
{
    later.iter().any(|other| is_of(servers, address, other))
}

/// The line of a place among all of them, if its news are told and its server has no later place.
fn report(
    alloc: Global,
    failed: bool,
    prefix: &str,
    servers: &[ServerConf],
    all: &[Opened],
    opened: &Opened,
    later: &[Opened],
) -> Result<String, NoMemory>
    ensures { IfOk result (λ s. string_bytes s ≡ report failed prefix.now servers.now all.now opened.now later.now) }
{
    let Some(server) = servers.get(opened.heard.server as usize) else {
        return Ok(String::new(alloc));
    };
    let address = server.addr;
    if !is_told(failed, opened.news) || is_tried_again(servers, address, later) {
        return Ok(String::new(alloc));
    }
    let tries = tries_of(servers, address, all);
    report_line(alloc, failed, prefix, address, tries, opened)
}

/// A line, behind the prefix, for each server whose last place brought no answer that can be used; where there was no answer at all, for each.
pub(crate) fn reports(
    alloc: Global,
    failed: bool,
    prefix: &str,
    servers: &[ServerConf],
    opened: &[Opened],
) -> Result<String, NoMemory>
    ensures { IfOk result (λ s. string_bytes s ≡ reports_text failed prefix.now servers.now opened.now) }
{
    let mut text = String::new(alloc);
    let mut rest = opened;
    while let Some((one, later)) = rest.split_first() {
        let line = report(alloc, failed, prefix, servers, opened, one, later)?;
        text.push_str(line.as_str())?;
        rest = later;
    }
    Ok(text)
}
