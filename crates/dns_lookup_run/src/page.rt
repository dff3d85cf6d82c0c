//! What is written of an answer.

use crate::asking::Outcome;
use crate::reports::reports;
use crate::watched_edge::{Heard, Opened};
use client_request::Via;
use dns_base::{Message, NoMemory};
use dns_lookup_pages::{
    Lacking, json_text, lacking_in, message_text, query_of, short_text, yaml_text,
};
use dns_lookup_words::{Ask, Layout};
use dns_values::{IpAddr, SocketAddr};
use resolv_conf::ServerConf;
use std::alloc::Global;
use std::fmt::{self, Display};

/// Who answered, and by which transport, if one was asked.
#[derive(Clone, Copy)]
struct Answerer<'a> {
    heard: Option<Heard>,
    servers: &'a [ServerConf],
}

impl Answerer<'_> {
    /// The address of the server, if one was heard.
    fn address(&self) -> Option<(SocketAddr, Via)> {
        let heard = self.heard?;
        let server = self.servers.get(heard.server as usize)?;
        Some((server.addr, heard.via))
    }
}

impl Display for Answerer<'_> {
    fn fmt<W: fmt::Write>(&self, f: &mut fmt::Formatter<W>) -> fmt::Result {
        match self.address() {
            Some((address, Via::Dgram)) => write!(f, "{address} (UDP)"),
            Some((address, Via::Stream)) => write!(f, "{address} (TCP)"),
            None => f.write_str("none, from an answer that was kept"),
        }
    }
}

/// The message of a request as text, behind a line that says what it is; none where a layout has no request.
pub fn query_text(alloc: Global, layout: Layout, query: &Message) -> Result<String, NoMemory> {
    if !layout.query {
        return Ok(String::new(alloc));
    }
    let text = message_text(alloc, layout, query)?;
    Ok(format!(in alloc;
        ";; Request, before a transport gives it an id and an OPT record:\n{text}\n"
    )?)
}

/// Behind a message which servers gave no answer, how long it took, who answered, by which transport, and its octets; none where that
/// is not asked for.
fn stats_text(
    alloc: Global,
    ask: &Ask,
    message: &Message,
    outcome: &Outcome,
    servers: &[ServerConf],
    opened: &[Opened],
) -> Result<String, NoMemory> {
    if !ask.manner.layout.stats {
        return Ok(String::new(alloc));
    }
    let millis = outcome.micros / 1000;
    let size = message.as_slice().len();
    let answerer = Answerer {
        heard: outcome.heard,
        servers,
    };
    let failed = reports(alloc, false, ";; FAILED: ", servers, opened)?;
    let meaning = lacking_text(lacking_in(message));
    Ok(format!(in alloc;
        "\n{meaning}{failed};; Query time: {millis} msec\n;; SERVER: {answerer}\n;; MSG SIZE  rcvd: {size}\n\n"
    )?)
}

/// What an answer without data means, on a line.
fn lacking_text(lacking: Option<Lacking>) -> &'static str {
    match lacking {
        Some(Lacking::Name) => ";; There is no such name.\n",
        Some(Lacking::Data) => ";; The name is there, and has no records of this type.\n",
        _ => "",
    }
}

/// A message in the layout that is asked for, the request before it, and behind it what is told of its way.
fn whole_page(
    alloc: Global,
    ask: &Ask,
    message: &Message,
    outcome: &Outcome,
    servers: &[ServerConf],
    opened: &[Opened],
) -> Result<String, NoMemory> {
    let layout = ask.manner.layout;
    let query = query_of(alloc, ask)?;
    let mut text = query_text(alloc, layout, &query)?;
    text.push_str(&message_text(alloc, layout, message)?)?;
    text.push_str(&stats_text(alloc, ask, message, outcome, servers, opened)?)?;
    Ok(text)
}

/// What stands behind the data of a record: who answered, and in which time, if that is asked for.
fn identity(
    alloc: Global,
    layout: Layout,
    outcome: &Outcome,
    servers: &[ServerConf],
) -> Result<String, NoMemory> {
    if !layout.identify {
        return Ok(String::new(alloc));
    }
    let millis = outcome.micros / 1000;
    let answerer = Answerer {
        heard: outcome.heard,
        servers,
    };
    Ok(format!(in alloc; " from server {answerer} in {millis} ms.")?)
}

/// Who answered, and by which transport, line by line; none where it was answered from what is kept.
fn source_text(alloc: Global, answerer: Answerer<'_>) -> Result<String, NoMemory> {
    let Some((address, via)) = answerer.address() else {
        return Ok(String::new(alloc));
    };
    let SocketAddr { ip, port } = address;
    let family = match ip {
        IpAddr::V4(_) => "INET",
        IpAddr::V6(_) => "INET6",
    };
    let protocol = match via {
        Via::Dgram => "UDP",
        Via::Stream => "TCP",
    };
    Ok(format!(in alloc;
        "    socket_family: {family}\n    socket_protocol: {protocol}\n    response_address: \"{ip}\"\n    response_port: {port}\n"
    )?)
}

/// A message as a document of YAML, with these lines of where it came from; as `dig` has it, but for the moments and this host's address,
/// which are not known.
pub fn document(
    alloc: Global,
    layout: Layout,
    message: &Message,
    source: &str,
) -> Result<String, NoMemory> {
    let header = message.header();
    let kind = if header.rd() && header.ra() {
        "RECURSIVE"
    } else {
        "AUTH"
    };
    let size = message.as_slice().len();
    let data = yaml_text(alloc, layout, message)?;
    Ok(format!(in alloc;
        "-\n  type: MESSAGE\n  message:\n    type: {kind}_RESPONSE\n    message_size: {size}b\n{source}    response_message_data:\n{data}"
    )?)
}

/// What is written of a message.
pub(crate) fn page(
    alloc: Global,
    ask: &Ask,
    message: &Message,
    outcome: &Outcome,
    servers: &[ServerConf],
    opened: &[Opened],
) -> Result<String, NoMemory> {
    let layout = ask.manner.layout;
    if layout.json {
        return json_text(alloc, message);
    }
    if layout.yaml {
        let answerer = Answerer {
            heard: outcome.heard,
            servers,
        };
        let source = source_text(alloc, answerer)?;
        return document(alloc, layout, message, source.as_str());
    }
    if layout.short {
        let behind = identity(alloc, layout, outcome, servers)?;
        return short_text(alloc, layout, message, &behind);
    }
    whole_page(alloc, ask, message, outcome, servers, opened)
}
