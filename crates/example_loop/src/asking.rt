//! What is asked, of which server, and with which words.

use crate::trouble::Trouble;
use client_core::What;
use client_request::{ListWords, RequestMessage, WordList};
use dns_base::{IpAddr, Message, Name, Rtype, SocketAddr};
use resolv_conf::{ResolvConf, ServerConf, Transport};
use std::alloc::Global;

/// A configuration of one server, at port 53.
pub(crate) fn conf_of(alloc: Global, address: [u8; 4]) -> Result<ResolvConf, Trouble> {
    let addr = SocketAddr {
        ip: IpAddr::V4(address),
        port: 53,
    };
    let mut conf = ResolvConf::new(alloc);
    conf.servers.push(ServerConf::new(addr, Transport::UdpTcp))?;
    Ok(conf)
}

/// Real words are random: they become the ids of what is sent (RFC 5452 9.2).
pub(crate) fn words(alloc: Global) -> Result<ListWords, Trouble> {
    let mut words = WordList::new(alloc);
    words.push(4660)?;
    Ok(ListWords::new(words))
}

/// The event that asks for the address of a name.
pub(crate) fn question(alloc: Global, name: &str) -> Result<What, Trouble> {
    let name = Name::from_text(alloc, name)?;
    let query = Message::query(alloc, &name, Rtype::A)?;
    let request = RequestMessage::new(alloc, query)?;
    Ok(What::Ask { request })
}
