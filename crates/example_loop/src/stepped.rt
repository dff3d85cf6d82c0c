//! One question, stepped by hand: this program does what the outs say, and plays the server, which answers what was sent. What the client
//! was told is written as a script, which is printed in the end.

use crate::asking::question;
use crate::outs::sent;
use crate::recorded::Recorded;
use crate::server::answer_to;
use crate::trouble::Trouble;
use client_core::What;
use dns_base::Octets;
use std::alloc::Global;

/// The question is asked: the client wants a place opened.
fn ask(rt: &impl Print, alloc: Global, client: &mut Recorded) -> Result<(), Trouble> {
    let what = question(alloc, "example.com")?;
    client.tell(rt, 0, what)?;
    Ok(())
}

/// Its place is open: the client wants octets sent there, which the server answers.
fn open(rt: &impl Print, alloc: Global, client: &mut Recorded) -> Result<Octets, Trouble> {
    let row = client.tell(rt, 10, What::Opened { place: 0 })?;
    match sent(&row) {
        Some(query) => answer_to(alloc, query),
        None => Err(Trouble::NothingSent),
    }
}

/// The answer comes: the client has its reply.
fn take(rt: &impl Print, octets: Octets, client: &mut Recorded) -> Result<(), Trouble> {
    client.tell(rt, 20_000, What::Datagram { place: 0, octets })?;
    Ok(())
}

pub(crate) fn run(rt: &impl Print, alloc: Global) -> Result<(), Trouble> {
    let mut client = Recorded::new(alloc)?;
    ask(rt, alloc, &mut client)?;
    let octets = open(rt, alloc, &mut client)?;
    take(rt, octets, &mut client)?;
    client.print_record(rt)
}
