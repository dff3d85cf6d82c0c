//! Whether an out is right where it is put.

ghost use Rattle.std.specs.Prelude.{◌≡◌, IfOk, option_copied};
ghost use Rattle.number_table.specs.Entries.{entry_at};
ghost use Rattle.trace_points.specs.questions.Outs as plain;

use crate::questions::configured::TraceConf;
use client_request::Via;
use dns_base::{NoMemory, Octets};
use message_judging::matching::carries;
use trace_tables::{Books, Place, Stand, same_via};

/// Whether a reply to a request would be its first: it was asked, and has none.
#[tactic(auto, using(crate::proofs::lemmas::questions::Deciding::tells_first))]
pub fn is_first(books: &Books, request: u64) -> bool
    ensures value { result ≡ plain.first_seen request books.now }
    ensures told { plain.TellsFirst request books.now result }
{
    books.requests.askings.contains_key(request) && !books.requests.is_replied(request)
}

/// The server of a place that is alive and of this kind.
pub(crate) fn alive_server(place: Option<&Place>, via: Via) -> Option<u32>
    ensures { result ≡ plain.alive_server via (option_copied place.entry) }
{
    let place = place?;
    if same_via(place.via, via) && matches!(place.stand, Stand::Alive) {
        Some(place.server)
    } else {
        None
    }
}

/// Whether octets carry a request that was asked.
pub(crate) fn is_carried(
    conf: &TraceConf,
    books: &Books,
    via: Via,
    octets: &Octets,
    request: u64,
    id: u16,
) -> Result<bool, NoMemory>
    ensures { IfOk result (λ b. b ≡ plain.carried conf.now via octets.now id (entry_at request books.now.requests.askings)) }
{
    match books.requests.askings.get(request) {
        None => Ok(false),
        Some(asked) => {
            let payload_size = conf.udp_payload_size();
            carries(conf.alloc(), payload_size, via, octets, &asked.request, id)
        }
    }
}

/// Whether what is kept of a send tells that it may be.
fn is_send_right(
    conf: &TraceConf,
    past: &Books,
    here: &Books,
    request: u64,
    place: u64,
    id: u16,
    octets: &Octets,
) -> Result<bool, NoMemory>
    ensures { IfOk result (λ b. b ≡ plain.send_seen conf.now past.now here.now request place id octets.now) }
{
    let Some(server) = alive_server(here.places.get(place), Via::Dgram) else {
        return Ok(false);
    };
    let most = u64::from(conf.max_tries());
    if past.requests.is_replied(request)
        || !here.requests.is_started(request, server, Via::Dgram)
        || here.sends.is_used(place)
        || here.sends.count(request, server, most) >= most
    {
        return Ok(false);
    }
    is_carried(conf, here, Via::Dgram, octets, request, id)
}

/// Whether a request may be sent at a place: `past` is what was known before the row, and `here` what is known where it is
/// sent.
pub fn may_send(
    conf: &TraceConf,
    past: &Books,
    here: &Books,
    request: u64,
    place: u64,
    id: u16,
    octets: &Octets,
) -> Result<bool, NoMemory>
    ensures { IfOk result (plain.TellsSend conf.now past.now here.now request place id octets.now) }
{
    is_send_right(conf, past, here, request, place, id, octets)
}

/// Whether a datagram place may be opened to a server.
#[tactic(auto, using(crate::proofs::lemmas::questions::Deciding::tells_opening))]
pub fn may_open(conf: &TraceConf, books: &Books, place: u64, server: u32) -> bool
    ensures value { result ≡ plain.opens_seen conf.now place server books.now }
    ensures told { plain.TellsOpening conf.now place server books.now result }
{
    conf.has_server(server) && !books.places.contains_key(place)
}
