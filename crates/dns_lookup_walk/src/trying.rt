//! Servers that are asked until one does not fail.

ghost use Rattle.std.specs.Prelude.{◌≡◌, IfOk};
ghost use Rattle.dns_lookup_walk.specs.Trying.{DidAsk, DidTry, heard_of};

use crate::asked::question_at;
use crate::judging::judge;
use crate::server::NameServer;
use crate::station::Station;
use crate::verdict::Verdict;
use crate::world::World;
use dns_base::{Message, NoMemory};
use dns_lookup_words::Ask;
use std::alloc::Global;

/// A message of a server that did not fail, and what it means.
#[derive(Drop)]
pub(crate) struct UsefulAnswer {
    pub(crate) message: Message,
    pub(crate) verdict: Verdict,
}

/// A message that came, with what it means, if it does not fail.
fn heard_of(came: Option<Message>, verdict: Verdict) -> Option<UsefulAnswer>
    ensures { result ≡ heard_of came verdict }
{
    if verdict.fails() {
        return None;
    }
    match came {
        Some(message) => Some(UsefulAnswer { message, verdict }),
        None => None,
    }
}

/// Asks a server, and tells what its answer means. None where it fails.
fn ask_server<W: World>(
    alloc: Global,
    world: &mut W,
    ask: &Ask,
    station: &Station,
    server: &NameServer,
) -> Result<Option<UsefulAnswer>, NoMemory>
    ensures { IfOk result (λ heard. DidAsk W.deeds ask.now station.now server.now heard world.old world.new) }
{
    let question = question_at(alloc, ask, station)?;
    let came = world.ask(server, &question)?;
    let verdict = judge(alloc, &ask.name, station, &came)?;
    world.tell(server, &came, &verdict)?;
    Ok(heard_of(came, verdict))
}

/// Asks servers in order until one does not fail. None where each does.
pub(crate) fn first_heard<W: World>(
    alloc: Global,
    world: &mut W,
    ask: &Ask,
    station: &Station,
    servers: &[NameServer],
) -> Result<Option<UsefulAnswer>, NoMemory>
    ensures { IfOk result (λ heard. DidTry W.deeds ask.now station.now servers.now heard world.old world.new) }
{
    let mut rest = servers;
    'servers: while let Some((server, later)) = rest.split_first() {
        if let Some(heard) = ask_server(alloc, world, ask, station, server)? {
            return Ok(Some(heard));
        }
        rest = later;
    }
    Ok(None)
}
