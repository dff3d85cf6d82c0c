//! What is asked at a station.

ghost use Rattle.std.specs.Prelude.{◌≡◌, false, IfOk};
ghost use Rattle.dns_lookup_walk.specs.Deeds.{asked_at, question_at};

use crate::station::Station;
use dns_base::{Message, Name, NoMemory, Rtype};
use dns_lookup_pages::query_of;
use dns_lookup_words::{Ask, Manner};
use std::alloc::Global;

/// The same manner, with no recursion desired.
fn without_recursion(manner: Manner) -> Manner
    ensures { result ≡ record manner { flags = record manner.flags { recursion = false } } }
{
    let mut manner = manner;
    manner.flags.recursion = false;
    manner
}

/// What is asked of the servers of a station.
fn asked_at(alloc: Global, ask: &Ask, station: &Station) -> Result<Ask, NoMemory>
    ensures { IfOk result (λ r. r ≡ asked_at ask.now station.now) }
{
    match station {
        Station::Given => Ok(Ask {
            name: Name::root(alloc),
            rtype: Rtype::NS,
            rooted: ask.rooted,
            manner: ask.manner,
        }),
        Station::Zone(_) => {
            let name = ask.name.try_clone(alloc)?;
            Ok(Ask {
                name,
                rtype: ask.rtype,
                rooted: ask.rooted,
                manner: without_recursion(ask.manner),
            })
        }
    }
}

/// The message that asks it.
pub(crate) fn question_at(alloc: Global, ask: &Ask, station: &Station) -> Result<Message, NoMemory>
    ensures { IfOk result (λ m. m ≡ question_at ask.now station.now) }
{
    let asked = asked_at(alloc, ask, station)?;
    query_of(alloc, &asked)
}
