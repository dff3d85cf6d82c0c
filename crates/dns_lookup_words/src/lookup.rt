//! What words ask.

ghost use Rattle.std.specs.Prelude.{◌≡◌, ◌<◌, length, IfOk};
ghost use Rattle.dns_lookup_words.specs.Words.{Gives, IsJudged, IsSaidBy, asked, named};

use crate::manner::{Announced, Ask, Family};
use crate::said::{Next, Said, push_asks};
use crate::wrong::{Fault, Refusal};
use dns_names::Name;
use dns_values::{IpAddr, Seq};
use std::alloc::Global;

/// What is asked, and of which servers.
#[derive(Drop)]
pub struct Lookup {
    /// The servers that are asked, in order; where there are none, those of the system's configuration.
    pub servers: Seq<IpAddr>,
    /// The port at which every server is asked, in place of its own.
    pub port: Option<u16>,
    /// The addresses at which servers are asked, if not at those of both families.
    pub family: Option<Family>,
    /// Whether servers are asked by streams alone.
    pub tcp: bool,
    /// How long a request may take, in seconds, in place of what the configuration says.
    pub seconds: Option<u64>,
    /// In how many rounds servers are asked, from 1 to 5, in place of what the configuration says.
    pub tries: Option<usize>,
    /// The payload size that requests announce.
    pub announced: Announced,
    /// Whether suffixes are searched for names.
    pub search: bool,
    /// The suffix that is searched, in place of those of the configuration.
    pub domain: Option<Name>,
    /// How many dots a name has that is asked for as it stands first, in place of what the configuration says.
    pub dots: Option<usize>,
    /// Whether each name is asked for from the root on, zone by zone, at the servers of each zone.
    pub walk: bool,
    /// The requests, in order, one at least: of a name without a type one for A, and then one for AAAA.
    pub asks: Seq<Ask>,
}

/// The lookup of what is said, where there is a name.
fn named(alloc: Global, said: Said) -> Result<Lookup, Fault>
    ensures given { Gives (named said.name said) result }
    ensures some { IfOk result (λ lookup. 0 < length lookup.asks) }
{
    let Said {
        servers,
        late: _,
        port,
        family,
        tcp,
        seconds,
        tries,
        announced,
        search,
        domain,
        dots,
        walk,
        mut asks,
        name,
        asking,
        common: _,
        next: _,
    } = said;
    let Some(name) = name else {
        return Err(Fault::Refused(Refusal::NoName));
    };
    match push_asks(alloc, &mut asks, name, asking) {
        Ok(()) => Ok(Lookup {
            servers,
            port,
            family,
            tcp,
            seconds,
            tries,
            announced,
            search,
            domain,
            dots,
            walk,
            asks,
        }),
        Err(_) => Err(Fault::NoMemory),
    }
}

/// The lookup that is said: a name, and no value is due.
fn asked(alloc: Global, said: Said) -> Result<Lookup, Fault>
    ensures given { Gives (asked said) result }
    ensures some { IfOk result (λ lookup. 0 < length lookup.asks) }
{
    match said.next {
        Next::Value(value) => Err(Fault::Refused(Refusal::NoValue(value))),
        Next::Any => named(alloc, said),
        Next::Plain => named(alloc, said),
    }
}

/// What the words say, one after another.
fn said_by(alloc: Global, words: &[String]) -> Result<Said, Fault>
    ensures { IsSaidBy words.now result }
{
    let mut said = Said::new(alloc);
    match said.take_all(alloc, words) {
        Ok(()) => Ok(said),
        Err(fault) => Err(fault),
    }
}

/// The lookup of the words, which do not hold the program's own name.
///
/// A word that begins with `@` names a server by its address, in brackets or not, or this host by `localhost`, with `#PORT` behind it
/// or not. One that begins with a plus is an option of `dig` or the first letters of one, `no` turns it off; one that begins with a
/// hyphen is an option of one letter, whose value is glued to it or the next word. Behind `--` no word is an option. Any other word
/// is the type or the class, where it names one, and else a name. Of several ports, types, classes, times, tries or payload
/// sizes the last counts.
///
/// What is said before the first name is said of all names, and what is said behind one of that name alone; but servers, the port,
/// `-4` and `-6`, `+tcp`, `+time`, `+tries`, `+bufsize`, `+edns`, `+search`, `+domain`, `+ndots` and `+trace` are of all names wherever they
/// stand, and servers behind a name are refused where another name stands behind that. `Refused` names the first word that is wrong, or
/// says which value or that a name is missing.
pub fn lookup_of(alloc: Global, words: &[String]) -> Result<Lookup, Fault>
    ensures judged { IsJudged words.now result }
    ensures some { IfOk result (λ lookup. 0 < length lookup.asks) }
{
    match said_by(alloc, words) {
        Ok(said) => asked(alloc, said),
        Err(fault) => Err(fault),
    }
}
