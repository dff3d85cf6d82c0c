//! What words say, one after another.

ghost use Rattle.std.specs.Prelude.{◌≡◌, ◌++◌, ◌<◌, length, OnOk};
ghost use Rattle.dns_lookup_words.specs.Asks.{asks_of, usual, usual_asking};
ghost use Rattle.dns_lookup_words.specs.Words.{nothing_said};

use crate::manner::{Announced, Ask, Family, Flags, Layout, Manner};
use crate::wrong::Value;
use dns_names::Name;
use dns_values::{Class, IpAddr, NoMemory, Rtype, Seq};
use std::alloc::Global;

/// What the next word is.
#[derive(Clone, Copy)]
pub(crate) enum Next {
    /// A server, an option, a name, the class or the type.
    Any,
    /// No option: `--` stands before it.
    Plain,
    /// The value of an option.
    Value(Value),
}

/// What is said of a name.
#[derive(Clone, Copy)]
pub(crate) struct Asking {
    pub(crate) rtype: Option<Rtype>,
    /// Whether the type was said behind `-t`, so that a word alone is none.
    pub(crate) typed: bool,
    /// Whether the name ends in its root, so that no suffix is searched for it.
    pub(crate) rooted: bool,
    pub(crate) manner: Manner,
}

/// What words say so far.
#[derive(Drop)]
pub(crate) struct Said {
    pub(crate) servers: Seq<IpAddr>,
    /// Whether a server stands behind a name.
    pub(crate) late: bool,
    pub(crate) port: Option<u16>,
    pub(crate) family: Option<Family>,
    pub(crate) tcp: bool,
    pub(crate) seconds: Option<u64>,
    pub(crate) tries: Option<usize>,
    pub(crate) announced: Announced,
    pub(crate) search: bool,
    /// The suffix that is searched, in place of those of the configuration.
    pub(crate) domain: Option<Name>,
    /// How many dots a name has that is asked for as it stands first, in place of what the configuration says.
    pub(crate) dots: Option<usize>,
    pub(crate) walk: bool,
    /// The requests of the names that stand before the last.
    pub(crate) asks: Seq<Ask>,
    /// The last name.
    pub(crate) name: Option<Name>,
    /// What is said of it; where there is none, of all names.
    pub(crate) asking: Asking,
    /// What was said before the first name, of all names.
    pub(crate) common: Asking,
    pub(crate) next: Next,
}

/// How a name is asked for of which nothing is said.
fn usual() -> Manner
    ensures { result ≡ usual }
{
    Manner {
        class: Class::IN,
        flags: Flags {
            recursion: true,
            authentic: false,
            unchecked: false,
            authoritative: false,
            truncated: false,
            available: false,
            reserved: false,
            dnssec: false,
            nsid: false,
            expire: false,
        },
        layout: Layout {
            short: false,
            identify: false,
            json: false,
            yaml: false,
            multiline: false,
            ttl: true,
            class: true,
            units: false,
            expanded: false,
            query: false,
            question: true,
            answer: true,
            authority: true,
            additional: true,
            comments: true,
            stats: true,
        },
    }
}

/// What no word says of a name.
fn usual_asking() -> Asking
    ensures { result ≡ usual_asking }
{
    Asking {
        rtype: None,
        typed: false,
        rooted: false,
        manner: usual(),
    }
}

/// Adds the requests of a name: one for its type, or for A and then for AAAA.
pub(crate) fn push_asks(
    alloc: Global,
    asks: &mut Seq<Ask>,
    name: Name,
    asking: Asking,
) -> Result<(), NoMemory>
    ensures asked { OnOk result (asks.new ≡ asks.old ++ asks_of name asking) }
    ensures some { OnOk result (0 < length asks.new) }
{
    let Asking { rooted, manner, .. } = asking;
    if let Some(rtype) = asking.rtype {
        asks.push(Ask {
            name,
            rtype,
            rooted,
            manner,
        })?;
        return Ok(());
    }
    let again = name.try_clone(alloc)?;
    asks.push(Ask {
        name: again,
        rtype: Rtype::A,
        rooted,
        manner,
    })?;
    asks.push(Ask {
        name,
        rtype: Rtype::AAAA,
        rooted,
        manner,
    })?;
    Ok(())
}

impl Said {
    /// What no word says.
    pub(crate) fn new(alloc: Global) -> Said
        ensures { result ≡ nothing_said }
    {
        Said {
            servers: Seq::new(alloc),
            late: false,
            port: None,
            family: None,
            tcp: false,
            seconds: None,
            tries: None,
            announced: Announced::Usual,
            search: false,
            domain: None,
            dots: None,
            walk: false,
            asks: Seq::new(alloc),
            name: None,
            asking: usual_asking(),
            common: usual_asking(),
            next: Next::Any,
        }
    }
}
