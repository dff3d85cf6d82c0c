//! Walks from the root down, whose servers say what a line gives.

ghost use Rattle.std.specs.Prelude.{None};

use crate::given::octets;
use dns_base::{IpAddr, Message, Name, NoMemory, Octets, Seq};
use dns_lookup_walk::{Ending, NameServer, Verdict, World, walk};
use dns_lookup_words::{Lookup, lookup_of};
use std::alloc::Global;

/// Servers and others that say these, one after another, and what they were asked.
#[derive(Drop)]
struct Play<'a> {
    alloc: Global,
    /// What is left: a message in digits, or addresses between commas; `-` stands for none.
    left: &'a [&'a str],
    text: String,
}

impl<'a> Play<'a> {
    /// What is said next; none where nothing is left.
    fn next(&mut self) -> &'a str {
        match self.left {
            [first, behind @ ..] => {
                self.left = behind;
                first
            }
            [] => "-",
        }
    }
}

/// The message of digits, if they are one.
fn message_of(alloc: Global, digits: &str) -> Option<Message> {
    let octets = octets(alloc, digits.as_bytes()).ok()?;
    let octets = Octets::from_vec(octets).ok()?;
    Message::from_octets(octets).ok()
}

/// The name and the type that a message asks, and whether recursion is desired.
fn asked_text(alloc: Global, question: &Message) -> Result<String, NoMemory> {
    let desired = question.header().rd();
    match question.first_question() {
        Some(asked) => {
            let (name, rtype) = (asked.qname(), asked.qtype());
            Ok(format!(in alloc; "{name} {rtype} {desired}")?)
        }
        None => Ok(String::new(alloc)),
    }
}

impl World for Play<'_> {
    ghost deeds = { λ _. None };

    fn ask(
        &mut self,
        server: &NameServer,
        question: &Message,
    ) -> Result<Option<Message>, NoMemory> {
        let ip = server.ip;
        let asked = asked_text(self.alloc, question)?;
        let line = format!(in self.alloc; "asked {ip} {asked}\n")?;
        self.text.push_str(line.as_str())?;
        Ok(message_of(self.alloc, self.next()))
    }

    fn look_up(&mut self, name: &Name) -> Result<Seq<IpAddr>, NoMemory> {
        let line = format!(in self.alloc; "looked up {name}\n")?;
        self.text.push_str(line.as_str())?;
        let mut addresses = Seq::new(self.alloc);
        for text in self.next().split(',') {
            if let Ok(ip) = IpAddr::from_text(text) {
                addresses.push(ip)?;
            }
        }
        Ok(addresses)
    }

    fn tell(
        &mut self,
        server: &NameServer,
        came: &Option<Message>,
        verdict: &Verdict,
    ) -> Result<(), NoMemory> {
        let ip = server.ip;
        let came = came.is_some();
        let line = match verdict {
            Verdict::Ends(_) => format!(in self.alloc; "told {ip} {came} final\n")?,
            Verdict::Refers(zone) => format!(in self.alloc; "told {ip} {came} refers to {zone}\n")?,
            Verdict::Fails(failure) => format!(in self.alloc; "told {ip} {came} {failure}\n")?,
        };
        self.text.push_str(line.as_str())?;
        Ok(())
    }
}

/// How a walk ended.
fn ending_text(ending: Option<Ending>) -> &'static str {
    match ending {
        Some(Ending::Answered) => "walk answered\n",
        Some(Ending::NoName) => "walk no name\n",
        Some(Ending::NoData) => "walk no data\n",
        None => "walk stranded\n",
    }
}

/// The lookup of a name and a type.
fn lookup(alloc: Global, name: &str, rtype: &str) -> Option<Lookup> {
    let mut words = Vec::new(alloc);
    for word in [name, "-t", rtype] {
        words.push(String::from_str(alloc, word).ok()?).ok()?;
    }
    lookup_of(alloc, &words).ok()
}

/// What is done in a walk to a name for a type, and how it ends.
pub fn walk_text(alloc: Global, rest: &str) -> Option<String> {
    let mut said = Vec::new(alloc);
    for word in rest.split(' ') {
        said.push(word).ok()?;
    }
    let [name, rtype, given, left @ ..] = said.as_slice() else {
        return None;
    };
    let lookup = lookup(alloc, name, rtype)?;
    let ask = lookup.asks.as_slice().first()?;
    let mut servers = Seq::new(alloc);
    servers
        .push(NameServer {
            name: None,
            ip: IpAddr::from_text(given).ok()?,
        })
        .ok()?;
    let mut play = Play {
        alloc,
        left,
        text: String::new(alloc),
    };
    let ending = walk(alloc, &mut play, ask, servers).ok()?;
    play.text.push_str(ending_text(ending)).ok()?;
    let Play { text, .. } = play;
    Some(text)
}
