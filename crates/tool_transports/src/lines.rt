//! What is printed for a line.
//!
//! A line is led by a word, which says what is shown; the modules say of theirs what stands behind it. `let NAME TEXT` lets a name
//! stand for a text in the lines behind it. In each line a word may be put together of texts and names by `+`, and
//! `TEXT*COUNT` is a text so many times. Things that are shown stand between commas, and `-` where there is nothing.

use crate::lets::Lets;
use crate::reading::first_word;
use crate::streams::Families;
use crate::{
    asked, boards, clients, errors, resolving, servers, settings, sockets, telling, timers, turns,
    upstreams, zones,
};
use std::alloc::Global;

/// Says what a line shows of what transports are made of.
fn show_part(alloc: Global, word: &str, rest: &str, said: &mut String) -> Option<()> {
    match word {
        "timers" => timers::show(alloc, rest, said),
        "board" => boards::show(alloc, rest, said),
        "limits" => settings::show_limits(rest, said),
        "settings" => settings::show(rest, said),
        "error" => errors::show(alloc, rest, said),
        "copy-error" => errors::show_of_copy(rest, said),
        "connector" => sockets::show_connector(alloc, rest, said),
        "socket" => sockets::show(alloc, rest, said),
        "estimate" => servers::show_estimate(rest, said),
        "serve-fail" => servers::show_failed(alloc, rest, said),
        "below" => servers::show_below(alloc, rest, said),
        "updates" => zones::show_updates(alloc, rest, said),
        "zone" => zones::show_zone(alloc, rest, said),
        "fetch" => zones::show_fetch(alloc, rest, said),
        _ => resolving::show(alloc, word, rest, said),
    }
}

fn show(alloc: Global, word: &str, rest: &str, said: &mut String) -> Option<()> {
    match word {
        "dgram" | "fallback" | "choice" | "balancer" => telling::show(alloc, word, rest, said),
        "upstream" => upstreams::show(alloc, rest, said),
        "request" | "recorded" | "transfer" => asked::show(alloc, word, rest, said),
        "client" => clients::show_client(alloc, rest, said),
        "clock" => clients::show_clock(alloc, rest, said),
        "edge" => clients::show_edge(alloc, rest, said),
        "fault" => clients::show_fault(alloc, rest, said),
        "ask" => turns::show_ask(alloc, rest, false, said),
        "ask-long" => turns::show_ask(alloc, rest, true, said),
        "ask-both" => turns::show_both(alloc, rest, said),
        "turn" => turns::show_turn(alloc, rest, said),
        "learn" => turns::show_learned(alloc, rest, said),
        "poor" => turns::show_poor(alloc, rest, said),
        _ => show_part(alloc, word, rest, said),
    }
}

/// What lines go on with.
pub struct Printer {
    alloc: Global,
    lets: Lets,
    families: Families,
}

impl Drop for Printer {
    fn drop(self) {
        let Printer {
            alloc: _,
            lets: _,
            families: _,
        } = self;
    }
}

impl Printer {
    pub fn new(alloc: Global) -> Printer {
        Printer {
            alloc,
            lets: Lets::new(alloc),
            families: Families::new(alloc),
        }
    }

    /// What a line prints.
    pub fn text_of(&mut self, line: &str) -> Option<String> {
        let mut said = String::new(self.alloc);
        if let Some(line) = line.strip_prefix("streams ") {
            self.families.show(self.alloc, line, &mut said)?;
            return Some(said);
        }
        let spelled = self.lets.spelled(line)?;
        let (word, rest) = first_word(spelled.as_str());
        if word == "let" {
            self.lets.put(rest)?;
            return Some(said);
        }
        show(self.alloc, word, rest, &mut said)?;
        said.push_str(if said.is_empty() { "-\n" } else { "\n" })
            .ok()?;
        Some(said)
    }
}
