//! What streams and zone transfers do.
//!
//! Each line is led by a word: `stream` is of one connection, `multi` of a server that is asked by one connection after
//! another, and `transfer` of the messages of a zone transfer. `let NAME TEXT` lets a name stand for a text in the lines
//! behind it. In each line a word may be put together of texts and names by `+`, and `TEXT*COUNT` is a text so many times.
//! Of a line that is of none of the forms it is printed `refused`.

pub mod multi;
pub mod stream;
mod transfer;

use crate::lent::Lent;
use crate::lets::Lets;
use crate::reading::first_word;
use crate::telling::show_told;
use crate::transport::Transport;
use client_request::WordList;
use client_stream::Config;
use multi::Multi;
use std::alloc::Global;
use stream::walk::Walk;
use stream::{Stream, frames, ids};
use transfer::Watched;

/// What lines go on with.
pub struct Families {
    lets: Lets,
    walk: Option<Walk>,
    watched: Watched,
}

impl Drop for Families {
    fn drop(self) {
        let Families {
            lets: _,
            walk: _,
            watched: _,
        } = self;
    }
}

/// Says what happens to a transport of its own, whose next free place has a number.
fn go(
    alloc: Global,
    mut transport: Transport,
    place: u64,
    line: &str,
    said: &mut String,
) -> Option<()> {
    let mut lent = Lent::new(alloc, WordList::new(alloc), place);
    lent.says_ids = true;
    show_told(alloc, &mut transport, &mut lent, line, said)
}

/// Says what a server that is asked by streams does.
fn show_multi(alloc: Global, line: &str, said: &mut String) -> Option<()> {
    let (word, rest) = first_word(line);
    match word {
        "go" => go(alloc, Transport::Multi(Multi::new(alloc)?), 0, rest, said),
        "backs-off" => multi::show_retry(rest, said),
        _ => None,
    }
}

impl Families {
    pub fn new(alloc: Global) -> Families {
        Families {
            lets: Lets::new(alloc),
            walk: None,
            watched: Watched {
                watch: None,
                last: None,
            },
        }
    }

    /// Says what one connection does.
    fn show_stream(&mut self, alloc: Global, line: &str, said: &mut String) -> Option<()> {
        let (word, rest) = first_word(line);
        match word {
            "walk" => {
                self.walk = Some(Walk::begun(alloc, rest)?);
                Some(())
            }
            "go" => {
                let stream = Stream::with_config(alloc, Config::default())?;
                go(alloc, Transport::Stream(stream), 1, rest, said)
            }
            "ids" => ids::show(alloc, rest, said),
            "frames" => frames::show(alloc, rest, said),
            "within" => frames::show_within(alloc, rest, said),
            _ => self.walk.as_mut()?.show(alloc, line, said),
        }
    }

    /// Says what a line shows.
    pub fn show(&mut self, alloc: Global, line: &str, said: &mut String) -> Option<()> {
        let spelled = self.lets.spelled(line)?;
        let (word, rest) = first_word(spelled.as_str());
        match word {
            "stream" => self.show_stream(alloc, rest, said)?,
            "multi" => show_multi(alloc, rest, said)?,
            "transfer" => self.watched.show(alloc, rest, said)?,
            "let" => self.lets.put(rest)?,
            _ => return None,
        }
        if said.is_empty() || said.as_str().ends_with('\n') {
            return Some(());
        }
        said.push_str("\n").ok()
    }
}
