//! Frames of octets that come in pieces.

use crate::reading::{first_word, number, octets_of};
use crate::saying::{say, say_octets};
use client_stream::Framer;
use std::alloc::Global;

/// Says the whole frames that stand, which are taken.
fn say_frames(framer: &mut Framer, said: &mut String) -> Option<()> {
    for _ in 0..u64::MAX {
        let Some(frame) = framer.next_frame().ok()? else {
            return Some(());
        };
        if frame.as_slice().is_empty() {
            say(said, "empty")?;
        } else {
            say_octets(said, frame.as_slice())?;
        }
    }
    Some(())
}

fn say_rest(framer: &Framer, said: &mut String) -> Option<()> {
    let word = if framer.in_body() {
        "within"
    } else {
        "between"
    };
    say(said, word)
}

/// Says the whole frames of `SIZE OCTETS`, octets that come in pieces of so many, and whether those left end within a frame.
pub fn show(alloc: Global, words: &str, said: &mut String) -> Option<()> {
    let (size, digits) = first_word(words);
    let size = (number(size)? as usize).max(1);
    let octets = octets_of(alloc, digits)?;
    let mut framer = Framer::new(alloc);
    for piece in octets.as_slice().chunks(size) {
        framer.feed(piece).ok()?;
        say_frames(&mut framer, said)?;
    }
    say_rest(&framer, said)
}

/// Says whether octets of which no frame was taken end within a frame.
pub fn show_within(alloc: Global, digits: &str, said: &mut String) -> Option<()> {
    let mut framer = Framer::new(alloc);
    framer.feed(octets_of(alloc, digits)?.as_slice()).ok()?;
    say_rest(&framer, said)
}
