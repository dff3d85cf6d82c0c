//! Timers that are due at moments, which are set in their order: `timers MOMENT ..: CALL, ..`.
//!
//! Calls are `cancel NUMBER`, `fire MOMENT`, `next`, `count`, `heap`, `heap-size`, `heap-first`, and `churn FIRST END MOST`, which sets and cancels a timer at each
//! of these moments, and says whether never more than so many stand in the heap.

use crate::reading::{first_word, number};
use crate::saying::{say, say_value};
use client_request::{Moment, TimerId, Timers};
use std::alloc::Global;
use std::fmt::Write;

fn set_all(alloc: Global, dues: &str) -> Option<Timers> {
    let mut timers = Timers::new(alloc);
    for due in dues.split(' ') {
        let _ = timers.set(u128::from(number(due)?)).ok()?;
    }
    Some(timers)
}

/// Says a timer, if there is one.
fn say_next(said: &mut String, next: Option<(u128, TimerId)>) -> Option<()> {
    match next {
        Some((due, TimerId(id))) => {
            say_value(said, &due)?;
            write!(said, " {id}").ok()
        }
        None => say(said, "none"),
    }
}

fn say_heap(said: &mut String, timers: &Timers) -> Option<()> {
    for timer in timers.heap() {
        say_next(said, Some(*timer))?;
    }
    Some(())
}

fn churn(timers: &mut Timers, words: &str, said: &mut String) -> Option<()> {
    let (first, rest) = first_word(words);
    let (end, most) = first_word(rest);
    let mut most_seen = 0;
    for due in number(first)?..number(end)? {
        let id = timers.set(u128::from(due)).ok()?;
        timers.cancel(id);
        most_seen = most_seen.max(timers.heap().len());
    }
    say_value(said, &(most_seen as u64 <= number(most)?))
}

fn tell(timers: &mut Timers, words: &str, said: &mut String) -> Option<()> {
    let (word, rest) = first_word(words);
    match word {
        "cancel" => Some(timers.cancel(TimerId(number(rest)?))),
        "fire" => match timers.fire(Moment(number(rest)?)) {
            Some(TimerId(id)) => say_value(said, &id),
            None => say(said, "none"),
        },
        "next" => say_next(said, timers.next_due()),
        "count" => say_value(said, &timers.len()),
        "heap" => say_heap(said, timers),
        "heap-size" => say_value(said, &timers.heap().len()),
        "heap-first" => say_next(said, timers.heap().first().copied()),
        "churn" => churn(timers, rest, said),
        _ => None,
    }
}

pub fn show(alloc: Global, line: &str, said: &mut String) -> Option<()> {
    let (dues, calls) = line.split_once(':')?;
    let mut timers = set_all(alloc, dues)?;
    for words in calls.split(',') {
        tell(&mut timers, words.trim(), said)?;
    }
    Some(())
}
