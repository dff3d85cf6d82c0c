//! Calls of two callers, one after another.

use crate::clients::scenes::event;
use client_request::{Error, Events, ListWords, Out};
use client_shared::{ClientKey, Entry, Pass, SharedClient};
use std::alloc::Global;
use std::sync::Wait;

/// What a receipt says: its number, and the id under which octets were sent.
type Said = (u64, Option<u16>);

/// The id of the first message among outs that are sent to a place.
fn sent(outs: &[Out]) -> Option<u16> {
    for out in outs {
        if let Out::Send { id, .. } = out {
            return Some(*id);
        }
    }
    None
}

/// What the receipt of an event of a lane says.
fn call<L: ClientKey, R: Wait>(
    rt: &R,
    alloc: Global,
    shared: &SharedClient<L, ListWords>,
    pass: &mut Pass<L>,
    lanes: &[Events],
    lane: usize,
    index: usize,
) -> Result<Said, Error> {
    let Some(event) = event(alloc, lanes, lane, index) else {
        return Err(Error::NoMemory);
    };
    let receipt = shared.submit(rt, pass, event)?;
    Ok((receipt.number, sent(receipt.outs.as_slice())))
}

/// Whether what two callers are told stands in one history: the place that the first wanted is opened by the second. None where memory
/// ran out: the calls behind a loss then fail, and without one none does.
pub fn share<L: ClientKey, R: Wait>(
    rt: &R,
    alloc: Global,
    shared: &SharedClient<L, ListWords>,
    passes: &mut [Pass<L>],
    lanes: &[Events],
) -> Option<bool> {
    let [first, second] = passes else {
        return Some(false);
    };
    let asked = call(rt, alloc, shared, first, lanes, 0, 0);
    let opened = call(rt, alloc, shared, second, lanes, 1, 0);
    shared.meet(first, second);
    let ticked = call(rt, alloc, shared, first, lanes, 0, 1);
    match (asked, opened, ticked) {
        (Ok(asked), Ok(opened), Ok(ticked)) => Some(
            asked == (0, None)
                && opened == (1, Some(4660))
                && ticked == (2, None)
                && first.number() == 0
                && second.number() == 1,
        ),
        (Err(Error::NoMemory), Err(Error::Failed), Err(Error::Failed))
        | (Ok(_), Err(Error::NoMemory), Err(Error::Failed))
        | (Err(Error::NoMemory), Ok(_), Ok(_))
        | (Ok(_), Err(Error::NoMemory), Ok(_))
        | (Ok(_), Ok(_), Err(Error::NoMemory)) => None,
        _ => Some(false),
    }
}

/// Whether a journal has the calls in their order, of which the opening drew the first word.
pub fn has_calls(journal: &[Entry]) -> bool {
    match journal {
        [asked, opened, ticked] => {
            asked.caller == 0
                && asked.event.moment.0 == 0
                && asked.words.as_slice().is_empty()
                && opened.caller == 1
                && opened.event.moment.0 == 10
                && opened.words.as_slice() == [4660].as_slice()
                && ticked.caller == 0
                && ticked.event.moment.0 == 20
        }
        _ => false,
    }
}
