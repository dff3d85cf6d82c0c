//! What of a row is left to the first caller.

ghost use Rattle.std.specs.Prelude.{◌≡◌, ◌++◌, [], ◌&&◌, ◌==◌, not, length, IfOk, OnOk};
ghost use Rattle.front_shared.specs.Waiting as spec;
ghost use Rattle.front_shared.specs.Waiting.{after_row, for_first, kept_if, told_to};

use client_request::FIRST_STREAM;
use dns_values::NoMemory;
use front_peers::{FrontOut, FrontOuts};
use std::alloc::Global;
use std::mem;

/// Whether whoever made the row of an out may do it: it is an answer by a datagram.
pub fn is_for_any(out: &FrontOut) -> bool
    ensures { result ≡ spec.is_for_any out.now }
{
    match out {
        FrontOut::Answer { peer, .. } => *peer < FIRST_STREAM,
        FrontOut::Core { .. } | FrontOut::Drop { .. } => false,
    }
}

/// Puts a copy of an out behind those that wait, if it is the first caller's to do.
fn keep_if(is_for_any: bool, out: &FrontOut, waiting: &mut FrontOuts) -> Result<(), NoMemory>
    ensures { OnOk result (waiting.new ≡ waiting.old ++ kept_if is_for_any out.now) }
{
    if is_for_any {
        return Ok(());
    }
    let out = out.try_clone()?;
    waiting.push(out)
}

/// Puts copies of those outs that are the first caller's to do behind those that wait.
fn keep_all(outs: &[FrontOut], waiting: &mut FrontOuts) -> Result<(), NoMemory>
    ensures { OnOk result (waiting.new ≡ waiting.old ++ for_first outs.now) }
{
    for out in outs {
        keep_if(is_for_any(out), out, waiting)?;
    }
    Ok(())
}

/// What is left of a row: what the caller is told that waited, and whether the first caller is to be woken.
#[derive(Drop)]
pub(crate) struct Handed {
    pub(crate) before: FrontOuts,
    pub(crate) wakes: bool,
}

/// Lets what a caller's row put out wait for the first caller, or tells the first caller what waits.
pub(crate) fn hand_on(
    alloc: Global,
    caller: u32,
    outs: &[FrontOut],
    waiting: &mut FrontOuts,
) -> Result<Handed, NoMemory>
    ensures told { IfOk result (λ handed. handed.before ≡ told_to caller waiting.old) }
    ensures waits { OnOk result (waiting.new ≡ after_row caller outs.now waiting.old) }
    ensures wakes { IfOk result (λ handed. handed.wakes ≡ ((length waiting.old == 0) && not (length waiting.new == 0))) }
{
    if caller == 0 {
        let before = mem::replace(waiting, FrontOuts::new(alloc));
        return Ok(Handed {
            before,
            wakes: false,
        });
    }
    let was_empty = waiting.is_empty();
    keep_all(outs, waiting)?;
    let is_empty = waiting.is_empty();
    Ok(Handed {
        before: FrontOuts::new(alloc),
        wakes: was_empty && !is_empty,
    })
}
