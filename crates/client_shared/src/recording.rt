//! One step of a client, with the words that it draws.

ghost use Rattle.std.specs.Prelude.{◌≡◌, false, None, IfOk, IfErr, IsErrOf};
ghost use Rattle.client_request.specs.Timers.{IsWant};
ghost use Rattle.client_steps.specs.Whole.{plain_step};
ghost use Rattle.client_shared.specs.History.{StepsTo, entry_of};

use crate::recorder::{Beginning, Recorder};
use client_core::Client;
use client_request::{Error, Event, Outs, WordList, Words};
use dns_base::NoMemory;
use std::alloc::Global;
use std::marker::Brand;

/// What a step did: its event, the words that were drawn, and what was put out.
#[derive(Drop)]
pub(crate) struct Recorded {
    pub(crate) event: Event,
    pub(crate) words: WordList,
    pub(crate) outs: Outs,
}

/// The same, with what was put out once more.
#[derive(Drop)]
pub(crate) struct Copied {
    pub(crate) event: Event,
    pub(crate) words: WordList,
    pub(crate) outs: Outs,
    pub(crate) again: Outs,
}

/// The same outs once more.
fn copy_outs(alloc: Global, outs: &Outs) -> Result<Outs, NoMemory>
    ensures { IfOk result (λ copy. copy ≡ outs.now) }
{
    let mut copy = Outs::new(alloc);
    let listed = outs.as_slice();
    for out in listed {
        copy.push(out.try_clone()?)?;
    }
    Ok(copy)
}

fn step_from<B: Beginning, W: Words>(
    alloc: Global,
    client: &mut Client,
    words: W,
    event: Event,
) -> (W, Result<Recorded, Error>)
    requires words { B.words ≡ W.stream words }
    requires lives { client.old.failed ≡ false }
    ensures ok { IfOk result.1 (λ r. (r.event ≡ event) × StepsTo client.old B.words (entry_of 0 r.event r.words r.outs) client.new (W.stream result.0)) }
    ensures refused { IfErr result.1 IsWant }
    ensures numbers { IsErrOf result.1 Error.NumbersUsed → plain_step B.words event client.old ≡ None }
{
    let mut recorder: Recorder<B, W> = Recorder::new(alloc, words);
    let row = client.step(&mut recorder, event);
    let (words, taken) = recorder.finish();
    let row = match row {
        Ok(row) => row,
        Err(error) => return (words, Err(error)),
    };
    let Ok(taken) = taken else {
        return (words, Err(Error::NoMemory));
    };
    let recorded = Recorded {
        event: row.event,
        words: taken,
        outs: row.outs,
    };
    (words, Ok(recorded))
}

/// Steps a client, and keeps what was drawn. `NoMemory` and `NumbersUsed`, after which the client has failed or its words are
/// not known.
pub(crate) fn step<W: Words>(
    alloc: Global,
    client: &mut Client,
    words: W,
    event: Event,
) -> (W, Result<Recorded, Error>)
    requires lives { client.old.failed ≡ false }
    ensures ok { IfOk result.1 (λ r. (r.event ≡ event) × StepsTo client.old (W.stream words) (entry_of 0 r.event r.words r.outs) client.new (W.stream result.0)) }
    ensures refused { IfErr result.1 IsWant }
    ensures numbers { IsErrOf result.1 Error.NumbersUsed → plain_step (W.stream words) event client.old ≡ None }
{
    step_from::<Brand, W>(alloc, client, words, event)
}

/// Steps a client, keeps what was drawn, and copies what was put out.
pub(crate) fn step_and_copy<W: Words>(
    alloc: Global,
    client: &mut Client,
    words: W,
    event: Event,
) -> (W, Result<Copied, Error>)
    requires lives { client.old.failed ≡ false }
    ensures ok { IfOk result.1 (λ r. (r.event ≡ event) × (r.again ≡ r.outs) × StepsTo client.old (W.stream words) (entry_of 0 r.event r.words r.outs) client.new (W.stream result.0)) }
    ensures refused { IfErr result.1 IsWant }
    ensures numbers { IsErrOf result.1 Error.NumbersUsed → plain_step (W.stream words) event client.old ≡ None }
{
    let (words, stepped) = step(alloc, client, words, event);
    let recorded = match stepped {
        Ok(recorded) => recorded,
        Err(error) => return (words, Err(error)),
    };
    let Ok(again) = copy_outs(alloc, &recorded.outs) else {
        return (words, Err(Error::NoMemory));
    };
    let copied = Copied {
        event: recorded.event,
        words: recorded.words,
        outs: recorded.outs,
        again,
    };
    (words, Ok(copied))
}
