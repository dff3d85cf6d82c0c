//! One turn.

ghost use Rattle.std.specs.Prelude.{◌≡◌, true, false, Some, OnOk, IfOk, IfErr, IsErrOf};
ghost use Rattle.dns_values.specs.Source.{one_more};
ghost use Rattle.client_request.specs.Calls.{NumbersRunOut};
ghost use Rattle.client_request.specs.Response.{IsRefusal};
ghost use Rattle.client_request.specs.Words.{IsGivenOn};
ghost use Rattle.client_core.specs.Waiting.{Waited, first_due, time_left};
ghost use Rattle.client_loop.specs.Turns.{IsTurn, acts_on, after_deeds, happened};
ghost use Rattle.stream_turns.specs.Turns as plain;

use crate::transfer::Transfer;
use client_core::{Clock, Edge, in_octets};
use client_request::{Error, Event, Out, Row, What, Words};
use dns_base::NoMemory;

/// What happens in a turn in which the edge gave this: that, or time alone where it gave nothing or a request.
fn happened(polled: Option<What>) -> What
    ensures { result ≡ happened polled }
{
    match polled {
        None | Some(What::Ask { .. }) => What::Tick,
        Some(what) => what,
    }
}

/// Hands outs to an edge, in order.
pub fn act_all<E: Edge>(edge: &mut E, outs: &[Out]) -> Result<(), NoMemory>
    ensures deeds { OnOk result (E.deeds edge.new ≡ after_deeds (acts_on outs.now) (E.deeds edge.old)) }
    ensures waits { E.waits edge.new ≡ E.waits edge.old }
    ensures polls { E.polls edge.new ≡ E.polls edge.old }
    ensures faults { E.faults edge.new ≡ E.faults edge.old }
{
    for out in outs {
        edge.act(out)?;
    }
    Ok(())
}

/// The connection takes an event, and its edge acts on what is put out.
fn take<E: Edge, W: Words>(
    transfer: &mut Transfer,
    edge: &mut E,
    words: &mut W,
    event: Event,
) -> Result<Row, Error>
    ensures row { IfOk result (λ row. plain.steps (W.stream words.old) event transfer.old ≡ Some (row, plain.client_with (W.stream words.new) transfer.new)) }
    ensures deeds { IfOk result (λ row. E.deeds edge.new ≡ after_deeds (acts_on row.outs) (E.deeds edge.old)) }
    ensures waits { E.waits edge.new ≡ E.waits edge.old }
    ensures polls { E.polls edge.new ≡ E.polls edge.old }
    ensures lasts { OnOk result (transfer.new.failed ≡ false) }
    ensures numbers { NumbersRunOut result (plain.steps (W.stream words.old) event transfer.old) }
    ensures refused { IfErr result IsRefusal }
    ensures failed_only { IsErrOf result Error.Failed → transfer.old.failed ≡ true }
{
    let row = transfer.step(words, event)?;
    act_all(edge, row.outs.as_slice())?;
    Ok(row)
}

/// One turn: the edge is told how long it may wait, which is until the connection's timer is due, and is polled; the connection
/// takes what it gave at the clock's moment, or a `Tick` where it gave nothing or a request; and the edge acts on each out of the
/// row, in order.
///
/// `NoMemory`, or `NumbersUsed` where a number would pass the greatest `u64`, or `Failed` where an earlier step was refused.
/// After an error the edge may not have acted on what was put out: neither is to be used again.
pub fn turn<E: Edge, C: Clock, W: Words>(
    transfer: &mut Transfer,
    edge: &mut E,
    clock: &mut C,
    words: &mut W,
) -> Result<Row, Error>
    ensures turn { IfOk result (λ row. IsTurn row (E.deeds edge.old) (E.deeds edge.new)) }
    ensures row { IfOk result (λ row. plain.steps (W.stream words.old) row.event transfer.old ≡ Some (row, plain.client_with (W.stream words.new) transfer.new)) }
    ensures moment { IfOk result (λ row. IsGivenOn (C.given clock.old) (C.given clock.new) row.event.moment.0) }
    ensures waits { Waited (time_left transfer.old.now (first_due transfer.old.timers.set)) (E.waits edge.old) (E.waits edge.new) }
    ensures polls { OnOk result (E.polls edge.new ≡ one_more (E.polls edge.old)) }
    ensures lasts { OnOk result (transfer.new.failed ≡ false) }
    ensures numbers { IsErrOf result Error.NumbersUsed → plain.StopsAt (W.stream words.old) transfer.old (C.given clock.old) (C.given clock.new) }
    ensures refused { IfErr result IsRefusal }
    ensures failed_only { IsErrOf result Error.Failed → transfer.old.failed ≡ true }
{
    edge.wait(transfer.may_wait());
    let polled = edge.poll()?;
    let event = Event {
        moment: clock.now(),
        what: happened(polled),
    };
    in_octets(&event);
    take(transfer, edge, words, event)
}
