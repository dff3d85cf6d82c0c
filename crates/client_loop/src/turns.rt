//! One turn.

ghost use Rattle.std.specs.Prelude.{◌≡◌, true, false, Some, OnOk, OnErr, IfOk, IfErr, IsErrOf, Err};
ghost use Rattle.dns_values.specs.Source.{one_more};
ghost use Rattle.client_request.specs.Calls.{NumbersRunOut};
ghost use Rattle.client_request.specs.Response.{IsRefusal};
ghost use Rattle.client_request.specs.Words.{IsGivenOn};
ghost use Rattle.client_steps.specs.Whole.{client_with, plain_step};
ghost use Rattle.client_core.specs.Waiting.{Waited, wait_of};
ghost use Rattle.client_loop.specs.Turns.{IsTurn, StopsAt, acts_on, after_deeds, happened};

use client_core::{Client, Clock, Edge, in_octets};
use client_request::{Error, Event, Out, Row, What, Words};
use dns_base::NoMemory;

/// What happens in a turn in which the edge gave this: that, or time alone where it gave nothing or a request.
fn happened(polled: Option<What>) -> What
    ensures { result ≡ happened polled }
{
    match polled {
        None | Some(What::Ask { .. }) => What::Tick,
        Some(what) => what,
    }
}

/// Hands these outs to an edge, in order.
fn act_all<E: Edge>(edge: &mut E, outs: &[Out]) -> Result<(), NoMemory>
    ensures deeds { OnOk result (E.deeds edge.new ≡ after_deeds (acts_on outs.now) (E.deeds edge.old)) }
    ensures waits { E.waits edge.new ≡ E.waits edge.old }
    ensures polls { E.polls edge.new ≡ E.polls edge.old }
    ensures faults { E.faults edge.new ≡ E.faults edge.old }
{
    for out in outs {
        edge.act(out)?;
    }
    Ok(())
}

/// A client takes an event, and its edge acts on what is put out.
pub(crate) fn take<E: Edge, W: Words>(
    client: &mut Client,
    edge: &mut E,
    words: &mut W,
    event: Event,
) -> Result<Row, Error>
    ensures row { IfOk result (λ row. plain_step (W.stream words.old) event client.old ≡ Some (row, client_with (W.stream words.new) client.new)) }
    ensures deeds { IfOk result (λ row. E.deeds edge.new ≡ after_deeds (acts_on row.outs) (E.deeds edge.old)) }
    ensures waits { E.waits edge.new ≡ E.waits edge.old }
    ensures polls { E.polls edge.new ≡ E.polls edge.old }
    ensures faults { E.faults edge.new ≡ E.faults edge.old }
    ensures timeout { OnOk result (client.new.timeout ≡ client.old.timeout) }
    ensures lasts { OnOk result (client.new.failed ≡ false) }
    ensures numbers { NumbersRunOut result (plain_step (W.stream words.old) event client.old) }
    ensures stands { IsErrOf result Error.NumbersUsed → E.deeds edge.new ≡ E.deeds edge.old }
    ensures refused { IfErr result IsRefusal }
    ensures failed { client.old.failed ≡ true → (result ≡ Err Error.Failed) × (client.new ≡ client.old) }
    ensures failed_only { IsErrOf result Error.Failed → client.old.failed ≡ true }
{
    let row = client.step(words, event)?;
    act_all(edge, row.outs.as_slice())?;
    Ok(row)
}

/// One turn: the edge is told how long it may wait, which is until the client's next due moment, and is polled; the client takes
/// what it gave at the clock's moment, or a `Tick` where it gave nothing or a request; and the edge acts on each out of the row,
/// in order. Where no timer is set and the edge sleeps, a turn may last until something happens.
///
/// `NoMemory`, or `NumbersUsed` where a number would pass the greatest `u64`, or `Failed` where an earlier step of the client
/// was refused. After an error the edge may not have acted on what the client put out: neither is to be used again.
pub fn turn<E: Edge, C: Clock, W: Words>(
    client: &mut Client,
    edge: &mut E,
    clock: &mut C,
    words: &mut W,
) -> Result<Row, Error>
    ensures turn { IfOk result (λ row. IsTurn row (E.deeds edge.old) (E.deeds edge.new)) }
    ensures row { IfOk result (λ row. plain_step (W.stream words.old) row.event client.old ≡ Some (row, client_with (W.stream words.new) client.new)) }
    ensures moment { IfOk result (λ row. IsGivenOn (C.given clock.old) (C.given clock.new) row.event.moment.0) }
    ensures waits { Waited (wait_of client.old) (E.waits edge.old) (E.waits edge.new) }
    ensures polls { OnOk result (E.polls edge.new ≡ one_more (E.polls edge.old)) }
    ensures timeout { OnOk result (client.new.timeout ≡ client.old.timeout) }
    ensures lasts { OnOk result (client.new.failed ≡ false) }
    ensures numbers { IsErrOf result Error.NumbersUsed → StopsAt (W.stream words.old) client.old (E.deeds edge.old) (E.deeds edge.new) (C.given clock.old) (C.given clock.new) }
    ensures counted { IsErrOf result Error.NumbersUsed → E.polls edge.new ≡ one_more (E.polls edge.old) }
    ensures refused { IfErr result IsRefusal }
    ensures failed_only { IsErrOf result Error.Failed → client.old.failed ≡ true }
{
    edge.wait(client.may_wait());
    let polled = edge.poll()?;
    let event = Event {
        moment: clock.now(),
        what: happened(polled),
    };
    in_octets(&event);
    take(client, edge, words, event)
}
