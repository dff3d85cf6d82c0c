//! A turn that is recorded.

ghost use Rattle.std.specs.Prelude.{◌≡◌, ◌≤◌, ◌∷◌, [], length, Some, None, true, false, OnOk, IfOk, IfErr, IsErrOf};
ghost use Rattle.client_core.specs.Waiting.{Waited, wait_of};
ghost use Rattle.client_loop.specs.Turns.{IsTurn, StopsAt};
ghost use Rattle.client_request.specs.Response.{IsRefusal};
ghost use Rattle.client_request.specs.Words.{IsGivenOn, listed};
ghost use Rattle.client_steps.specs.Whole.{client_with, plain_step};
ghost use Rattle.dns_record.specs.Recording.{EndsIf, Keeps, Takes, lost_after};
ghost use Rattle.dns_values.specs.Source.{one_more};

use crate::recorder::Recorder;
use client_core::{Client, Clock, Edge};
use client_loop::turn;
use client_request::{Error, Row, Words};
use dns_values::Sink;

/// One turn with the words that were written.
fn turn_within<E: Edge, C: Clock>(
    client: &mut Client,
    edge: &mut E,
    clock: &mut C,
    recorder: &mut Recorder,
) -> Result<Row, Error>
    ensures turn { IfOk result (λ row. IsTurn row (E.deeds edge.old) (E.deeds edge.new)) }
    ensures row { IfOk result (λ row. plain_step (listed recorder.old.words) row.event client.old ≡ Some (row, client_with (listed recorder.new.words) client.new)) }
    ensures moment { IfOk result (λ row. IsGivenOn (C.given clock.old) (C.given clock.new) row.event.moment.0) }
    ensures waits { Waited (wait_of client.old) (E.waits edge.old) (E.waits edge.new) }
    ensures polls { OnOk result (E.polls edge.new ≡ one_more (E.polls edge.old)) }
    ensures timeout { OnOk result (client.new.timeout ≡ client.old.timeout) }
    ensures lasts { OnOk result (client.new.failed ≡ false) }
    ensures numbers { IsErrOf result Error.NumbersUsed → StopsAt (listed recorder.old.words) client.old (E.deeds edge.old) (E.deeds edge.new) (C.given clock.old) (C.given clock.new) }
    ensures counted { IsErrOf result Error.NumbersUsed → E.polls edge.new ≡ one_more (E.polls edge.old) }
    ensures refused { IfErr result IsRefusal }
    ensures failed_only { IsErrOf result Error.Failed → client.old.failed ≡ true }
    ensures stands { recorder.new ≡ record recorder.old { words = recorder.new.words } }
{
    turn(client, edge, clock, &mut recorder.words)
}

/// One turn of a client as `client_loop::turn` makes it, whose event is recorded. While the record goes on, the client draws the
/// words that were written, and behind its end those of its own source.
///
/// As `client_loop::turn`.
pub fn recorded_turn<E: Edge, C: Clock, W: Words, K: Sink>(
    client: &mut Client,
    edge: &mut E,
    clock: &mut C,
    words: &mut W,
    recorder: &mut Recorder,
    sink: &mut K,
) -> Result<Row, Error>
    ensures turn { IfOk result (λ row. IsTurn row (E.deeds edge.old) (E.deeds edge.new)) }
    ensures moment { IfOk result (λ row. IsGivenOn (C.given clock.old) (C.given clock.new) row.event.moment.0) }
    ensures row { IfOk result (λ row. Takes recorder.old.ended recorder.old.words recorder.new.words (W.stream words.old) (W.stream words.new) row.event client.old row client.new) }
    ensures recorded { IfOk result (λ row. Keeps (row ∷ []) (K.held sink.old) recorder.old client.old (K.held sink.new) recorder.new client.new) }
    ensures why { IfOk result (λ row. recorder.old.ended ≡ None → EndsIf recorder.new.ended row.event (record recorder.old { words = recorder.new.words }) (K.faults sink.old) (K.faults sink.new)) }
    ensures counted { OnOk result (recorder.new.lost ≡ lost_after recorder.new.ended recorder.old.lost) }
    ensures timeout { OnOk result (client.new.timeout ≡ client.old.timeout) }
    ensures lasts { OnOk result (client.new.failed ≡ false) }
{
    if recorder.ended().is_some() {
        let row = turn(client, edge, clock, words)?;
        recorder.pass();
        return Ok(row);
    }
    let mut row = turn_within(client, edge, clock, recorder)?;
    recorder.note(sink, &mut row);
    Ok(row)
}

/// One turn with the words that were written, also behind the record's end, and its event is recorded.
///
/// As `client_loop::turn`, and `NoMemory` where few of these words are left.
pub(crate) fn turn_ahead<E: Edge, C: Clock, K: Sink>(
    client: &mut Client,
    edge: &mut E,
    clock: &mut C,
    recorder: &mut Recorder,
    sink: &mut K,
) -> Result<Row, Error>
    ensures turn { IfOk result (λ row. IsTurn row (E.deeds edge.old) (E.deeds edge.new)) }
    ensures row { IfOk result (λ row. plain_step (listed recorder.old.words) row.event client.old ≡ Some (row, client_with (listed recorder.new.words) client.new)) }
    ensures moment { IfOk result (λ row. IsGivenOn (C.given clock.old) (C.given clock.new) row.event.moment.0) }
    ensures waits { OnOk result (Waited (wait_of client.old) (E.waits edge.old) (E.waits edge.new)) }
    ensures polls { OnOk result (E.polls edge.new ≡ one_more (E.polls edge.old)) }
    ensures recorded { IfOk result (λ row. Keeps (row ∷ []) (K.held sink.old) recorder.old client.old (K.held sink.new) recorder.new client.new) }
    ensures timeout { OnOk result (client.new.timeout ≡ client.old.timeout) }
    ensures lasts { OnOk result (client.new.failed ≡ false) }
    ensures numbers { IsErrOf result Error.NumbersUsed → StopsAt (listed recorder.old.words) client.old (E.deeds edge.old) (E.deeds edge.new) (C.given clock.old) (C.given clock.new) }
    ensures counted { IsErrOf result Error.NumbersUsed → E.polls edge.new ≡ one_more (E.polls edge.old) }
    ensures enough { OnOk result (recorder.old.few ≤ length recorder.old.words) }
    ensures refused { IfErr result IsRefusal }
    ensures failed_only { IsErrOf result Error.Failed → client.old.failed ≡ true }
{
    if recorder.are_few() {
        return Err(Error::NoMemory);
    }
    let mut row = turn_within(client, edge, clock, recorder)?;
    recorder.keep(sink, &mut row);
    Ok(row)
}
