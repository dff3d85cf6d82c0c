//! What lies under the lock of a shared client.

ghost use Rattle.std.specs.Prelude.{◌≡◌, ◌≢◌, ◌⊎◌, ◌<◌, ◌++◌, [], ◌∷◌, Some, None, true, false, length, vec_len, IfOk, IfErr, IsErrOf, IsSome, IfSome, Err};
ghost use Rattle.std.specs.Vec.{vec_capacity};
ghost use Rattle.client_request.specs.Timers.{IsWant};
ghost use Rattle.client_shared.specs.Drawn.{AreDrawn};
ghost use Rattle.client_shared.specs.History.{history, opened, IsLegal, IsSubmitted, IsRefused, IsStopped, IsBehind, IsSettled, IsKeeping, Puts, EndsLost, Stands, IsDesk};
ghost use Rattle.joint_history.specs.Words.{word_of};

use crate::entry::{Entry, Item, Receipt};
use crate::key::ClientKey;
use crate::pass::Pass;
use crate::recording::step_and_copy;
use client_core::Client;
use client_request::{Error, Event, Words};
use joint_history::{Joint, Seat};
use std::alloc::Global;
use std::marker::{Brand, Model, PhantomData};

/// The client, its words and its journal, beside the seat that keeps the history.
#[derive(Drop)]
pub(crate) struct Desk<L: ClientKey, W: Words + Drop> {
    alloc: Global,
    client: Client,
    words: Option<W>,
    entries: Vec<Entry>,
    lost: Option<u32>,
    seat: Seat<Item>,
    of: PhantomData<L>,
}

impl<L: ClientKey, W: Words + Drop> Model for Desk<L, W> {
    ghost use Rattle.joint_history.specs.Words.{word_of};
    ghost use Rattle.std.specs.Prelude.{List};
    ghost use Rattle.client_shared.specs.declared.entry.Item.{Item};
    ghost use Rattle.client_shared.specs.History.{history, IsDesk};

    ghost Value = { List Item };

    ghost view = { λ d. history d.entries.items d.lost };

    ghost invariant = { λ d. IsDesk L.table L.opening W.stream d.client d.words d.entries.items d.lost d.seat };
}

/// What is left of a shared client.
#[derive(Drop)]
pub(crate) struct Parts<W> {
    pub(crate) entries: Vec<Entry>,
    pub(crate) lost: Option<u32>,
    pub(crate) words: Option<W>,
}

/// The entry of a call is put at the end of the history, and into the journal.
fn put<L: ClientKey>(
    joint: &Joint<Item>,
    desk: &mut Seat<Item>,
    pass: &mut Pass<L>,
    entries: &mut Vec<Entry>,
    entry: Entry,
) -> u64
    requires table { word_of joint.now ≡ L.table }
    requires desk { IsKeeping L.table (history entries.old.items None) desk.old }
    requires caller { entry.caller ≡ pass.old.number }
    requires room { vec_len entries.old < vec_capacity entries.old }
    requires legal { IsLegal L.opening (history entries.old.items None ++ Item.Made entry ∷ []) }
    ensures entries { entries.new.items ≡ entries.old.items ++ entry ∷ [] }
    ensures desk { IsKeeping L.table (history entries.old.items None ++ Item.Made entry ∷ []) desk.new }
    ensures place { result ≡ length (history entries.old.items None) }
    ensures pass { Puts pass.old (history entries.old.items None) (Item.Made entry) pass.new }
{
    let number = entries.len() as u64;
    let item = Item::Made { entry };
    joint.append::<Brand>(desk, &mut pass.seat, &item);
    match item {
        Item::Made { entry } => entries.push_reserved(entry),
        Item::Lost { .. } => unreachable!(),
    }
    number
}

/// The loss of a call is put at the end of the history.
fn lose<L: ClientKey>(
    joint: &Joint<Item>,
    desk: &mut Seat<Item>,
    pass: &mut Pass<L>,
    entries: &Vec<Entry>,
)
    requires table { word_of joint.now ≡ L.table }
    requires desk { IsKeeping L.table (history entries.now.items None) desk.old }
    requires room { vec_len entries.now < vec_capacity entries.now }
    requires legal { IsLegal L.opening (history entries.now.items None ++ Item.Lost pass.old.number ∷ []) }
    ensures desk { IsKeeping L.table (history entries.now.items None ++ Item.Lost pass.old.number ∷ []) desk.new }
    ensures pass { Puts pass.old (history entries.now.items None) (Item.Lost pass.old.number) pass.new }
{
    let caller = pass.number;
    let item = Item::Lost { caller };
    joint.append::<Brand>(desk, &mut pass.seat, &item);
}

/// Steps the client, and puts an entry of that or a loss at the end of the history.
#[tactic(auto, using(crate::proofs::Histories::for_caller, crate::proofs::Histories::stands_on, crate::proofs::Histories::next_legal, crate::proofs::Histories::loss_legal, crate::proofs::Histories::submitted, crate::proofs::Histories::refused, crate::proofs::Histories::stopped, crate::proofs::Histories::desk_lost))]
fn step_and_put<L: ClientKey, W: Words + Drop>(
    alloc: Global,
    joint: &Joint<Item>,
    desk: &mut Seat<Item>,
    pass: &mut Pass<L>,
    client: &mut Client,
    words: W,
    entries: &mut Vec<Entry>,
    event: Event,
    copy: Event,
) -> (W, Result<Receipt, Error>)
    requires table { word_of joint.now ≡ L.table }
    requires desk { IsKeeping L.table (history entries.old.items None) desk.old }
    requires room { vec_len entries.old < vec_capacity entries.old }
    requires copied { copy ≡ event }
    requires lives { client.old.failed ≡ false }
    requires stands { Stands L.opening W.stream client.old (Some words) entries.old.items None }
    ensures ok { IfOk result.1 (λ r. IsSubmitted pass.old pass.new event r) }
    ensures desk { IfOk result.1 (λ _. IsKeeping L.table (history entries.new.items None) desk.new) }
    ensures stands { IfOk result.1 (λ _. Stands L.opening W.stream client.new (Some result.0) entries.new.items None) }
    ensures refused { IfErr result.1 (λ e. IsWant e × IsRefused pass.old pass.new) }
    ensures numbers { IsErrOf result.1 Error.NumbersUsed → IsStopped L.opening pass.new event }
    ensures entries { IfErr result.1 (λ _. entries.new.items ≡ entries.old.items) }
    ensures lost { IfErr result.1 (λ _. IsDesk L.table L.opening W.stream client.new (Some result.0) entries.new.items (Some pass.old.number) desk.new) }
{
    let (words, stepped) = step_and_copy(alloc, client, words, copy);
    let caller = pass.number;
    match stepped {
        Ok(recorded) => {
            let entry = Entry {
                caller,
                event: recorded.event,
                words: recorded.words,
                outs: recorded.outs,
            };
            let number = put(joint, desk, pass, entries, entry);
            let receipt = Receipt {
                number,
                event,
                outs: recorded.again,
            };
            (words, Ok(receipt))
        }
        Err(error) => {
            lose(joint, desk, pass, entries);
            (words, Err(error))
        }
    }
}

impl<L: ClientKey, W: Words + Drop> Desk<L, W> {
    pub(crate) fn new(alloc: Global, client: Client, words: W, seat: Seat<Item>) -> Desk<L, W>
        requires seat { (seat.table_id ≡ L.table) × (seat.me.1 ≡ []) × (seat.me.0.keeps ≡ true) × (seat.me.0.seen ≡ []) }
        requires client { client ≡ opened L.opening }
        requires words { W.stream words ≡ L.opening.words }
        ensures { result ≡ [] }
    {
        Desk {
            alloc,
            client,
            words: Some(words),
            entries: Vec::new(alloc),
            lost: None,
            seat,
            of: PhantomData,
        }
    }

    /// A pass sees the loss of an earlier call.
    fn fall_behind(&mut self, joint: &Joint<Item>, pass: &mut Pass<L>)
        requires table { word_of joint.now ≡ L.table }
        requires lost { EndsLost self.old }
        ensures same { self.new ≡ self.old }
        ensures behind { IsBehind pass.old pass.new }
    {
        joint.catch_up(&mut self.seat, &mut pass.seat);
    }

    /// Steps the client by an event for the caller of a pass, unless an earlier call was refused on its way.
    pub(crate) fn submit(
        &mut self,
        joint: &Joint<Item>,
        pass: &mut Pass<L>,
        event: Event,
    ) -> Result<Receipt, Error>
        requires { word_of joint.now ≡ L.table }
        ensures ok { IfOk result (λ r. IsSubmitted pass.old pass.new event r) }
        ensures behind { IsErrOf result Error.Failed → IsBehind pass.old pass.new }
        ensures refused { IfErr result (λ e. e ≢ Error.Failed → IsWant e × ((pass.new ≡ pass.old) ⊎ IsRefused pass.old pass.new)) }
        ensures lost { EndsLost self.old → result ≡ Err Error.Failed }
        ensures numbers { IsErrOf result Error.NumbersUsed → IsStopped L.opening pass.new event }
    {
        if self.lost.is_some() {
            self.fall_behind(joint, pass);
            return Err(Error::Failed);
        }
        let alloc = self.alloc;
        if self.entries.reserve(1).is_err() {
            return Err(Error::NoMemory);
        }
        let copy = event.try_clone(alloc)?;
        let Some(words) = self.words.take() else {
            unreachable!()
        };
        let caller = pass.number;
        let (words, result) = step_and_put(
            alloc,
            joint,
            &mut self.seat,
            pass,
            &mut self.client,
            words,
            &mut self.entries,
            event,
            copy,
        );
        self.words = Some(words);
        match result {
            Ok(receipt) => Ok(receipt),
            Err(error) => {
                self.lost = Some(caller);
                Err(error)
            }
        }
    }

    /// The pass of a caller has seen all of the history.
    pub(crate) fn settle(&mut self, joint: &Joint<Item>, pass: &mut Pass<L>)
        requires { word_of joint.now ≡ L.table }
        ensures same { self.new ≡ self.old }
        ensures settled { IsSettled self.old pass.old }
    {
        joint.catch_up(&mut self.seat, &mut pass.seat);
    }

    pub(crate) fn into_parts(self) -> Parts<W>
        ensures history { history result.entries.items result.lost ≡ self }
        ensures legal { IsLegal L.opening self }
        ensures words { IsSome result.words }
        ensures drawn { IfSome result.words (λ words. AreDrawn L.opening.words result.entries.items result.lost (W.stream words)) }
    {
        let Desk {
            alloc: _,
            client: _,
            words,
            entries,
            lost,
            seat: _,
            of: _,
        } = self;
        Parts {
            entries,
            lost,
            words,
        }
    }
}
