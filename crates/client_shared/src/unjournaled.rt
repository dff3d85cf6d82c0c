//! A client that several threads share, of which no journal is kept.

ghost use Rattle.std.specs.Prelude.{◌≡◌, ◌≢◌, ◌⊎◌, ◌+◌, ◌<◌, ◌≤◌, ◌^◌, ◌++◌, [], ◌∷◌, Some, None, Err, true, false, length, IfOk, IfErr, IsErrOf};
ghost use mathlib.Core.List.{IsPrefix};
ghost use Rattle.client_request.specs.Timers.{IsWant};
ghost use Rattle.client_shared.specs.History.{opened, opening_of, opening_with, numbered, calls, is_lost, IsLegal, IsSubmitted, IsRefused, IsStopped, IsBehind, IsKeeping, Puts, EndsLost};
ghost use Rattle.client_shared.specs.Unjournaled.{IsCounting, IsCounted, IsFull};
ghost use Rattle.joint_history.specs.Words.{word_of};

use crate::entry::{Entry, Item, Receipt};
use crate::key::{ClientKey, Opened};
use crate::pass::{Pass, meet};
use crate::recording::step;
use crate::shared::passes_of;
use client_core::{Client, Settings, Transports, cache, redundant};
use client_request::{Error, Event, Words};
use joint_history::{Joint, Seat};
use resolv_conf::ResolvConf;
use std::alloc::Global;
use std::marker::{Brand, Model, PhantomData};
use std::sync::{Mutex, Wait};

/// The client and its words, beside the seat that keeps the history, of which only the length is counted.
#[derive(Drop)]
struct Counter<L: ClientKey, W: Words + Drop> {
    alloc: Global,
    client: Client,
    words: Option<W>,
    count: u64,
    lost: Option<u32>,
    seat: Seat<Item>,
    of: PhantomData<L>,
}

impl<L: ClientKey, W: Words + Drop> Model for Counter<L, W> {
    ghost use Rattle.joint_history.specs.Words.{word_of};
    ghost use Rattle.std.specs.Prelude.{List};
    ghost use Rattle.client_shared.specs.declared.entry.Item.{Item};
    ghost use Rattle.client_shared.specs.Unjournaled.{IsCounted};

    ghost Value = { List Item };

    ghost view = { λ d. d.seat.me.0.seen };

    ghost invariant = { λ d. IsCounted L.table L.opening W.stream d.client d.words d.count d.lost d.seat };
}

/// The entry of a call is put at the end of the history, and told.
fn tell<L: ClientKey>(
    joint: &Joint<Item>,
    keeper: &mut Seat<Item>,
    pass: &mut Pass<L>,
    number: u64,
    entry: Entry,
) -> Receipt
    requires table { word_of joint.now ≡ L.table }
    requires keeper { IsKeeping L.table keeper.old.me.0.seen keeper.old }
    requires caller { entry.caller ≡ pass.old.number }
    requires room { length keeper.old.me.0.seen + 1 < 2 ^ 64 }
    requires legal { IsLegal L.opening (keeper.old.me.0.seen ++ Item.Made entry ∷ []) }
    ensures receipt { (result.number ≡ number) × (result.event ≡ entry.event) × (result.outs ≡ entry.outs) }
    ensures keeper { IsKeeping L.table (keeper.old.me.0.seen ++ Item.Made entry ∷ []) keeper.new }
    ensures pass { Puts pass.old keeper.old.me.0.seen (Item.Made entry) pass.new }
{
    let item = Item::Made { entry };
    joint.append::<Brand>(keeper, &mut pass.seat, &item);
    match item {
        Item::Made { entry } => Receipt {
            number,
            event: entry.event,
            outs: entry.outs,
        },
        Item::Lost { .. } => unreachable!(),
    }
}

/// The loss of a call is put at the end of the history.
fn forget<L: ClientKey>(joint: &Joint<Item>, keeper: &mut Seat<Item>, pass: &mut Pass<L>)
    requires table { word_of joint.now ≡ L.table }
    requires keeper { IsKeeping L.table keeper.old.me.0.seen keeper.old }
    requires room { length keeper.old.me.0.seen + 1 < 2 ^ 64 }
    requires legal { IsLegal L.opening (keeper.old.me.0.seen ++ Item.Lost pass.old.number ∷ []) }
    ensures keeper { IsKeeping L.table (keeper.old.me.0.seen ++ Item.Lost pass.old.number ∷ []) keeper.new }
    ensures pass { Puts pass.old keeper.old.me.0.seen (Item.Lost pass.old.number) pass.new }
{
    let caller = pass.number;
    let item = Item::Lost { caller };
    joint.append::<Brand>(keeper, &mut pass.seat, &item);
}

/// Steps the client, and puts an entry of that or a loss at the end of the history.
fn step_and_tell<L: ClientKey, W: Words + Drop>(
    alloc: Global,
    joint: &Joint<Item>,
    keeper: &mut Seat<Item>,
    pass: &mut Pass<L>,
    client: &mut Client,
    words: W,
    count: u64,
    event: Event,
) -> (W, Result<Receipt, Error>)
    requires table { word_of joint.now ≡ L.table }
    requires counting { IsCounting L.table L.opening W.stream client.old words count keeper.old }
    requires room { count + 1 < 2 ^ 64 }
    ensures ok { IfOk result.1 (λ r. IsSubmitted pass.old pass.new event r) }
    ensures counting { IfOk result.1 (λ _. IsCounting L.table L.opening W.stream client.new result.0 (count + 1) keeper.new) }
    ensures refused { IfErr result.1 (λ e. IsWant e × IsRefused pass.old pass.new) }
    ensures numbers { IsErrOf result.1 Error.NumbersUsed → IsStopped L.opening pass.new event }
    ensures lost { IfErr result.1 (λ _. IsCounted L.table L.opening W.stream client.new (Some result.0) count (Some pass.old.number) keeper.new) }
{
    let (words, stepped) = step(alloc, client, words, event);
    let caller = pass.number;
    match stepped {
        Ok(recorded) => {
            let entry = Entry {
                caller,
                event: recorded.event,
                words: recorded.words,
                outs: recorded.outs,
            };
            let receipt = tell(joint, keeper, pass, count, entry);
            (words, Ok(receipt))
        }
        Err(error) => {
            forget(joint, keeper, pass);
            (words, Err(error))
        }
    }
}

impl<L: ClientKey, W: Words + Drop> Counter<L, W> {
    fn new(alloc: Global, client: Client, words: W, seat: Seat<Item>) -> Counter<L, W>
        requires seat { (seat.table_id ≡ L.table) × (seat.me.1 ≡ []) × (seat.me.0.keeps ≡ true) × (seat.me.0.seen ≡ []) }
        requires client { client ≡ opened L.opening }
        requires words { W.stream words ≡ L.opening.words }
        ensures { result ≡ [] }
    {
        Counter {
            alloc,
            client,
            words: Some(words),
            count: 0,
            lost: None,
            seat,
            of: PhantomData,
        }
    }

    /// A pass sees the loss of an earlier call.
    fn fall_behind(&mut self, joint: &Joint<Item>, pass: &mut Pass<L>)
        requires table { word_of joint.now ≡ L.table }
        requires lost { EndsLost self.old }
        ensures same { self.new ≡ self.old }
        ensures behind { IsBehind pass.old pass.new }
    {
        joint.catch_up(&mut self.seat, &mut pass.seat);
    }

    /// A pass sees that the history is full.
    #[tactic(auto, using(crate::proofs::Counting::filled))]
    fn fill_up(&mut self, joint: &Joint<Item>, pass: &mut Pass<L>)
        requires table { word_of joint.now ≡ L.table }
        requires many { 2 ^ 64 ≤ length self.old + 2 }
        ensures same { self.new ≡ self.old }
        ensures full { IsFull pass.old pass.new }
    {
        joint.catch_up(&mut self.seat, &mut pass.seat);
    }

    /// Steps the client by an event for the caller of a pass, unless an earlier call was refused on its way.
    fn submit(
        &mut self,
        joint: &Joint<Item>,
        pass: &mut Pass<L>,
        event: Event,
    ) -> Result<Receipt, Error>
        requires { word_of joint.now ≡ L.table }
        ensures ok { IfOk result (λ r. IsSubmitted pass.old pass.new event r) }
        ensures behind { IsErrOf result Error.Failed → IsBehind pass.old pass.new }
        ensures refused { IfErr result (λ e. e ≢ Error.Failed → IsWant e × (IsFull pass.old pass.new ⊎ IsRefused pass.old pass.new)) }
        ensures memory { IsErrOf result Error.NoMemory → IsRefused pass.old pass.new }
        ensures lost { EndsLost self.old → result ≡ Err Error.Failed }
        ensures numbers { IsErrOf result Error.NumbersUsed → IsFull pass.old pass.new ⊎ IsStopped L.opening pass.new event }
    {
        if self.lost.is_some() {
            self.fall_behind(joint, pass);
            return Err(Error::Failed);
        }
        if self.count >= u64::MAX - 1 {
            self.fill_up(joint, pass);
            return Err(Error::NumbersUsed);
        }
        let Some(words) = self.words.take() else {
            unreachable!()
        };
        let caller = pass.number;
        let (words, result) = step_and_tell(
            self.alloc,
            joint,
            &mut self.seat,
            pass,
            &mut self.client,
            words,
            self.count,
            event,
        );
        self.words = Some(words);
        match result {
            Ok(receipt) => {
                self.count += 1;
                Ok(receipt)
            }
            Err(error) => {
                self.lost = Some(caller);
                Err(error)
            }
        }
    }
}

/// A client that several threads share, of which no journal is kept: it takes no more memory the longer it runs. What its
/// callers did is one history all the same, which proofs know.
#[derive(Drop)]
pub struct UnjournaledClient<L: ClientKey, W: Words + Drop> {
    joint: Joint<Item>,
    counter: Mutex<Counter<L, W>>,
    callers: u32,
}

impl<L: ClientKey, W: Words + Drop> Model for UnjournaledClient<L, W> {
    ghost use Rattle.joint_history.specs.Words.{word_of};
    ghost use Rattle.std.specs.Prelude.{◌≡◌};
    ghost use Rattle.client_shared.specs.History.{Shared};

    ghost Value = { Shared };

    ghost view = { λ s. record { callers = s.callers } };

    ghost invariant = { λ s. (word_of s.joint ≡ L.table) × (s.callers ≡ L.opening.callers) };
}

impl<L: ClientKey, W: Words + Drop> UnjournaledClient<L, W> {
    /// A client for so many callers, and their passes. `NoMemory`.
    pub fn new(
        alloc: Global,
        opened: Opened,
        conf: &ResolvConf,
        redundant: redundant::Config,
        cache: cache::Config,
        words: W,
        callers: u32,
    ) -> Result<(UnjournaledClient<L, W>, Vec<Pass<L>>), Error>
        requires table { word_of opened.joint ≡ L.table }
        requires opening { L.opening ≡ opening_of redundant cache conf.now (W.stream words) callers }
        ensures shared { IfOk result (λ r. r.0.callers ≡ callers) }
        ensures passes { IfOk result (λ r. r.1.items ≡ numbered callers) }
        ensures refused { IfErr result (λ e. e ≡ Error.NoMemory) }
    {
        let settings = Settings {
            redundant,
            cache,
            transports: Transports::new(),
        };
        UnjournaledClient::with_settings(alloc, opened, conf, settings, words, callers)
    }

    /// The same with settings of transports, for every server alike.
    pub fn with_settings(
        alloc: Global,
        opened: Opened,
        conf: &ResolvConf,
        settings: Settings,
        words: W,
        callers: u32,
    ) -> Result<(UnjournaledClient<L, W>, Vec<Pass<L>>), Error>
        requires table { word_of opened.joint ≡ L.table }
        requires opening { L.opening ≡ opening_with settings.transports settings.redundant settings.cache conf.now (W.stream words) callers }
        ensures shared { IfOk result (λ r. r.0.callers ≡ callers) }
        ensures passes { IfOk result (λ r. r.1.items ≡ numbered callers) }
        ensures refused { IfErr result (λ e. e ≡ Error.NoMemory) }
    {
        let Opened { joint, mut seat } = opened;
        let client = Client::with_settings(alloc, conf, settings, 0)?;
        let Ok(passes) = passes_of(alloc, &joint, &mut seat, callers) else {
            return Err(Error::NoMemory);
        };
        let shared = UnjournaledClient {
            joint,
            counter: Mutex::new(Counter::new(alloc, client, words, seat)),
            callers,
        };
        Ok((shared, passes))
    }

    /// Steps the client by an event, once no other call is at it. Nothing of it is copied.
    ///
    /// `Failed` where an earlier call of any caller was lost. `NumbersUsed` after 2^64 - 2 calls, where nothing is changed but
    /// what the pass has seen, or where the client has no number for what the event does; and `NoMemory`. The call is lost by
    /// either of these two.
    pub fn submit<R: Wait>(
        &self,
        rt: &R,
        pass: &mut Pass<L>,
        event: Event,
    ) -> Result<Receipt, Error>
        ensures ok { IfOk result (λ r. IsSubmitted pass.old pass.new event r) }
        ensures behind { IsErrOf result Error.Failed → IsBehind pass.old pass.new }
        ensures refused { IfErr result (λ e. e ≢ Error.Failed → IsWant e × (IsFull pass.old pass.new ⊎ IsRefused pass.old pass.new)) }
        ensures memory { IsErrOf result Error.NoMemory → IsRefused pass.old pass.new }
        ensures numbers { IsErrOf result Error.NumbersUsed → IsFull pass.old pass.new ⊎ IsStopped L.opening pass.new event }
    {
        self.counter.lock(rt).submit(&self.joint, pass, event)
    }

    /// Each caller has then seen what both had. It takes no memory.
    pub fn meet(&self, one: &mut Pass<L>, other: &mut Pass<L>)
        ensures same { one.new.seen ≡ other.new.seen }
        ensures numbers { (one.new.number ≡ one.old.number) × (other.new.number ≡ other.old.number) }
        ensures begins { IsPrefix one.old.seen one.new.seen × IsPrefix other.old.seen other.new.seen }
        ensures calls { (calls one.new ≡ calls one.old) × (calls other.new ≡ calls other.old) }
        ensures lost { (is_lost one.new ≡ is_lost one.old) × (is_lost other.new ≡ is_lost other.old) }
    {
        meet(&self.joint, one, other);
    }
}
