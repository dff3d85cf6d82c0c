//! The client that threads share.

ghost use Rattle.std.specs.Prelude.{◌≡◌, ◌≢◌, ◌⊎◌, ◌+◌, ◌<◌, All, length, vec_len, IfOk, IfErr, IsErr, IsErrOf};
ghost use mathlib.Core.List.{IsPrefix};
ghost use Rattle.client_request.specs.Timers.{IsWant};
ghost use Rattle.client_shared.specs.Drawn.{AreDrawn};
ghost use Rattle.client_shared.specs.History.{history, opening_of, opening_with, numbered, newcomer, calls, is_lost, IsLegal, IsFresh, IsSubmitted, IsRefused, IsStopped, IsBehind, IsSettled, IsClosed};
ghost use Rattle.joint_history.specs.Words.{word_of};

use crate::desk::{Desk, Parts};
use crate::entry::{Item, Journal, Receipt};
use crate::key::{ClientKey, Opened};
use crate::pass::{Pass, meet};
use client_core::{Client, Settings, Transports, cache, redundant};
use client_request::{Error, Event, Words};
use joint_history::{Joint, Seat};
use resolv_conf::ResolvConf;
use std::alloc::{AllocError, Global};
use std::marker::{Model, PhantomData};
use std::sync::{Mutex, Wait};

/// A client that several threads share.
#[derive(Drop)]
pub struct SharedClient<L: ClientKey, W: Words + Drop> {
    joint: Joint<Item>,
    desk: Mutex<Desk<L, W>>,
    callers: u32,
}

impl<L: ClientKey, W: Words + Drop> Model for SharedClient<L, W> {
    ghost use Rattle.joint_history.specs.Words.{word_of};
    ghost use Rattle.std.specs.Prelude.{◌≡◌};
    ghost use Rattle.client_shared.specs.History.{Shared};

    ghost Value = { Shared };

    ghost view = { λ s. record { callers = s.callers } };

    ghost invariant = { λ s. (word_of s.joint ≡ L.table) × (s.callers ≡ L.opening.callers) };
}

/// What a shared client did, its words as they were left, and the number of the caller whose call was lost, if one was.
#[derive(Drop)]
pub struct Closed<W> {
    pub journal: Journal,
    pub words: W,
    pub lost: Option<u32>,
}

/// Not all passes were handed in: the client and the passes as they were, how many came, and how many there are.
#[derive(Drop)]
pub struct CloseFault<L: ClientKey, W: Words + Drop> {
    pub shared: SharedClient<L, W>,
    pub passes: Vec<Pass<L>>,
    pub given: u32,
    pub made: u32,
}

/// The pass of the next caller.
fn pass_of<L: ClientKey>(joint: &Joint<Item>, seat: &mut Seat<Item>, number: u32) -> Pass<L>
    requires table { word_of joint.now ≡ L.table }
    requires fresh { IsFresh L.table number seat.old }
    requires below { number < L.opening.callers }
    ensures pass { result ≡ newcomer number }
    ensures seat { IsFresh L.table (number + 1) seat.new }
{
    Pass {
        number,
        seat: joint.caller(seat),
        of: PhantomData,
    }
}

/// The passes of all callers, numbered from 0.
pub(crate) fn passes_of<L: ClientKey>(
    alloc: Global,
    joint: &Joint<Item>,
    seat: &mut Seat<Item>,
    callers: u32,
) -> Result<Vec<Pass<L>>, AllocError>
    requires table { word_of joint.now ≡ L.table }
    requires fresh { IsFresh L.table 0 seat.old }
    requires count { callers ≡ L.opening.callers }
    ensures passes { IfOk result (λ v. v.items ≡ numbered callers) }
    ensures seat { IfOk result (λ _. IsFresh L.table callers seat.new) }
{
    let mut passes = Vec::new(alloc);
    for number in 0..callers {
        passes.reserve(1)?;
        passes.push_reserved(pass_of(joint, seat, number));
    }
    Ok(passes)
}

impl<L: ClientKey, W: Words + Drop> SharedClient<L, W> {
    /// A client for so many callers, and their passes. `NoMemory`.
    pub fn new(
        alloc: Global,
        opened: Opened,
        conf: &ResolvConf,
        redundant: redundant::Config,
        cache: cache::Config,
        words: W,
        callers: u32,
    ) -> Result<(SharedClient<L, W>, Vec<Pass<L>>), Error>
        requires table { word_of opened.joint ≡ L.table }
        requires opening { L.opening ≡ opening_of redundant cache conf.now (W.stream words) callers }
        ensures shared { IfOk result (λ r. r.0.callers ≡ callers) }
        ensures passes { IfOk result (λ r. r.1.items ≡ numbered callers) }
        ensures refused { IfErr result (λ e. e ≡ Error.NoMemory) }
    {
        let settings = Settings {
            redundant,
            cache,
            transports: Transports::new(),
        };
        SharedClient::with_settings(alloc, opened, conf, settings, words, callers)
    }

    /// The same with settings of transports, for every server alike.
    pub fn with_settings(
        alloc: Global,
        opened: Opened,
        conf: &ResolvConf,
        settings: Settings,
        words: W,
        callers: u32,
    ) -> Result<(SharedClient<L, W>, Vec<Pass<L>>), Error>
        requires table { word_of opened.joint ≡ L.table }
        requires opening { L.opening ≡ opening_with settings.transports settings.redundant settings.cache conf.now (W.stream words) callers }
        ensures shared { IfOk result (λ r. r.0.callers ≡ callers) }
        ensures passes { IfOk result (λ r. r.1.items ≡ numbered callers) }
        ensures refused { IfErr result (λ e. e ≡ Error.NoMemory) }
    {
        let Opened { joint, mut seat } = opened;
        let client = Client::with_settings(alloc, conf, settings, 0)?;
        let Ok(passes) = passes_of(alloc, &joint, &mut seat, callers) else {
            return Err(Error::NoMemory);
        };
        let shared = SharedClient {
            joint,
            desk: Mutex::new(Desk::new(alloc, client, words, seat)),
            callers,
        };
        Ok((shared, passes))
    }

    /// Steps the client by an event, once no other call is at it.
    ///
    /// `Failed` where an earlier call of any caller was refused on its way, from its step on. `NumbersUsed` where the client has
    /// no number for what the event does, and `NoMemory`: where that is before the step, nothing is changed; from the step on
    /// the call is lost, and each later call of any caller answers `Failed`.
    pub fn submit<R: Wait>(
        &self,
        rt: &R,
        pass: &mut Pass<L>,
        event: Event,
    ) -> Result<Receipt, Error>
        ensures ok { IfOk result (λ r. IsSubmitted pass.old pass.new event r) }
        ensures behind { IsErrOf result Error.Failed → IsBehind pass.old pass.new }
        ensures refused { IfErr result (λ e. e ≢ Error.Failed → IsWant e × ((pass.new ≡ pass.old) ⊎ IsRefused pass.old pass.new)) }
        ensures numbers { IsErrOf result Error.NumbersUsed → IsStopped L.opening pass.new event }
    {
        self.desk.lock(rt).submit(&self.joint, pass, event)
    }

    /// Each caller has then seen what both had. It takes no memory.
    pub fn meet(&self, one: &mut Pass<L>, other: &mut Pass<L>)
        ensures same { one.new.seen ≡ other.new.seen }
        ensures numbers { (one.new.number ≡ one.old.number) × (other.new.number ≡ other.old.number) }
        ensures begins { IsPrefix one.old.seen one.new.seen × IsPrefix other.old.seen other.new.seen }
        ensures calls { (calls one.new ≡ calls one.old) × (calls other.new ≡ calls other.old) }
        ensures lost { (is_lost one.new ≡ is_lost one.old) × (is_lost other.new ≡ is_lost other.old) }
    {
        meet(&self.joint, one, other);
    }

    /// Ends the client, where all passes are handed in. It takes no memory.
    pub fn close(self, mut passes: Vec<Pass<L>>) -> Result<Closed<W>, CloseFault<L, W>>
        ensures legal { IfOk result (λ c. IsLegal L.opening (history c.journal c.lost)) }
        ensures passes { IfOk result (λ c. All (IsClosed c.journal c.lost) passes.items) }
        ensures callers { IfOk result (λ c. All (λ e. e.caller < self.callers) c.journal) }
        ensures words { IfOk result (λ c. AreDrawn L.opening.words c.journal c.lost (W.stream c.words)) }
        ensures fault { IfErr result (λ f. (f.given ≡ vec_len passes) × (f.made ≡ self.callers) × (f.given < f.made) × (f.passes.items ≡ passes.items) × (f.shared ≡ self)) }
        ensures exactly { vec_len passes < self.callers → IsErr result }
    {
        let given = passes.len();
        if given < self.callers as usize {
            let made = self.callers;
            return Err(CloseFault {
                shared: self,
                passes,
                given: given as u32,
                made,
            });
        }
        let SharedClient {
            joint,
            desk,
            callers: _,
        } = self;
        let mut desk = desk.into_inner();
        while let Some(mut pass) = passes.pop() {
            desk.settle(&joint, &mut pass);
        }
        let Parts {
            entries,
            lost,
            words,
        } = desk.into_parts();
        match words {
            Some(words) => Ok(Closed {
                journal: Journal::from_vec(entries),
                words,
                lost,
            }),
            None => unreachable!(),
        }
    }
}
