//! What the messages of a transfer said so far.

ghost use Rattle.std.specs.Prelude.{◌≡◌, ◌++◌, ◌∷◌, ◌-◌, ◌^◌, [], length, min, IfErr, OnOk, OnErr};
ghost use Rattle.zone_records.specs.Interpreting.{is_done};
ghost use Rattle.zone_transfer.specs.Reading as plain;
ghost use Rattle.zone_transfer.specs.Reading.{AppendFault, IsRefusedAt, IsWithin, Reads, nothing_read, with_updates};

use crate::fault::{FetchFault, refusal_of};
use dns_base::{Message, Name, Rcode};
use std::alloc::Global;
use std::marker::Model;
use zone_records::{Interpreter, Update, XfrKind, ZoneRecord};

/// How many octets of memory a record is reckoned to take beside its own octets.
const RECORD_SIZE: u64 = 256;

/// The messages of a transfer so far, as updates.
#[derive(Drop)]
pub(crate) struct Reading {
    interpreter: Interpreter,
    updates: Vec<Update>,
    /// How much memory the updates are reckoned to take, in octets, and how much they may.
    size: u64,
    most: u64,
}

impl Model for Reading {
    ghost use Rattle.std.specs.Prelude.{◌≡◌, ◌≤◌, ◌-◌, ◌^◌, min};
    ghost use Rattle.zone_transfer.specs.Reading.{BoundedReading, reckoned};

    ghost Value = { BoundedReading };

    ghost view = { λ r. record { state = record { interpreter = r.interpreter; updates = r.updates.items }; most = r.most } };

    ghost invariant = { λ r. (r.size ≡ min (reckoned r.updates.items) (2 ^ 64 - 1)) × (r.size ≤ r.most) };
}

fn record_size(item: &ZoneRecord) -> u64
    ensures { result ≡ min (plain.record_size item.now) (2 ^ 64 - 1) }
{
    let owner = item.owner.as_slice().len() as u64;
    let rdata = item.rdata.as_slice().len() as u64;
    RECORD_SIZE.saturating_add(owner).saturating_add(rdata)
}

/// How much memory an update is reckoned to take, in octets.
fn size_of(update: &Update) -> u64
    ensures { result ≡ min (plain.size_of update.now) (2 ^ 64 - 1) }
{
    match update {
        Update::DeleteAllRecords => RECORD_SIZE,
        Update::DeleteRecord(item) | Update::AddRecord(item) => record_size(item),
        Update::BeginBatchDelete { soa, .. }
        | Update::BeginBatchAdd { soa, .. }
        | Update::Finished { soa, .. } => record_size(soa),
    }
}

impl Reading {
    /// Nothing so far, of a transfer whose records may take so many octets of memory.
    pub(crate) fn new(alloc: Global, apex: Name, kind: XfrKind, most: u64) -> Reading
        ensures { result ≡ record { state = nothing_read apex kind; most = most } }
    {
        Reading {
            interpreter: Interpreter::new(apex, kind),
            updates: Vec::new(alloc),
            size: 0,
            most,
        }
    }

    /// Appends one update, unless it takes too much.
    #[tactic(auto, using(crate::proofs::Sizes::size_more, crate::proofs::Sizes::above_of_size))]
    fn push(&mut self, update: Update) -> Result<(), FetchFault>
        ensures ok { OnOk result (self.new ≡ with_updates (self.old.state.updates ++ update ∷ []) self.old) }
        ensures kept { OnErr result (self.new ≡ self.old) }
        ensures refused { IfErr result (AppendFault self.old.most (self.old.state.updates ++ update ∷ [])) }
    {
        let size = self.size.saturating_add(size_of(&update));
        if size > self.most {
            return Err(FetchFault::TooLarge);
        }
        if self.updates.push(update).is_err() {
            return Err(FetchFault::NoMemory);
        }
        self.size = size;
        Ok(())
    }

    /// Appends updates, unless they take too much.
    fn append(&mut self, more: Vec<Update>) -> Result<(), FetchFault>
        ensures ok { OnOk result (self.new ≡ with_updates (self.old.state.updates ++ more.items) self.old) }
        ensures refused { IfErr result (AppendFault self.old.most (self.old.state.updates ++ more.items)) }
    {
        for update in more {
            self.push(update)?;
        }
        Ok(())
    }

    /// Takes the next message.
    pub(crate) fn take(&mut self, alloc: Global, message: &Message) -> Result<(), FetchFault>
        ensures read { OnOk result (Reads self.old.state message.now self.new.state) }
        ensures most { OnOk result (self.new.most ≡ self.old.most) }
        ensures refused { IfErr result (IsRefusedAt self.old.most self.old.state message.now) }
    {
        let rcode = message.header().rcode();
        if rcode != Rcode::NOERROR {
            return Err(FetchFault::Refused(rcode));
        }
        match self.interpreter.interpret(alloc, message) {
            Ok(more) => self.append(more),
            Err(fault) => Err(refusal_of(fault)),
        }
    }

    /// How many updates there are so far.
    pub(crate) fn updates(&self) -> usize
        ensures { result ≡ length self.now.state.updates }
    {
        self.updates.len()
    }

    /// How much memory they are reckoned to take, in octets.
    pub(crate) fn size(&self) -> u64
        ensures { result ≡ min (plain.reckoned self.now.state.updates) (2 ^ 64 - 1) }
    {
        self.size
    }

    /// Whether the transfer has ended.
    pub(crate) fn is_finished(&self) -> bool
        ensures { result ≡ is_done self.now.state.interpreter.state }
    {
        self.interpreter.is_finished()
    }

    /// The updates of all messages.
    #[tactic(auto, using(crate::proofs::Sizes::within_of_size))]
    pub(crate) fn into_updates(self) -> Vec<Update>
        ensures updates { result.items ≡ self.state.updates }
        ensures within { IsWithin self.most self.state.updates }
    {
        self.updates
    }
}
