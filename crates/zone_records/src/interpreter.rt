//! What the messages of a transfer do to a zone.

ghost use Rattle.std.specs.Prelude.{◌≡◌, ◌≢◌, Some, Ok, Err, IfOk, IfErr, OnErr, IsSome};
ghost use Rattle.dns_base.specs.Message.{answer_items};
ghost use Rattle.zone_reading.specs.Running.{MadeStep};
ghost use Rattle.zone_records.specs.Interpreting.{answer_outsiders, begun, counted, is_done, interpreted, item_outsiders, outsiders, outsiders_of, takes_answer, takes_item, takes_items, takes_some};
ghost use Rattle.zone_records.specs.declared.interpreter.XfrFault.TheVariants as xfr;

use crate::Update;
use crate::reading::entry_of;
use crate::record::ZoneRecord;
use dns_base::{Message, Name, NoMemory, ParseError, Rcode, Record, RecordSection, Serial};
use std::alloc::Global;
use std::marker::Model;
use zone_reading::{Entry, State, XfrKind, step};

/// Why a message of a transfer was refused.
#[derive(Clone, Copy, Debug, PartialEq, Eq)]
pub enum XfrFault {
    /// The response code isn't 0, there is no answer record, one can't be read or is of another class than IN or of a type that no zone
    /// holds, or no transfer goes on from the records so far.
    NotValid,
    /// Changes were asked for, and the first message has one record, an SOA with this serial. With the zone's own serial it
    /// means that nothing is new, else that the whole zone is to be asked for (RFC 1995 4).
    SingleSoa(Serial),
    /// The transfer had ended before.
    AlreadyFinished,
    NoMemory,
}

impl From<NoMemory> for XfrFault {
    ghost from_gives = { λ _ e. e ≡ xfr.NoMemory };

    fn from(_e: NoMemory) -> XfrFault {
        XfrFault::NoMemory
    }
}

/// Reads a transfer message by message. After a refusal it is as it was.
#[derive(Debug, Drop)]
pub struct Interpreter {
    apex: Name,
    kind: XfrKind,
    state: State<ZoneRecord>,
    /// How many records outside the zone came, as far as 64 bits count them.
    outside: u64,
}

impl Model for Interpreter {
    ghost use Rattle.zone_records.specs.Interpreting as plain;

    ghost Value = { plain.Interpreter };

    ghost view = { λ i. record { apex = i.apex; kind = i.kind; state = i.state; outside = i.outside } };
}

/// How many records outside the zone there are in this one.
fn outsiders_of(entry: &Entry<ZoneRecord>) -> u64
    ensures { result ≡ outsiders_of (Some entry.now) }
{
    match entry {
        Entry::Other(None) => 1,
        _ => 0,
    }
}

/// The state after a record, none where it is wrong. The updates that it decides are added, and it is counted if it is outside the zone.
fn take_record(
    alloc: Global,
    apex: &Name,
    kind: XfrKind,
    state: State<ZoneRecord>,
    source: &Record<'_>,
    updates: &mut Vec<Update>,
    outside: &mut u64,
) -> Result<Option<State<ZoneRecord>>, NoMemory>
    ensures step { IfOk result (λ after. MadeStep updates.old.items updates.new.items after (takes_item apex.now kind state (Ok source.now))) }
    ensures counts { IfOk result (λ after. IsSome after → outside.new ≡ counted outside.old (item_outsiders apex.now (Ok source.now))) }
{
    match entry_of(alloc, apex, source)? {
        None => Ok(None),
        Some(entry) => {
            *outside = outside.saturating_add(outsiders_of(&entry));
            let after = step(kind, state, entry, updates)?;
            Ok(after)
        }
    }
}

/// The state after what a reader of a section meets.
fn take_item(
    alloc: Global,
    apex: &Name,
    kind: XfrKind,
    state: State<ZoneRecord>,
    item: Result<Record<'_>, ParseError>,
    updates: &mut Vec<Update>,
    outside: &mut u64,
) -> Result<Option<State<ZoneRecord>>, NoMemory>
    ensures step { IfOk result (λ after. MadeStep updates.old.items updates.new.items after (takes_item apex.now kind state item.entry)) }
    ensures counts { IfOk result (λ after. IsSome after → outside.new ≡ counted outside.old (item_outsiders apex.now item.entry)) }
{
    match item {
        Err(_) => Ok(None),
        Ok(source) => take_record(alloc, apex, kind, state, &source, updates, outside),
    }
}

/// The state after records.
#[tactic(auto, using(crate::proofs::Items::counted_all))]
fn take_items(
    alloc: Global,
    apex: &Name,
    kind: XfrKind,
    first: State<ZoneRecord>,
    records: RecordSection<'_>,
    updates: &mut Vec<Update>,
    outside: &mut u64,
) -> Result<Option<State<ZoneRecord>>, NoMemory>
    ensures step { IfOk result (λ after. MadeStep updates.old.items updates.new.items after (takes_items apex.now kind first records.entry)) }
    ensures counts { IfOk result (λ after. IsSome after → outside.new ≡ counted outside.old (outsiders apex.now records.entry)) }
{
    let mut state = first;
    for item in records {
        match take_item(alloc, apex, kind, state, item, updates, outside)? {
            None => return Ok(None),
            Some(next) => state = next,
        }
    }
    let _count = *outside;
    Ok(Some(state))
}

/// The state after records, none where there is none or a wrong one.
#[tactic(auto, using(crate::proofs::Items::joined, crate::proofs::Items::stopped, crate::proofs::Items::counts_joined))]
fn take_some(
    alloc: Global,
    apex: &Name,
    kind: XfrKind,
    first: State<ZoneRecord>,
    mut records: RecordSection<'_>,
    updates: &mut Vec<Update>,
    outside: &mut u64,
) -> Result<Option<State<ZoneRecord>>, NoMemory>
    ensures step { IfOk result (λ after. MadeStep updates.old.items updates.new.items after (takes_some apex.now kind first records.entry)) }
    ensures counts { IfOk result (λ after. IsSome after → outside.new ≡ counted outside.old (outsiders apex.now records.entry)) }
{
    let Some(item) = records.next() else {
        return Ok(None);
    };
    match take_item(alloc, apex, kind, first, item, updates, outside)? {
        None => Ok(None),
        Some(next) => {
            let after = take_items(alloc, apex, kind, next, records, updates, outside)?;
            Ok(after)
        }
    }
}

/// The same state, copied.
fn copied(alloc: Global, state: &State<ZoneRecord>) -> Result<State<ZoneRecord>, NoMemory>
    ensures { IfOk result (λ s. s ≡ state.now) }
{
    match state {
        State::Begin => Ok(State::Begin),
        State::FirstSoa { first, soa } => {
            let (first, soa) = (*first, soa.try_clone(alloc)?);
            Ok(State::FirstSoa { first, soa })
        }
        State::Whole { first, soa } => {
            let (first, soa) = (*first, soa.try_clone(alloc)?);
            Ok(State::Whole { first, soa })
        }
        State::Deleting { first } => Ok(State::Deleting { first: *first }),
        State::Adding { first, reached } => Ok(State::Adding {
            first: *first,
            reached: *reached,
        }),
        State::Done => Ok(State::Done),
    }
}

impl Interpreter {
    /// An interpreter of a transfer of the zone with this apex, before its first message.
    pub fn new(apex: Name, kind: XfrKind) -> Interpreter
        ensures { result ≡ begun apex kind }
    {
        Interpreter {
            apex,
            kind,
            state: State::Begin,
            outside: 0,
        }
    }

    /// Whether the transfer has ended.
    pub fn is_finished(&self) -> bool
        ensures { result ≡ is_done self.now.state }
    {
        match self.state {
            State::Done => true,
            _ => false,
        }
    }

    /// How many records came whose owner is neither the apex nor below it. They have no update. It is 2^64 - 1 where there were more.
    pub fn outside(&self) -> u64
        ensures { result ≡ self.now.outside }
    {
        self.outside
    }

    /// The updates of a message that comes next. A record outside the zone has none.
    ///
    /// Changes that come as one record a message can't be read: the first message alone is `SingleSoa`.
    pub fn interpret(&mut self, alloc: Global, message: &Message) -> Result<Vec<Update>, XfrFault>
        ensures read { IfOk result (λ updates. interpreted self.old message.now ≡ Ok (self.new, updates.items)) }
        ensures refused { IfErr result (λ fault. fault ≢ XfrFault.NoMemory → interpreted self.old message.now ≡ Err fault) }
        ensures kept { OnErr result (self.new ≡ self.old) }
    {
        if self.is_finished() {
            return Err(XfrFault::AlreadyFinished);
        }
        if message.header().rcode() != Rcode::NOERROR {
            return Err(XfrFault::NotValid);
        }
        let mut updates = Vec::new(alloc);
        let mut outside = self.outside;
        match self.take_answer(alloc, message, &mut updates, &mut outside)? {
            None => Err(XfrFault::NotValid),
            Some(State::FirstSoa { first, .. }) => Err(XfrFault::SingleSoa(Serial(first))),
            Some(state) => {
                self.state = state;
                self.outside = outside;
                Ok(updates)
            }
        }
    }

    /// The state after the answer section, none where it has no record or a wrong one.
    fn take_answer(
        &self,
        alloc: Global,
        message: &Message,
        updates: &mut Vec<Update>,
        outside: &mut u64,
    ) -> Result<Option<State<ZoneRecord>>, NoMemory>
        ensures step { IfOk result (λ after. MadeStep updates.old.items updates.new.items after (takes_answer self.now (answer_items message.now))) }
        ensures counts { IfOk result (λ after. IsSome after → outside.new ≡ counted outside.old (answer_outsiders self.now.apex (answer_items message.now))) }
    {
        let Ok(records) = message.answer() else {
            return Ok(None);
        };
        let first = copied(alloc, &self.state)?;
        take_some(
            alloc, &self.apex, self.kind, first, records, updates, outside,
        )
    }
}
