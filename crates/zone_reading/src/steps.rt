//! One record of a transfer.

ghost use Rattle.std.specs.Prelude.{◌≡◌, ◌∷◌, ◌++◌, [], IfOk, OnOk};
ghost use Rattle.zone_reading.specs.declared.steps.Update.TheVariants.{DeleteAllRecords};
ghost use Rattle.zone_reading.specs.Running as plain;

use std::alloc::{AllocError, Global};

/// What was asked for.
#[derive(Clone, Copy, Debug, PartialEq, Eq)]
pub enum XfrKind {
    Axfr,
    Ixfr,
}

/// A record of a transfer.
#[derive(Drop)]
pub enum Entry<T> {
    /// An SOA, and its serial.
    Soa { serial: u32, content: T },
    /// Another record. None stands for one outside the zone, which is left out.
    Other(Option<T>),
}

/// Where a transfer is. `first` is the serial of its first SOA, with which it ends too, and `soa` that SOA: a whole zone ends
/// with the same one (RFC 5936 2.2).
///
/// ```text
/// Begin ── SOA, where the whole zone was asked for ──► Whole ── the first SOA again ────────► Done
///   │ SOA, where changes were asked for                  ▲                                     ▲
///   ▼                                                    │ another record                      │
/// FirstSoa ──────────────────────────────────────────────┘                                     │
///   │ └── the first SOA again ─────────────────────────────────────────────────────────────────┤
///   │ SOA with another serial                                                                  │
///   ▼                                                                                          │
/// Deleting ── SOA ──► Adding ── SOA with the first serial, which this batch led to ────────────┘
///   ▲                   │
///   └── another serial ─┘
/// ```
///
/// In `Whole`, `Deleting` and `Adding` a record that is no SOA changes nothing. All else is wrong.
#[derive(Debug, PartialEq, Eq, Drop)]
pub enum State<T> {
    /// No record came.
    Begin,
    /// One SOA came in answer to a request for changes.
    FirstSoa { first: u32, soa: T },
    /// The records of a whole zone come.
    Whole { first: u32, soa: T },
    /// The records that are deleted come.
    Deleting { first: u32 },
    /// The records that are added come, of a batch that leads to the serial `reached`.
    Adding { first: u32, reached: u32 },
    /// The last record came.
    Done,
}

/// What is to be done to a zone. SOAs come with their serials.
#[derive(Debug, PartialEq, Eq, Drop)]
pub enum Update<T> {
    /// All records go: the whole zone comes.
    DeleteAllRecords,
    /// What follows is deleted from the zone with this serial.
    BeginBatchDelete { serial: u32, soa: T },
    DeleteRecord(T),
    /// What follows is added, and makes the zone with this serial.
    BeginBatchAdd { serial: u32, soa: T },
    AddRecord(T),
    /// The zone has this SOA and no other.
    Finished { serial: u32, soa: T },
}

/// The state after a record, none where it is wrong. The updates that it decides are added.
pub fn step<T: Drop + PartialEq>(
    kind: XfrKind,
    state: State<T>,
    entry: Entry<T>,
    updates: &mut Vec<Update<T>>,
) -> Result<Option<State<T>>, AllocError>
    ensures { IfOk result (λ after. plain.MadeStep updates.old.items updates.new.items after (plain.next T.eq kind state entry)) }
{
    match entry {
        Entry::Other(content) => step_other(state, content, updates),
        Entry::Soa { serial, content } => step_soa(kind, state, serial, content, updates),
    }
}

/// Adds the update of a record that comes to be added, if it is in the zone.
fn add<T: Drop>(content: Option<T>, updates: &mut Vec<Update<T>>) -> Result<(), AllocError>
    ensures { OnOk result (updates.new.items ≡ updates.old.items ++ plain.additions content) }
{
    if let Some(content) = content {
        updates.push(Update::AddRecord(content))?;
    }
    Ok(())
}

/// Adds the update of a record that comes to be deleted, if it is in the zone.
fn delete<T: Drop>(content: Option<T>, updates: &mut Vec<Update<T>>) -> Result<(), AllocError>
    ensures { OnOk result (updates.new.items ≡ updates.old.items ++ plain.deletions content) }
{
    if let Some(content) = content {
        updates.push(Update::DeleteRecord(content))?;
    }
    Ok(())
}

/// The state after a record that is no SOA.
fn step_other<T: Drop>(
    state: State<T>,
    content: Option<T>,
    updates: &mut Vec<Update<T>>,
) -> Result<Option<State<T>>, AllocError>
    ensures { IfOk result (λ after. plain.MadeStep updates.old.items updates.new.items after (plain.next_other state content)) }
{
    match state {
        State::Begin | State::Done => Ok(None),
        State::FirstSoa { first, soa } => {
            updates.push(Update::DeleteAllRecords)?;
            add(content, updates)?;
            Ok(Some(State::Whole { first, soa }))
        }
        State::Whole { first, soa } => {
            add(content, updates)?;
            Ok(Some(State::Whole { first, soa }))
        }
        State::Deleting { first } => {
            delete(content, updates)?;
            Ok(Some(State::Deleting { first }))
        }
        State::Adding { first, reached } => {
            add(content, updates)?;
            Ok(Some(State::Adding { first, reached }))
        }
    }
}

/// The state after an SOA with this serial.
fn step_soa<T: Drop + PartialEq>(
    kind: XfrKind,
    state: State<T>,
    serial: u32,
    content: T,
    updates: &mut Vec<Update<T>>,
) -> Result<Option<State<T>>, AllocError>
    ensures { IfOk result (λ after. plain.MadeStep updates.old.items updates.new.items after (plain.next_soa T.eq kind state serial content)) }
{
    match state {
        State::Begin => start(kind, serial, content, updates),
        State::FirstSoa { first, soa } => {
            if serial == first {
                return end_empty(first, soa, content, updates);
            }
            updates.push(Update::BeginBatchDelete {
                serial,
                soa: content,
            })?;
            Ok(Some(State::Deleting { first }))
        }
        State::Whole { first, soa } => {
            if serial != first {
                return Ok(None);
            }
            end_whole(first, soa, content, updates)
        }
        State::Deleting { first } => {
            updates.push(Update::BeginBatchAdd {
                serial,
                soa: content,
            })?;
            Ok(Some(State::Adding {
                first,
                reached: serial,
            }))
        }
        State::Adding { first, reached } => {
            if serial == first {
                return end_changes(reached, first, content, updates);
            }
            updates.push(Update::BeginBatchDelete {
                serial,
                soa: content,
            })?;
            Ok(Some(State::Deleting { first }))
        }
        State::Done => Ok(None),
    }
}

/// The state after the first SOA.
fn start<T: Drop>(
    kind: XfrKind,
    serial: u32,
    content: T,
    updates: &mut Vec<Update<T>>,
) -> Result<Option<State<T>>, AllocError>
    ensures { IfOk result (λ after. plain.MadeStep updates.old.items updates.new.items after (plain.starts kind serial content)) }
{
    let (first, soa) = (serial, content);
    match kind {
        XfrKind::Axfr => {
            updates.push(Update::DeleteAllRecords)?;
            Ok(Some(State::Whole { first, soa }))
        }
        XfrKind::Ixfr => Ok(Some(State::FirstSoa { first, soa })),
    }
}

/// The end of a whole zone, whose last SOA is to be the first one again.
fn end_whole<T: Drop + PartialEq>(
    first: u32,
    soa: T,
    content: T,
    updates: &mut Vec<Update<T>>,
) -> Result<Option<State<T>>, AllocError>
    ensures { IfOk result (λ after. plain.MadeStep updates.old.items updates.new.items after (plain.at_whole T.eq [] first soa content)) }
{
    if soa != content {
        return Ok(None);
    }
    updates.push(Update::Finished {
        serial: first,
        soa: content,
    })?;
    Ok(Some(State::Done))
}

/// The end of a whole zone of which nothing but its SOA came.
fn end_empty<T: Drop + PartialEq>(
    first: u32,
    soa: T,
    content: T,
    updates: &mut Vec<Update<T>>,
) -> Result<Option<State<T>>, AllocError>
    ensures { IfOk result (λ after. plain.MadeStep updates.old.items updates.new.items after (plain.at_whole T.eq (DeleteAllRecords ∷ []) first soa content)) }
{
    if soa != content {
        return Ok(None);
    }
    updates.push(Update::DeleteAllRecords)?;
    updates.push(Update::Finished {
        serial: first,
        soa: content,
    })?;
    Ok(Some(State::Done))
}

/// The end of changes, which are to have led to the serial of the first SOA.
fn end_changes<T: Drop>(
    reached: u32,
    first: u32,
    content: T,
    updates: &mut Vec<Update<T>>,
) -> Result<Option<State<T>>, AllocError>
    ensures { IfOk result (λ after. plain.MadeStep updates.old.items updates.new.items after (plain.at_last reached first content)) }
{
    if reached != first {
        return Ok(None);
    }
    updates.push(Update::Finished {
        serial: first,
        soa: content,
    })?;
    Ok(Some(State::Done))
}
