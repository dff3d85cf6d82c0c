//! Openings of datagram places that failed, by server and fault, and requests that servers have by datagrams.

ghost use Rattle.std.specs.Prelude.{◌≡◌, ◌<◌, OnOk};
ghost use Rattle.number_table.specs.Entries.{entry_at};
ghost use Rattle.trace_points.specs.questions.Causes.{was_opening};
ghost use Rattle.trace_points.specs.questions.Outs.{Tells};
ghost use Rattle.trace_errors.specs.Openings as plain;

use client_request::{Fault, Out, Row, Via, What};
use dns_base::NoMemory;
use number_table::NumberTable;
use std::alloc::Global;
use trace_tables::{Newest, Place, Stand, add};

/// A server got a request by datagrams, in a row.
#[derive(Clone, Copy, Debug, Drop)]
pub struct Begun {
    pub server: u32,
    pub row: u64,
}

/// An opening failed, at a server.
#[derive(Clone, Copy, Debug, Drop)]
pub struct Refused {
    pub server: u32,
    pub fault: Fault,
}

/// Which openings failed, and which servers got requests by datagrams. Rows are counted from 1.
pub struct Openings {
    /// The newest row in which an opening failed, by server and fault.
    pub refused: NumberTable<u64>,
    /// By request.
    pub begun: NumberTable<Newest<Begun>>,
    /// How many rows are done.
    pub rows: u64,
}

impl Drop for Openings {
    fn drop(self) {
        let Openings {
            refused: _,
            begun: _,
            rows: _,
        } = self;
    }
}

fn begin(
    begun: &mut NumberTable<Newest<Begun>>,
    alloc: Global,
    row: u64,
    out: &Out,
) -> Result<(), NoMemory>
    ensures { OnOk result (begun.new ≡ plain.begins out.now row begun.old) }
{
    match out {
        Out::Start {
            request,
            server,
            via: Via::Dgram,
        } => add(
            begun,
            alloc,
            *request,
            Begun {
                server: *server,
                row,
            },
        ),
        _ => Ok(()),
    }
}

fn begin_all(
    begun: &mut NumberTable<Newest<Begun>>,
    alloc: Global,
    row: u64,
    outs: &[Out],
) -> Result<(), NoMemory>
    ensures { OnOk result (begun.new ≡ plain.begin_all outs.now row begun.old) }
{
    for out in outs {
        begin(begun, alloc, row, out)?;
    }
    Ok(())
}

/// Whether a place was opening before the row, or the row itself opened it and it failed.
fn was_opening(past: &NumberTable<Place>, number: u64, here: Stand) -> bool
    ensures { result ≡ was_opening (entry_at number past.now) here }
{
    match past.get(number) {
        None => matches!(here, Stand::Gone),
        Some(place) => matches!(place.stand, Stand::Opening),
    }
}

/// The server of a datagram place that failed to open in a row, and the fault.
fn refused_by(past: &NumberTable<Place>, here: &NumberTable<Place>, what: &What) -> Option<Refused>
    ensures { result ≡ plain.refused_by past.now here.now what.now }
{
    let What::OpenFailed {
        place: number,
        fault,
    } = what
    else {
        return None;
    };
    let place = here.get(*number)?;
    if was_opening(past, *number, place.stand) && matches!(place.via, Via::Dgram) {
        Some(Refused {
            server: place.server,
            fault: *fault,
        })
    } else {
        None
    }
}

/// The number of a fault.
fn number_of(fault: Fault) -> u64
    ensures value { result ≡ plain.number_of fault }
    ensures below { result < 16 }
{
    match fault {
        Fault::Refused => 0,
        Fault::Reset => 1,
        Fault::Unreachable => 2,
        Fault::InUse => 3,
        Fault::Broken => 4,
        Fault::Other => 5,
        Fault::Expired => 6,
        Fault::ShortSend => 7,
        Fault::NothingTaken => 8,
        Fault::EndOfData => 9,
    }
}

/// A server and a fault, as one number.
fn key_of(server: u32, fault: Fault) -> u64
    ensures { result ≡ plain.key_of server fault }
{
    u64::from(server) * 16 + number_of(fault)
}

fn refuse(table: &mut NumberTable<u64>, row: u64, refused: Option<Refused>) -> Result<(), NoMemory>
    ensures { OnOk result (table.new ≡ plain.refuses row refused table.old) }
{
    let Some(refused) = refused else {
        return Ok(());
    };
    match table.insert(key_of(refused.server, refused.fault), row) {
        Ok(_) => Ok(()),
        Err(_) => Err(NoMemory),
    }
}

/// Whether an opening failed at a server with a fault in a row or later.
fn is_refused_since(refused: &NumberTable<u64>, server: u32, fault: Fault, row: u64) -> bool
    ensures { Tells (plain.IsSince row (entry_at (plain.key_of server fault) refused.now)) result }
{
    match refused.get(key_of(server, fault)) {
        None => false,
        Some(last) => row <= *last,
    }
}

fn is_refused_among(refused: &NumberTable<u64>, begun: &Newest<Begun>, fault: Fault) -> bool
    ensures { Tells (plain.IsRefusedAmong fault refused.now begun.now) result }
{
    for start in begun {
        if is_refused_since(refused, start.server, fault, start.row) {
            return true;
        }
    }
    false
}

impl Openings {
    /// Before the first row.
    pub fn new(alloc: Global) -> Openings
        ensures { result ≡ plain.nothing }
    {
        Openings {
            refused: NumberTable::new(alloc),
            begun: NumberTable::new(alloc),
            rows: 0,
        }
    }

    /// A row is done: what was known of places before it, and what is known behind it.
    pub fn take(
        &mut self,
        alloc: Global,
        past: &NumberTable<Place>,
        here: &NumberTable<Place>,
        row: &Row,
    ) -> Result<(), NoMemory>
        ensures { OnOk result (self.new ≡ plain.after_row past.now here.now row.now self.old) }
    {
        let Some(rows) = self.rows.checked_add(1) else {
            return Err(NoMemory);
        };
        begin_all(&mut self.begun, alloc, rows, row.outs.as_slice())?;
        let refused = refused_by(past, here, &row.event.what);
        refuse(&mut self.refused, rows, refused)?;
        self.rows = rows;
        Ok(())
    }

    /// Whether an opening failed with a fault at a server that had the request by then, in a row that is done.
    pub fn is_refused(&self, request: u64, fault: Fault) -> bool
        ensures { Tells (plain.IsRefused request fault self.now) result }
    {
        match self.begun.get(request) {
            None => false,
            Some(begun) => is_refused_among(&self.refused, begun, fault),
        }
    }
}
