//! Where a request was sent or written.

ghost use Rattle.std.specs.Prelude.{◌≡◌, OnOk};
ghost use Rattle.trace_errors.specs.owed.Exchanged as plain;

use client_request::Out;
use dns_base::NoMemory;
use number_table::NumberTable;
use std::alloc::Global;
use trace_tables::{Newest, add};

/// A place where a request was sent or written, and its id there.
#[derive(Clone, Copy, Debug, Drop)]
pub struct Exchange {
    pub place: u64,
    pub id: u16,
}

/// The exchanges, by request.
pub type Exchanged = NumberTable<Newest<Exchange>>;

/// An out is put.
pub fn put_exchange(exchanged: &mut Exchanged, alloc: Global, out: &Out) -> Result<(), NoMemory>
    ensures { OnOk result (exchanged.new ≡ plain.has_put out.now exchanged.old) }
{
    match out {
        Out::Send {
            place,
            request,
            id,
            ..
        } => add(
            exchanged,
            alloc,
            *request,
            Exchange {
                place: *place,
                id: *id,
            },
        ),
        Out::Write {
            place,
            request,
            id,
            ..
        } => add(
            exchanged,
            alloc,
            *request,
            Exchange {
                place: *place,
                id: *id,
            },
        ),
        _ => Ok(()),
    }
}
