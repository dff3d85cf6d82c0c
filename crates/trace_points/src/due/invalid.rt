//! Servers that an invalid request was handed to.

ghost use Rattle.std.specs.Prelude.{◌≡◌, OnOk};
ghost use Rattle.number_table.specs.Entries.{entry_at, puts};
ghost use Rattle.trace_points.specs.due.Invalid as plain;

use client_request::{Out, Via};
use dns_base::NoMemory;
use message_judging::validity::RequestValidity;
use number_table::NumberTable;
use std::alloc::Global;
use trace_tables::Asked;

/// By server, each with nothing: those that an invalid request was handed to.
pub struct Invalid {
    pub datagrams: NumberTable<()>,
    pub streams: NumberTable<()>,
}

impl Drop for Invalid {
    fn drop(self) {
        let Invalid {
            datagrams: _,
            streams: _,
        } = self;
    }
}

fn note(servers: &mut NumberTable<()>, server: u32) -> Result<(), NoMemory>
    ensures { OnOk result (servers.new ≡ puts server tt servers.old) }
{
    if servers.insert(u64::from(server), ()).is_err() {
        return Err(NoMemory);
    }
    Ok(())
}

impl Invalid {
    /// Before the first row.
    pub fn new(alloc: Global) -> Invalid
        ensures { result ≡ plain.nothing }
    {
        Invalid {
            datagrams: NumberTable::new(alloc),
            streams: NumberTable::new(alloc),
        }
    }

    /// A request is handed to a server so.
    fn start(
        &mut self,
        askings: &NumberTable<Asked>,
        request: u64,
        server: u32,
        via: Via,
    ) -> Result<(), NoMemory>
        ensures { OnOk result (self.new ≡ plain.starts via server (entry_at request askings.now) self.old) }
    {
        let Some(asked) = askings.get(request) else {
            return Ok(());
        };
        if RequestValidity::of(&asked.request).is_valid {
            return Ok(());
        }
        match via {
            Via::Dgram => note(&mut self.datagrams, server),
            Via::Stream => note(&mut self.streams, server),
        }
    }

    /// An out is put, over what was asked.
    pub fn put(&mut self, askings: &NumberTable<Asked>, out: &Out) -> Result<(), NoMemory>
        ensures { OnOk result (self.new ≡ plain.has_put out.now askings.now self.old) }
    {
        match out {
            Out::Start {
                request,
                server,
                via,
            } => self.start(askings, *request, *server, *via),
            _ => Ok(()),
        }
    }

    /// Whether an invalid request was handed to a server so.
    pub fn is_at(&self, via: Via, server: u32) -> bool
        ensures { result ≡ plain.invalid_seen via server self.now }
    {
        match via {
            Via::Dgram => self.datagrams.contains_key(u64::from(server)),
            Via::Stream => self.streams.contains_key(u64::from(server)),
        }
    }
}
