//! Which valid requests wait, where requests were sent or written, and whether what was sent or written so carries them.

ghost use Rattle.std.specs.Prelude.{◌≡◌, OnOk};
ghost use Rattle.number_table.specs.Entries.{frees};
ghost use Rattle.trace_outs.specs.busy.Waits as plain;

use client_request::{Out, RequestMessage, Via, What};
use dns_base::{NoMemory, Octets};
use message_judging::matching::carries;
use message_judging::validity::RequestValidity;
use number_table::NumberTable;
use std::alloc::Global;
use trace_points::questions::TraceConf;
use trace_tables::sets::Members;
use trace_tables::{Newest, Requests, add};

/// Where a request was sent or written, and under which id.
#[derive(Clone, Copy, Debug, Drop)]
pub struct Spot {
    pub place: u64,
    pub id: u16,
}

/// Octets as which a request was sent or written under an id once it was asked, and whether they carry it. It is noted so that it
/// need not be found again behind each row for which the request waits.
pub struct Carried {
    pub via: Via,
    pub id: u16,
    pub octets: Octets,
    pub carries: bool,
}

impl Drop for Carried {
    fn drop(self) {
        let Carried {
            via: _,
            id: _,
            octets: _,
            carries: _,
        } = self;
    }
}

/// What is known of requests that wait.
pub struct Waits {
    /// The valid requests that have no reply.
    pub requests: Members,
    /// By request.
    pub spots: NumberTable<Newest<Spot>>,
    /// By request.
    pub carried: NumberTable<Newest<Carried>>,
}

impl Drop for Waits {
    fn drop(self) {
        let Waits {
            requests: _,
            spots: _,
            carried: _,
        } = self;
    }
}

/// A request joins, if it waits.
fn join(requests: &mut Members, request: u64, waits: bool) -> Result<(), NoMemory>
    ensures { OnOk result (requests.new ≡ plain.joined waits request requests.old) }
{
    if waits && requests.insert(request, ()).is_err() {
        return Err(NoMemory);
    }
    Ok(())
}

fn take_out(requests: &mut Members, request: u64)
    ensures { requests.new ≡ frees request requests.old }
{
    requests.remove(request);
}

impl Waits {
    /// Before the first row.
    pub fn new(alloc: Global) -> Waits
        ensures { result ≡ plain.nothing }
    {
        Waits {
            requests: NumberTable::new(alloc),
            spots: NumberTable::new(alloc),
            carried: NumberTable::new(alloc),
        }
    }

    /// A request is asked, as the next of these.
    fn ask(&mut self, requests: &Requests, request: &RequestMessage) -> Result<(), NoMemory>
        ensures { OnOk result (self.new ≡ plain.is_asked request.now requests.now self.old) }
    {
        let number = requests.asked;
        let waits = RequestValidity::of(request).is_valid && !requests.is_replied(number);
        join(&mut self.requests, number, waits)
    }

    /// An event comes, over the requests as they were.
    pub fn meet(&mut self, requests: &Requests, what: &What) -> Result<(), NoMemory>
        ensures { OnOk result (self.new ≡ plain.met what.now requests.now self.old) }
    {
        match what {
            What::Ask { request } => self.ask(requests, request),
            _ => Ok(()),
        }
    }

    /// A request is sent or written somewhere.
    fn go_to(&mut self, alloc: Global, request: u64, place: u64, id: u16) -> Result<(), NoMemory>
        ensures { OnOk result (self.new ≡ plain.goes_to request place id self.old) }
    {
        add(&mut self.spots, alloc, request, Spot { place, id })
    }

    /// What a request is sent or written as is noted, if it was asked.
    fn note(
        &mut self,
        conf: &TraceConf,
        requests: &Requests,
        via: Via,
        request: u64,
        id: u16,
        octets: &Octets,
    ) -> Result<(), NoMemory>
        ensures { OnOk result (self.new ≡ plain.notes conf.now via request id octets.now requests.now self.old) }
    {
        let Some(asked) = requests.askings.get(request) else {
            return Ok(());
        };
        let noted = Carried {
            via,
            id,
            octets: octets.try_clone()?,
            carries: carries(
                conf.alloc(),
                conf.udp_payload_size(),
                via,
                octets,
                &asked.request,
                id,
            )?,
        };
        add(&mut self.carried, conf.alloc(), request, noted)
    }

    /// An out is put, over the requests as they were.
    pub fn put(&mut self, conf: &TraceConf, requests: &Requests, out: &Out) -> Result<(), NoMemory>
        ensures { OnOk result (self.new ≡ plain.has_put conf.now out.now requests.now self.old) }
    {
        match out {
            Out::Send {
                place,
                request,
                id,
                octets,
            } => {
                self.note(conf, requests, Via::Dgram, *request, *id, octets)?;
                self.go_to(conf.alloc(), *request, *place, *id)
            }
            Out::Write {
                place,
                request,
                id,
                octets,
            } => {
                self.note(conf, requests, Via::Stream, *request, *id, octets)?;
                self.go_to(conf.alloc(), *request, *place, *id)
            }
            Out::Reply { request, .. } => {
                take_out(&mut self.requests, *request);
                Ok(())
            }
            _ => Ok(()),
        }
    }
}
