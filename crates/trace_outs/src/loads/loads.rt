//! Which places of each server are live, and which requests wait there by datagram.

ghost use Rattle.std.specs.Prelude.{◌≡◌, OnOk, option_copied};
ghost use Rattle.number_table.specs.Entries.{entry_at};
ghost use Rattle.trace_tables.specs.Lists.{listed};
ghost use Rattle.trace_tables.specs.Tables.{begun_stand};
ghost use Rattle.trace_outs.specs.loads.Loads as plain;

use client_request::{Out, Via, What};
use dns_base::NoMemory;
use number_table::NumberTable;
use std::alloc::Global;
use trace_points::questions::TraceConf;
use trace_tables::sets::{Members, Sets, count, join, leave};
use trace_tables::{Books, Newest, Place, Requests, Stand, Started};

/// What is known of servers.
pub struct Loads {
    /// The live datagram places of each.
    pub dgrams: Sets,
    /// The live stream places of each.
    pub streams: Sets,
    /// The requests that wait at each by datagram, and not by stream.
    pub demand: Sets,
    /// The servers that have more datagram places than they may, or fewer where they must not.
    pub unmet: Members,
    /// Whether nothing is deferred, so that there must be just so many.
    pub exact: bool,
}

impl Drop for Loads {
    fn drop(self) {
        let Loads {
            dgrams: _,
            streams: _,
            demand: _,
            unmet: _,
            exact: _,
        } = self;
    }
}

/// Whether so many live datagram places are right for so many requests.
fn are_met(conf: &TraceConf, exact: bool, places: usize, requests: usize) -> bool
    ensures { result ≡ plain.are_met conf.now exact places requests }
{
    let most = requests.min(conf.max_places());
    places <= most && (!exact || places == most)
}

/// A server is noted where it is not met.
fn note(servers: &mut Members, server: u32, is_met: bool) -> Result<(), NoMemory>
    ensures { OnOk result (servers.new ≡ plain.noted server is_met servers.old) }
{
    if is_met {
        servers.remove(u64::from(server));
        return Ok(());
    }
    if servers.insert(u64::from(server), ()).is_err() {
        return Err(NoMemory);
    }
    Ok(())
}

/// How a place stands that is opened in a row with this event.
fn begun(what: &What, number: u64) -> Stand
    ensures { result ≡ begun_stand what.now number }
{
    match what {
        What::Opened { place } => {
            if *place == number {
                Stand::Alive
            } else {
                Stand::Opening
            }
        }
        What::OpenFailed { place, .. } => {
            if *place == number {
                Stand::Gone
            } else {
                Stand::Opening
            }
        }
        _ => Stand::Opening,
    }
}

/// Whether a request was asked and has no reply.
fn waits(requests: &Requests, request: u64) -> bool
    ensures { result ≡ plain.waits_seen request requests.now }
{
    requests.askings.contains_key(request) && !requests.is_replied(request)
}

impl Loads {
    /// Before the first row.
    pub fn new(alloc: Global, exact: bool) -> Loads
        ensures { result ≡ plain.nothing exact }
    {
        Loads {
            dgrams: NumberTable::new(alloc),
            streams: NumberTable::new(alloc),
            demand: NumberTable::new(alloc),
            unmet: NumberTable::new(alloc),
            exact,
        }
    }

    /// A server is asked anew.
    fn check(&mut self, conf: &TraceConf, server: u32) -> Result<(), NoMemory>
        ensures { OnOk result (self.new ≡ plain.checks conf.now server self.old) }
    {
        let key = u64::from(server);
        let is_met = are_met(
            conf,
            self.exact,
            count(&self.dgrams, key),
            count(&self.demand, key),
        );
        note(&mut self.unmet, server, is_met)
    }

    /// A live place is there.
    fn give(&mut self, conf: &TraceConf, via: Via, server: u32, place: u64) -> Result<(), NoMemory>
        ensures { OnOk result (self.new ≡ plain.gives conf.now via server place self.old) }
    {
        match via {
            Via::Dgram => {
                join(&mut self.dgrams, conf.alloc(), u64::from(server), place)?;
                self.check(conf, server)
            }
            Via::Stream => join(&mut self.streams, conf.alloc(), u64::from(server), place),
        }
    }

    /// A place is live no more.
    fn take(&mut self, conf: &TraceConf, via: Via, server: u32, place: u64) -> Result<(), NoMemory>
        ensures { OnOk result (self.new ≡ plain.takes conf.now via server place self.old) }
    {
        match via {
            Via::Dgram => {
                leave(&mut self.dgrams, conf.alloc(), u64::from(server), place)?;
                self.check(conf, server)
            }
            Via::Stream => leave(&mut self.streams, conf.alloc(), u64::from(server), place),
        }
    }

    /// A request waits at a server.
    fn wait_at(&mut self, conf: &TraceConf, server: u32, request: u64) -> Result<(), NoMemory>
        ensures { OnOk result (self.new ≡ plain.waits_at conf.now server request self.old) }
    {
        join(&mut self.demand, conf.alloc(), u64::from(server), request)?;
        self.check(conf, server)
    }

    /// A request waits there no more.
    fn go_from(&mut self, conf: &TraceConf, server: u32, request: u64) -> Result<(), NoMemory>
        ensures { OnOk result (self.new ≡ plain.goes_from conf.now server request self.old) }
    {
        leave(&mut self.demand, conf.alloc(), u64::from(server), request)?;
        self.check(conf, server)
    }

    /// A request waits at none of these servers any more.
    fn go_from_all(
        &mut self,
        conf: &TraceConf,
        request: u64,
        starts: &Newest<Started>,
    ) -> Result<(), NoMemory>
        ensures { OnOk result (self.new ≡ plain.goes_from_all conf.now request starts.now self.old) }
    {
        for start in starts {
            self.go_from(conf, start.server, request)?;
        }
        Ok(())
    }

    /// A place that opens fails.
    fn fail(&mut self, conf: &TraceConf, place: Option<&Place>, number: u64) -> Result<(), NoMemory>
        ensures { OnOk result (self.new ≡ plain.fails conf.now number (option_copied place.entry) self.old) }
    {
        let Some(place) = place else {
            return Ok(());
        };
        match place.stand {
            Stand::Opening => self.take(conf, place.via, place.server, number),
            _ => Ok(()),
        }
    }

    /// A place is closed.
    fn close(
        &mut self,
        conf: &TraceConf,
        place: Option<&Place>,
        number: u64,
    ) -> Result<(), NoMemory>
        ensures { OnOk result (self.new ≡ plain.closes conf.now number (option_copied place.entry) self.old) }
    {
        match place {
            None => Ok(()),
            Some(place) => self.take(conf, place.via, place.server, number),
        }
    }

    /// A place is opened, if it was not opened before.
    fn open(
        &mut self,
        conf: &TraceConf,
        places: &NumberTable<Place>,
        what: &What,
        via: Via,
        server: u32,
        number: u64,
    ) -> Result<(), NoMemory>
        ensures { OnOk result (self.new ≡ plain.opens conf.now what.now via server number (entry_at number places.now) self.old) }
    {
        if places.contains_key(number) {
            return Ok(());
        }
        match begun(what, number) {
            Stand::Gone => Ok(()),
            _ => self.give(conf, via, server, number),
        }
    }

    /// A request is handed to a server.
    fn start(
        &mut self,
        conf: &TraceConf,
        requests: &Requests,
        request: u64,
        server: u32,
        via: Via,
    ) -> Result<(), NoMemory>
        ensures { OnOk result (self.new ≡ plain.starts conf.now request server via requests.now self.old) }
    {
        match via {
            Via::Dgram => {
                if waits(requests, request) && !requests.is_started(request, server, Via::Stream) {
                    self.wait_at(conf, server, request)
                } else {
                    Ok(())
                }
            }
            Via::Stream => self.go_from(conf, server, request),
        }
    }

    /// An event comes, over the places as they were.
    pub fn meet(
        &mut self,
        conf: &TraceConf,
        places: &NumberTable<Place>,
        what: &What,
    ) -> Result<(), NoMemory>
        ensures { OnOk result (self.new ≡ plain.met conf.now what.now places.now self.old) }
    {
        match what {
            What::OpenFailed { place, .. } => self.fail(conf, places.get(*place), *place),
            _ => Ok(()),
        }
    }

    /// A request has a reply.
    fn reply(&mut self, conf: &TraceConf, requests: &Requests, request: u64) -> Result<(), NoMemory>
        ensures { OnOk result (self.new ≡ plain.goes_from_all conf.now request (listed request requests.now.starts) self.old) }
    {
        match requests.starts.get(request) {
            None => Ok(()),
            Some(starts) => self.go_from_all(conf, request, starts),
        }
    }

    /// An out is put, over the books as they were, in a row with this event.
    pub fn put(
        &mut self,
        conf: &TraceConf,
        books: &Books,
        what: &What,
        out: &Out,
    ) -> Result<(), NoMemory>
        ensures { OnOk result (self.new ≡ plain.has_put conf.now what.now out.now books.now self.old) }
    {
        match out {
            Out::OpenDgram { place, server } => {
                self.open(conf, &books.places, what, Via::Dgram, *server, *place)
            }
            Out::OpenStream { place, server } => {
                self.open(conf, &books.places, what, Via::Stream, *server, *place)
            }
            Out::Close { place } => self.close(conf, books.places.get(*place), *place),
            Out::Start {
                request,
                server,
                via,
            } => self.start(conf, &books.requests, *request, *server, *via),
            Out::Reply { request, .. } => self.reply(conf, &books.requests, *request),
            _ => Ok(()),
        }
    }

    /// Whether at most as many datagram places of each server are live as requests wait there, and at most as many as are set;
    /// just so many where nothing is deferred.
    pub fn are_met(&self) -> bool
        ensures value { result ≡ plain.are_all_met self.now }
        ensures told { plain.TellsMet self.now result }
    {
        self.unmet.is_empty()
    }
}
