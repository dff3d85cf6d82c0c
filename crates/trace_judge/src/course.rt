//! The outs of a row, judged one by one where they are put, and the row's end.

ghost use Rattle.std.specs.Prelude.{◌≡◌, true, IfOk, OnOk};
ghost use Rattle.trace_judge.specs.Course as plain;

use crate::case::{Case, Mark};
use crate::failures::{either, holds};
use crate::outs::{Kept, Said, judge};
use crate::rules::Rules;
use crate::tables::Tables;
use client_request::{Event, Out};
use dns_base::NoMemory;
use std::alloc::Global;
use trace_outs::busy::Scene;
use trace_points::questions::{TraceConf, has_one_fault_at_most, marks_stand};
use trace_replies::given::Earliers;
use trace_tables::frames::Here;

/// What is known at a point within a row, or behind one.
pub struct Course {
    pub here: Tables,
    /// What replies so far gave.
    pub replies: Earliers,
    /// What the row's outs so far made of places.
    pub made: Here,
    /// The mark that was put last.
    pub mark: Option<Mark>,
}

impl Drop for Course {
    fn drop(self) {
        let Course {
            here: _,
            replies: _,
            made: _,
            mark: _,
        } = self;
    }
}

/// What is kept where each of two parts keeps it.
fn both(a: Kept, b: Kept) -> Kept
    ensures { result ≡ plain.both a b }
{
    Kept {
        messages: a.messages && b.messages,
        firsts: a.firsts && b.firsts,
        causes: a.causes && b.causes,
        orders: a.orders && b.orders,
    }
}

impl Course {
    /// Before the first row. It is said whether nothing is deferred.
    pub(crate) fn new(alloc: Global, exact: bool) -> Course
        ensures { plain.IsBegun exact result }
    {
        Course {
            here: Tables::new(alloc, exact),
            replies: Earliers::new(alloc),
            made: Here::new(alloc),
            mark: None,
        }
    }

    /// A row begins: its event comes.
    pub(crate) fn begin(&mut self, conf: &TraceConf, event: &Event) -> Result<(), NoMemory>
        ensures { OnOk result (plain.Begins conf.now event.now self.old self.new) }
    {
        self.here.meet(conf, event)?;
        self.made.begin();
        self.mark = None;
        Ok(())
    }

    /// What a reply gave is kept for later ones.
    fn keep(&mut self, alloc: Global, out: &Out) -> Result<(), NoMemory>
        ensures { OnOk result (plain.KeepsGiven out.now true self.old self.new) }
    {
        match out {
            Out::Reply { request, result } => {
                let requests = &self.here.pass.ledger.books.requests;
                self.replies.put(alloc, requests, *request, result)
            }
            _ => Ok(()),
        }
    }

    /// The same of an out that gave something or not.
    fn keep_if(&mut self, alloc: Global, out: &Out, given: bool) -> Result<(), NoMemory>
        ensures { OnOk result (plain.KeepsGiven out.now given self.old self.new) }
    {
        if given { self.keep(alloc, out) } else { Ok(()) }
    }

    /// An out is put, of which this is said.
    fn put(&mut self, alloc: Global, case: &Case<'_>, out: &Out, said: Said) -> Result<(), NoMemory>
        ensures { OnOk result (plain.Puts case.now out.now said self.old self.new) }
    {
        self.keep_if(alloc, out, said.given)?;
        self.made.put(&case.past.pass.ledger.books.places, out)?;
        self.here
            .put(&case.rules.conf, &case.row.event.what, out, said.is_bad)?;
        self.mark = said.mark;
        Ok(())
    }

    /// An out is judged, and put: which clauses it keeps.
    fn step(&mut self, alloc: Global, case: &Case<'_>, out: &Out) -> Result<Kept, NoMemory>
        ensures { IfOk result (plain.StepsTo case.now out.now self.old self.new) }
    {
        let said = judge(alloc, case, self, out)?;
        self.put(alloc, case, out, said)?;
        Ok(said.kept)
    }

    /// Outs are judged and put: which clauses all of them keep.
    pub(crate) fn run(
        &mut self,
        alloc: Global,
        case: &Case<'_>,
        outs: &[Out],
    ) -> Result<Kept, NoMemory>
        ensures { IfOk result (plain.Runs case.now outs.now self.old self.new) }
    {
        let mut kept = Kept {
            messages: true,
            firsts: true,
            causes: true,
            orders: true,
        };
        for out in outs {
            let its = self.step(alloc, case, out)?;
            kept = both(kept, its);
        }
        Ok(kept)
    }
}

impl Course {
    /// Whether each valid request that waits is busy.
    fn all_busy(&self, alloc: Global, rules: &Rules) -> Result<bool, NoMemory>
        ensures { IfOk result (plain.TellsAllBusy rules.now self.now) }
    {
        let pass = &self.here.pass;
        let scene = Scene {
            conf: &rules.conf,
            servers: &rules.servers,
            ledger: &pass.ledger,
            sends: &pass.sends,
            writing: &pass.timers.writing,
            loads: &self.here.loads,
            waits: &self.here.waits,
            backs: &self.here.backs,
        };
        scene.are_waiting_busy(alloc)
    }

    /// The same where there is a server.
    fn are_waiting_busy(&self, alloc: Global, rules: &Rules) -> Result<bool, NoMemory>
        ensures { IfOk result (plain.TellsBusy rules.now self.now) }
    {
        if rules.servers.is_empty() {
            return Ok(true);
        }
        self.all_busy(alloc, rules)
    }

    /// Which clauses a row keeps whose outs, which keep these, are put.
    pub(crate) fn kept_at_end(
        &self,
        alloc: Global,
        rules: &Rules,
        outs: &[Out],
        kept: Kept,
    ) -> Result<Kept, NoMemory>
        ensures { IfOk result (plain.TellsEnd rules.now self.now outs.now kept) }
    {
        let busy = self.are_waiting_busy(alloc, rules)?;
        let met = self.here.loads.are_met();
        let stand = marks_stand(outs);
        let few = has_one_fault_at_most(outs);
        let allowed = either(!rules.defers_nothing, few);
        let causes = holds(kept.causes, allowed);
        let places = holds(met, stand);
        let orderly = holds(busy, places);
        let orders = holds(kept.orders, orderly);
        Ok(Kept {
            messages: kept.messages,
            firsts: kept.firsts,
            causes,
            orders,
        })
    }
}
