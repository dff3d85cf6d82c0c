//! Rows of a trace, judged one by one.

ghost use Rattle.std.specs.Prelude.{◌≡◌, IfOk, OnOk};
ghost use Rattle.trace_judge.specs.Judge as plain;

use crate::case::Case;
use crate::course::Course;
use crate::outs::Kept;
use crate::past::Past;
use crate::rules::Rules;
use crate::verdict::Clause;
use client_request::{Event, Row};
use dns_base::{NoMemory, Seq};
use std::alloc::Global;
use trace_errors::promptness::is_prompt;
use trace_points::events::is_same_event;
use trace_points::exchanges::{Coming, find_coming};

/// What is known of the rows that are done, and within one.
pub struct Judge {
    pub past: Past,
    pub course: Course,
}

impl Drop for Judge {
    fn drop(self) {
        let Judge { past: _, course: _ } = self;
    }
}

/// The first clause that a row does not keep, by those that its outs and its end keep, and whether it is prompt.
fn first_broken(kept: Kept, prompt: bool) -> Option<Clause>
    ensures { result ≡ plain.first_broken kept prompt }
{
    if !kept.messages {
        Some(Clause::Messages)
    } else if !kept.firsts {
        Some(Clause::Firsts)
    } else if !kept.causes {
        Some(Clause::Causes)
    } else if !kept.orders {
        Some(Clause::Orders)
    } else if !prompt {
        Some(Clause::Prompts)
    } else {
        None
    }
}

impl Judge {
    /// Before the first row.
    pub(crate) fn new(alloc: Global, rules: &Rules) -> Judge
        ensures { plain.IsBegun rules.now result }
    {
        Judge {
            past: Past::new(alloc),
            course: Course::new(alloc, rules.defers_nothing),
        }
    }

    /// All messages that came in a row, by what is known within it.
    fn comings(&self, alloc: Global, rules: &Rules) -> Result<Seq<Coming>, NoMemory>
        ensures { IfOk result (plain.TellsComing rules.now self.now) }
    {
        let past = &self.past.pass;
        find_coming(
            alloc,
            &rules.conf,
            None,
            &past.ledger.books,
            &past.sends,
            &self.course.here.pass.ledger,
        )
    }

    /// The outs of a row are judged and put: which clauses they keep.
    fn run(&mut self, alloc: Global, rules: &Rules, row: &Row) -> Result<Kept, NoMemory>
        ensures { IfOk result (plain.Runs rules.now row.now self.old self.new) }
    {
        self.course.begin(&rules.conf, &row.event)?;
        let comings = self.comings(alloc, rules)?;
        let case = Case {
            rules,
            past: &self.past,
            row,
            comings: comings.as_slice(),
        };
        self.course.run(alloc, &case, row.outs.as_slice())
    }

    /// Whether a row whose outs are put is prompt.
    fn is_prompt(&self, rules: &Rules, row: &Row, comings: &[Coming]) -> Result<bool, NoMemory>
        ensures { IfOk result (plain.TellsPrompt rules.now row.now comings.now self.now) }
    {
        let past = &self.past.pass;
        is_prompt(
            &rules.conf,
            rules.settings.trace(),
            &past.ledger,
            &past.timers,
            &self.past.heard,
            &self.course.here.pass.ledger,
            &self.course.made,
            row,
            comings,
        )
    }

    /// The row is done, and what was known before it goes over it.
    fn end(&mut self, rules: &Rules, row: &Row, comings: &[Coming]) -> Result<(), NoMemory>
        ensures { OnOk result (plain.Ends rules.now row.now comings.now self.old self.new) }
    {
        self.past.take(
            &rules.conf,
            rules.settings.trace(),
            row,
            &self.course.here.pass.ledger,
            &self.course.made,
            comings,
        )
    }

    /// A row is judged, and goes by: the first clause that it does not keep, its event not asked. After a row that does not keep
    /// all, and after `NoMemory`, the judge is of no use any more.
    fn judge(&mut self, alloc: Global, rules: &Rules, row: &Row) -> Result<Option<Clause>, NoMemory>
        ensures { IfOk result (plain.Judges rules.now row.now.event row.now self.old self.new) }
    {
        let kept = self.run(alloc, rules, row)?;
        let kept = self
            .course
            .kept_at_end(alloc, rules, row.outs.as_slice(), kept)?;
        let comings = self.comings(alloc, rules)?;
        let prompt = self.is_prompt(rules, row, comings.as_slice())?;
        self.end(rules, row, comings.as_slice())?;
        Ok(first_broken(kept, prompt))
    }

    /// The same, with the event that the script has there.
    pub(crate) fn judge_row(
        &mut self,
        alloc: Global,
        rules: &Rules,
        event: &Event,
        row: &Row,
    ) -> Result<Option<Clause>, NoMemory>
        ensures { IfOk result (plain.Judges rules.now event.now row.now self.old self.new) }
    {
        if !is_same_event(&row.event, event) {
            return Ok(Some(Clause::Events));
        }
        self.judge(alloc, rules, row)
    }
}
