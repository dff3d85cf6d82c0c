//! Whether a trace is timely by its script.

ghost use Rattle.std.specs.Prelude.{◌≡◌, ◌↔◌, [], None, IfOk};
ghost use Rattle.right_trace.specs.Timely.{Timely};
ghost use Rattle.trace_judge.specs.script.Judged.{conf_of};
ghost use Rattle.trace_hits.specs.timely.Timely.{IsUntimely};

use client_request::Trace;
use dns_base::NoMemory;
use dns_script::Script;
use std::alloc::Global;
use trace_hits::timely::first_untimely;

/// The first row of a trace at whose end a request waits past the timeout that its script says, counted from 0; none exactly where
/// each request has its reply in the first row at or past its timeout, or before.
pub fn audit_timely(alloc: Global, script: &Script, trace: &Trace) -> Result<Option<u64>, NoMemory>
    ensures first { IfOk result (λ row. IsUntimely row (conf_of script.now.conf script.now.transports) [] trace.now.rows) }
    ensures timely { IfOk result (λ row. (row ≡ None) ↔ Timely (conf_of script.now.conf script.now.transports) trace.now.rows) }
{
    first_untimely(alloc, script.conf.options.timeout, trace.rows.as_slice())
}
