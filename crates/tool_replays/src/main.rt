//! Replays one script after another, or judges traces by it. A tool for tables of scripts.
//!
//! A line `script NAME` begins a script, which goes on to the next such line, or to the end. For each script that line is
//! printed, and behind it what `dnsq replay` writes for the script, and a line `status N` with its exit status.
//!
//! A line `judge SCRIPT TRACE SINK WORDS` ends a script, which is not replayed then, and begins a trace. The first three are the
//! numbers of the calls that fail, or `-`. That line is printed, what `trace_audit WORDS` writes of both, and its exit status.
//! More such lines judge more traces by the same script. A line that begins with `#` is passed over.
#![tactic(auto)]

mod fault;
mod judging;
mod replaying;
mod table;

use fault::TableFault;
use table::Table;

fn main(rt: HostRuntime) -> Result<(), TableFault> {
    let mut table = Table::new(rt.alloc());
    for line in rt.lines(rt.alloc()) {
        let line = line?;
        table.take(&rt, line.as_str())?;
    }
    table.print(&rt)
}
