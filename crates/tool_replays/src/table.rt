//! What was read of a table of scripts and traces.

use crate::fault::TableFault;
use crate::judging::judged;
use crate::replaying::print_replay;
use std::alloc::{AllocFailed, Global};

pub struct Table {
    /// The line of what is to be done: empty, of a script, or of a trace.
    call: String,
    script: String,
    trace: String,
}

impl Drop for Table {
    fn drop(self) {
        let Table {
            call: _,
            script: _,
            trace: _,
        } = self;
    }
}

impl Table {
    pub fn new(alloc: Global) -> Table {
        Table {
            call: String::new(alloc),
            script: String::new(alloc),
            trace: String::new(alloc),
        }
    }

    fn is_judged(&self) -> bool {
        self.call.as_str().starts_with("judge ")
    }

    fn push(&mut self, line: &str) -> Result<(), TableFault> {
        let text = if self.is_judged() {
            &mut self.trace
        } else {
            &mut self.script
        };
        text.push_str(line)?;
        Ok(text.push_str("\n")?)
    }

    /// Prints what comes of a script, or of it and a trace.
    pub fn print(&self, rt: &HostRuntime) -> Result<(), TableFault> {
        let script = self.script.as_str();
        if self.is_judged() {
            let text = judged(rt.alloc(), self.call.as_str(), script, self.trace.as_str());
            return Ok(print!(rt; "{}", text.ok_or(TableFault::NoMemory)?)?);
        }
        if self.call.is_empty() {
            return Ok(());
        }
        print_replay(rt, script)
    }

    fn begin(&mut self, rt: &HostRuntime, line: &str) -> Result<(), TableFault> {
        println!(rt; "{line}")?;
        self.call.clear();
        self.trace.clear();
        Ok(self.call.push_str(line)?)
    }

    pub fn take(&mut self, rt: &HostRuntime, line: &str) -> Result<(), TableFault> {
        if line.starts_with("#") {
            return Ok(());
        }
        if line.starts_with("script ") {
            self.print(rt)?;
            self.script.clear();
            return self.begin(rt, line);
        }
        if line.starts_with("judge ") {
            if self.is_judged() {
                self.print(rt)?;
            }
            return self.begin(rt, line);
        }
        self.push(line)
    }
}
