//! Prints what is read of texts, one a line of standard input, each led by a word that says what it is: a name, an address,
//! a message in hexadecimal digits, a trace, a script, a configuration, or calls of a library. A line that begins with `#`, or
//! is empty, prints nothing; a line that can't be answered prints `unknown`. A tool for comparisons with other readers.
#![tactic(auto)]

mod answer;
mod confs;
mod errors;
mod escapes;
mod final_confs;
mod hex;
mod laws;
mod messages;
mod names;
mod pairs;
mod readings;
mod scripts;
mod streams;
mod tables;
mod text;
mod timing;
mod traces;
mod values;
mod written;

use std::io;

/// Whether a line prints nothing.
fn is_silent(line: &str) -> bool {
    line.is_empty() || line.starts_with('#')
}

fn main(rt: HostRuntime) -> io::Result<()> {
    for line in rt.lines(rt.alloc()) {
        let line = line?;
        if is_silent(line.as_str()) {
            continue;
        }
        let text = match line.as_str().strip_prefix("time ") {
            Some(count) => timing::text_of(&rt, rt.alloc(), count),
            None => answer::text_of(rt.alloc(), line.as_str()),
        };
        match text {
            Some(text) => print!(rt; "{text}")?,
            None => println!(rt; "unknown")?,
        }
    }
    Ok(())
}
