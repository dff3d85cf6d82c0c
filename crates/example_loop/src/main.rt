//! Asks with a client in a program of one's own, in two ways: stepped by hand and recorded, and in a loop over a UDP socket.
//!
//! A `Client` opens no socket: it is told what happens, and each row says what is to be done for it.
#![tactic(auto)]

mod asking;
mod line;
mod looped;
mod outs;
mod recorded;
mod server;
mod stepped;
mod trouble;

use trouble::Trouble;

fn main(rt: HostRuntime) -> Result<(), Trouble> {
    println!(rt; "stepped by hand:")?;
    stepped::run(&rt, rt.alloc())?;
    println!(rt; "in a loop:")?;
    looped::run(rt)
}
