//! A sink that nobody hears.

ghost use Rattle.std.specs.Prelude.{None};

use dns_values::{Failed, Sink, SinkFault};

/// A sink that takes all, and of which nobody hears.
#[derive(Clone, Copy)]
pub struct Unheard;

impl Sink for Unheard {
    ghost held = { λ _. None };

    ghost faults = { λ _. 0 };

    fn write(&mut self, buf: &[u8]) -> Result<usize, SinkFault> {
        Ok(buf.len())
    }

    fn flush(&mut self) -> Result<(), Failed> {
        Ok(())
    }
}
