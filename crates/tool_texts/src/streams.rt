//! Sources and sinks: in memory, those that never fail, and those of the standard library.

use crate::hex::Hex;
use dns_base::{
    MemSink, MemSource, Octets, Sink, Source, StdSink, StdSource, SureSink, SureSource,
    read_to_end, write_all,
};
use std::alloc::Global;
use std::io;

/// What is printed of a source that is read, or a sink that is written.
pub fn text_of(alloc: Global, word: &str, rest: &str) -> Option<String> {
    match word {
        "read" => read(alloc, rest),
        "read-surely" => read_surely(alloc, rest),
        "read-std" => read_std(alloc, rest),
        "read-interrupted" => read_interrupted(alloc, rest),
        "write" => write(alloc, rest),
        "write-std" => write_std(alloc, rest),
        "write-stuck" => write_stuck(alloc, rest),
        "write-interrupted" => write_interrupted(alloc, rest),
        "flush-interrupted" => flush_interrupted(alloc, rest),
        _ => None,
    }
}

/// A stream that signals interrupt so often. Then it is at its end, and takes all.
#[derive(Drop)]
struct Interrupted {
    times: u8,
}

impl Interrupted {
    fn strike(&mut self) -> io::Result<()> {
        if self.times == 0 {
            return Ok(());
        }
        self.times -= 1;
        Err(io::ErrorKind::Interrupted.into())
    }
}

impl io::Read for Interrupted {
    fn read(&mut self, _buf: &mut [u8]) -> io::Result<usize> {
        self.strike()?;
        Ok(0)
    }
}

impl io::Write for Interrupted {
    fn write(&mut self, buf: &[u8]) -> io::Result<usize> {
        self.strike()?;
        Ok(buf.len())
    }

    fn flush(&mut self) -> io::Result<()> {
        self.strike()
    }
}

/// A writer that keeps what it takes and fails to hand it on.
#[derive(Drop)]
struct Stuck;

impl io::Write for Stuck {
    fn write(&mut self, buf: &[u8]) -> io::Result<usize> {
        Ok(buf.len())
    }

    fn flush(&mut self) -> io::Result<()> {
        Err(io::ErrorKind::Other.into())
    }
}

/// A stream that is interrupted so often.
fn interrupted_stream(times: &str) -> Option<Interrupted> {
    let times = times.parse::<u8>().ok()?;
    Some(Interrupted { times })
}

/// What reading an interrupted stream answers.
fn read_interrupted(alloc: Global, times: &str) -> Option<String> {
    let mut source = StdSource::new(interrupted_stream(times)?);
    let read = source.read(&mut [0u8; 4]);
    format!(in alloc; "{read:?}\n").ok()
}

/// What writing to an interrupted stream answers, by `TIMES TEXT`.
fn write_interrupted(alloc: Global, rest: &str) -> Option<String> {
    let (times, text) = rest.split_once(' ')?;
    let mut sink = StdSink::new(interrupted_stream(times)?);
    let written = sink.write(text.as_bytes());
    format!(in alloc; "{written:?}\n").ok()
}

/// What flushing an interrupted stream answers.
fn flush_interrupted(alloc: Global, times: &str) -> Option<String> {
    let mut sink = StdSink::new(interrupted_stream(times)?);
    let flushed = sink.flush();
    format!(in alloc; "{flushed:?}\n").ok()
}

/// A source of so many octets, of which one call fails.
fn source(alloc: Global, size: usize, fails: u64) -> Option<MemSource> {
    let octets = Octets::from_vec(vec![in alloc; 7u8; size].ok()?).ok()?;
    Some(MemSource::new(octets, Vec::from_slice(alloc, &[fails]).ok()?))
}

/// How many octets are read to the end, by `SIZE MOST FAILS`: so many octets, the most that are taken, and the call that fails.
fn read(alloc: Global, rest: &str) -> Option<String> {
    let (size, rest) = rest.split_once(' ')?;
    let (most, fails) = rest.split_once(' ')?;
    let mut source = source(
        alloc,
        size.parse::<usize>().ok()?,
        fails.parse::<u64>().ok()?,
    )?;
    let most = most.parse::<usize>().ok()?;
    match read_to_end(alloc, &mut source, most) {
        Ok(octets) => format!(in alloc; "Ok({})\n", octets.len()).ok(),
        Err(fault) => format!(in alloc; "Err({fault:?})\n").ok(),
    }
}

/// What writing answers, what the sink then has, and what flushing it answers, by `TEXT FAILS NOTHING`: the call that fails,
/// and the one that takes nothing.
fn write(alloc: Global, rest: &str) -> Option<String> {
    let (text, rest) = rest.split_once(' ')?;
    let (fails, nothing) = rest.split_once(' ')?;
    let fails = Vec::from_slice(alloc, &[fails.parse::<u64>().ok()?]).ok()?;
    let nothing = Vec::from_slice(alloc, &[nothing.parse::<u64>().ok()?]).ok()?;
    let mut sink = MemSink::new(alloc, fails, nothing);
    let written = write_all(&mut sink, text.as_bytes());
    let flushed = sink.flush();
    let held = Hex(sink.as_slice());
    format!(in alloc; "{written:?} {held} {flushed:?}\n").ok()
}

/// What a source that never fails hands on to a sink that never fails.
fn read_surely(alloc: Global, text: &str) -> Option<String> {
    let octets = Octets::from_slice(alloc, text.as_bytes()).ok()?;
    let read = read_to_end(alloc, &mut SureSource::new(octets), text.len()).ok()?;
    let mut sink = SureSink::new(alloc);
    let written = write_all(&mut sink, &read);
    let flushed = sink.flush();
    let held = Hex(sink.as_slice());
    format!(in alloc; "{written:?} {held} {flushed:?}\n").ok()
}

/// What is read of a reader of the standard library.
fn read_std(alloc: Global, text: &str) -> Option<String> {
    let reader: &[u8] = text.as_bytes();
    let read = read_to_end(alloc, &mut StdSource::new(reader), text.len()).ok()?;
    let digits = Hex(&read);
    format!(in alloc; "{digits}\n").ok()
}

/// What two writes to a writer with room for four octets answer, and a flush between them, by `TEXT TEXT`.
fn write_std(alloc: Global, rest: &str) -> Option<String> {
    let (text, more) = rest.split_once(' ')?;
    let mut room = [0u8; 4];
    let writer: &mut [u8] = &mut room;
    let mut sink = StdSink::new(writer);
    let written = write_all(&mut sink, text.as_bytes());
    let flushed = sink.flush();
    let past = write_all(&mut sink, more.as_bytes());
    format!(in alloc; "{written:?} {flushed:?} {past:?}\n").ok()
}

/// What writing to a writer answers that does not hand on, and flushing it.
fn write_stuck(alloc: Global, text: &str) -> Option<String> {
    let mut sink = StdSink::new(Stuck);
    let written = write_all(&mut sink, text.as_bytes());
    let flushed = sink.flush();
    format!(in alloc; "{written:?} {flushed:?}\n").ok()
}
