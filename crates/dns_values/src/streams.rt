//! Reading a source to its end, and writing octets whole.

ghost use Rattle.std.specs.Prelude.{◌≡◌, ℕ, ◌<◌, ◌≤◌, List, [], take, length, Option, Some, IfOk, IfErr, OnOk, OnErr, IfSome};
ghost use Rattle.dns_values.specs.Source.{Rose};
ghost use Rattle.dns_values.specs.Sink.{with_octets};

use crate::error::Failed;
use crate::sink::{Sink, SinkFault};
use crate::source::Source;
use std::alloc::{AllocError, Global};

/// Why a source was not read to its end.
#[derive(Clone, Copy, Debug, PartialEq, Eq)]
pub enum ReadFault {
    /// The source failed.
    Failed,
    /// The source gives more octets than are taken.
    TooLong,
    /// Memory ran out.
    NoMemory,
}

impl From<Failed> for ReadFault {
    ghost use Rattle.dns_values.specs.declared.streams.ReadFault.{ReadFault};

    ghost from_gives = { λ _ r. r ≡ ReadFault.Failed };

    fn from(_e: Failed) -> ReadFault {
        ReadFault::Failed
    }
}

impl From<AllocError> for ReadFault {
    ghost use Rattle.dns_values.specs.declared.streams.ReadFault.{ReadFault};

    ghost from_gives = { λ _ r. r ≡ ReadFault.NoMemory };

    fn from(_e: AllocError) -> ReadFault {
        ReadFault::NoMemory
    }
}

/// The most octets that are read of a configuration, or of a script: 16 MiB.
pub const MOST_TEXT: usize = 16_777_216;

/// The octets of a source, to its end.
///
/// No octet past the one after `most` is read. `ReadFault::TooLong` where there are more than
/// `most`, and `ReadFault::Failed` only where the source's count of faults rose. After an error
/// the octets that were read are gone.
pub fn read_to_end<S: Source>(
    alloc: Global,
    source: &mut S,
    most: usize,
) -> Result<Vec<u8>, ReadFault>
    ensures whole { IfOk result (λ v. IfSome (S.left source.old) (λ xs. (v.items ≡ xs) × (S.left source.new ≡ Some []))) }
    ensures fits { IfOk result (λ v. length v.items ≤ most) }
    ensures too_long { IfErr result (λ e. e ≡ ReadFault.TooLong → IfSome (S.left source.old) (λ xs. most < length xs)) }
    ensures failed { IfErr result (λ e. e ≡ ReadFault.Failed → Rose (S.faults source.old) (S.faults source.new)) }
    ensures count { S.faults source.old ≤ S.faults source.new }
{
    let mut octets = Vec::new(alloc);
    let mut piece = [0u8; 8192];
    loop {
        let room = most - octets.len();
        let n = source.read(&mut piece[..room.min(8191) + 1])?;
        if n == 0 {
            return Ok(octets);
        }
        if n > room {
            return Err(ReadFault::TooLong);
        }
        octets.extend_from_slice(&piece[..n])?;
    }
}

/// Writes all the octets.
///
/// After an error the first of them may be written. `SinkFault::Failed` only where the sink's
/// count of faults rose: it failed, or a write took nothing.
pub fn write_all<K: Sink>(sink: &mut K, octets: &[u8]) -> Result<(), SinkFault>
    ensures whole { OnOk result (K.held sink.new ≡ with_octets octets.now (K.held sink.old)) }
    ensures front { OnErr result ((n : ℕ) × (K.held sink.new ≡ with_octets (take n octets.now) (K.held sink.old))) }
    ensures failed { IfErr result (λ e. e ≡ SinkFault.Failed → Rose (K.faults sink.old) (K.faults sink.new)) }
    ensures count { K.faults sink.old ≤ K.faults sink.new }
{
    let mut at = 0;
    while at < octets.len() {
        let n = sink.write(&octets[at..])?;
        if n == 0 {
            return Err(SinkFault::Failed);
        }
        at += n;
    }
    Ok(())
}
