//! The configuration of a lookup, of which is told what there is to tell.

ghost use Rattle.std.specs.Prelude.{◌≡◌, ◌⊎◌, IfOk, IfErr};
ghost use Rattle.dns_lookup_run.specs.Conf.{IsAskedBy};

use crate::conf::conf_of;
use crate::telling::{tell_conf, tell_notes};
use client_request::Words;
use command_parts::statuses;
use dns_base::{NoMemory, Status};
use dns_lookup_words::Lookup;
use dns_values::{Sink, Source};
use resolv_conf::ResolvConf;
use std::alloc::Global;

/// The configuration that `run` asks for a lookup: that of the servers that its words name, or else the one that is found in what `source`
/// gives. A line to `errors` tells of each line of it that was not taken as it stands.
///
/// Without one the exit status: 3, of which a sentence tells why, or 6 where memory ran out.
pub fn told_conf<S: Source, L: Sink, W: Words>(
    alloc: Global,
    lookup: &Lookup,
    source: &mut S,
    errors: &mut L,
    words: &mut W,
) -> Result<ResolvConf, Status>
    ensures asked { IfOk result (λ conf. IsAskedBy lookup.now (S.left source.old) (W.stream words.old) (W.stream words.new) conf) }
    ensures statuses { IfErr result (λ status. (status.0 ≡ 3) ⊎ (status.0 ≡ 6)) }
{
    let found = match conf_of(alloc, lookup, source, words) {
        Ok(found) => found,
        Err(ending) => return Err(tell_conf(alloc, ending, errors)),
    };
    match tell_notes(alloc, found.notes.as_slice(), errors) {
        Ok(()) => Ok(found.conf),
        Err(NoMemory) => Err(statuses::NO_MEMORY),
    }
}
