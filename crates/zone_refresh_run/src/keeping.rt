//! Zones that are kept as a list says.

ghost use Rattle.std.specs.Prelude.{◌≡◌, ◌⊎◌, IfOk, IfErr, OnOk};
ghost use Rattle.command_parts.specs.Ends.{IsSaid};
ghost use Rattle.zone_refresh_run.specs.Acts.{AreStarted, Starts, Tells, started};
ghost use Rattle.zone_refresh_run.specs.Keeping.{KeepsList, KeepsZones};
ghost use Rattle.zone_refresh_run.specs.Listing.{RefusesList};
ghost use Rattle.zone_refresh_run.specs.Sentences as spec;
ghost use Rattle.zone_refresh_run.specs.Words.{last_word, unkept_sentence};

use crate::keeper::{Keeper, KeptFile};
use crate::listing::{MEMORY, listed_at, tell_unlisted};
use crate::sentences::kept_sentence;
use crate::system::System;
use crate::turns::keep_zones;
use crate::words::{KeptForm, UnkeptList, last_word, unkept_sentence};
use command_parts::{end_by, statuses};
use dns_base::{NoMemory, Sink, Status};
use resolv_conf::OpenFile;
use std::alloc::Global;
use zone_list::Listed;
use zone_refresh::{KeptZone, ZoneTimers};

/// Tells that a zone is kept from now on, and what its file has of it.
fn tell_kept<S: System>(alloc: Global, system: &mut S, listed: &Listed, held: Option<ZoneTimers>)
    ensures { Tells (spec.kept_sentence listed.now held) (S.acts system.old) (S.acts system.new) }
{
    if let Ok(sentence) = kept_sentence(alloc, listed, held) {
        system.tell(sentence.as_str());
    }
}

/// A zone is kept from a moment on, with what its file has, and that is told.
fn start<S: System>(alloc: Global, system: &mut S, listed: &Listed, now: u64) -> KeptZone
    ensures zone { result ≡ started listed.now now result.held }
    ensures acts { Starts listed.now result.held (S.acts system.old) (S.acts system.new) }
{
    let held = system.held(&listed.zone, listed.file.as_str());
    tell_kept(alloc, system, listed, held);
    let primaries = listed.primaries.as_slice().len().max(1);
    KeptZone::new(primaries, held, now)
}

/// Each zone of a list is kept from a moment on.
#[tactic(auto, using(crate::proofs::Starting::none_started, crate::proofs::Starting::one_started, crate::proofs::Starting::all_are_started))]
fn start_all<S: System>(
    alloc: Global,
    system: &mut S,
    listed: Vec<Listed>,
    now: u64,
) -> Result<(Vec<KeptZone>, Vec<KeptFile>), NoMemory>
    ensures { IfOk result (λ all. AreStarted listed.items now all.0.items all.1.items (S.acts system.old) (S.acts system.new)) }
{
    let mut zones = Vec::new(alloc);
    let mut files = Vec::new(alloc);
    for item in listed {
        let zone = start(alloc, system, &item, now);
        zones.push(zone)?;
        files.push(KeptFile {
            listed: item,
            has_zone: zone.held.is_some(),
        })?;
    }
    Ok((zones, files))
}

/// Keeps the zones of a list for so many turns, and hands the system back.
fn keep_listed<S: System + Drop>(
    alloc: Global,
    form: KeptForm,
    listed: Vec<Listed>,
    mut system: S,
    turns: u64,
) -> (S, Result<(), NoMemory>)
    ensures { OnOk result.1 (KeepsZones S.acts form turns listed.items system result.0) }
{
    let now = system.now();
    let (mut zones, files) = match start_all(alloc, &mut system, listed, now) {
        Ok(all) => all,
        Err(NoMemory) => return (system, Err(NoMemory)),
    };
    let mut keeper = Keeper {
        alloc,
        system,
        files,
        form,
        said: None,
    };
    keep_zones(zones.as_mut_slice(), &mut keeper, turns);
    let Keeper { system, .. } = keeper;
    (system, Ok(()))
}

/// Tells why words are no command.
fn tell_unkept<L: Sink>(
    alloc: Global,
    words: &[String],
    unkept: UnkeptList,
    errors: &mut L,
) -> Status
    ensures status { (result.0 ≡ 2) ⊎ (result.0 ≡ 6) }
    ensures said { result.0 ≡ 2 → IsSaid (unkept_sentence words.now unkept) (L.held errors.old) (L.held errors.new) (L.faults errors.old) (L.faults errors.new) }
{
    match unkept_sentence(alloc, words, unkept) {
        Ok(sentence) => end_by(errors, statuses::USAGE, sentence.as_bytes()),
        Err(NoMemory) => end_by(errors, statuses::NO_MEMORY, MEMORY),
    }
}

/// Keeps the zones of the list that words name, for so many turns, and answers the exit status, with the system: 0 where they were made. 1: a line of the
/// list is wrong, it is too long, or it names no zone. 2: the words are none. 3: the list can't be read. 6: memory ran out. On each but 0
/// a sentence to `errors` says why.
pub fn keep_asked<S: System + Drop, O: OpenFile, L: Sink>(
    alloc: Global,
    words: &[String],
    asked: Result<KeptForm, UnkeptList>,
    system: S,
    opener: &mut O,
    errors: &mut L,
    turns: u64,
) -> (Status, S)
    ensures usage { result.0.0 ≡ 2 → IfErr asked (λ unkept. IsSaid (unkept_sentence words.now unkept) (L.held errors.old) (L.held errors.new) (L.faults errors.old) (L.faults errors.new)) }
    ensures kept { result.0.0 ≡ 0 → IfOk asked (λ form. KeepsList S.acts form turns (last_word words.now) (O.files opener.old) system result.1) }
    ensures refused { result.0.0 ≡ 1 → IfOk asked (λ form. RefusesList (last_word words.now) (O.files opener.old) (L.held errors.old) (L.held errors.new) (L.faults errors.old) (L.faults errors.new)) }
{
    let form = match asked {
        Ok(form) => form,
        Err(unkept) => return (tell_unkept(alloc, words, unkept, errors), system),
    };
    let path = last_word(words);
    let listed = match listed_at(alloc, opener, path) {
        Ok(listed) => listed,
        Err(unlisted) => return (tell_unlisted(alloc, path, unlisted, errors), system),
    };
    let (system, end) = keep_listed(alloc, form, listed, system, turns);
    match end {
        Ok(()) => (statuses::DONE, system),
        Err(NoMemory) => (end_by(errors, statuses::NO_MEMORY, MEMORY), system),
    }
}
