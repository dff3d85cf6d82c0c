//! The world of the zones of a list, in a system.

ghost use Rattle.std.specs.Prelude.{◌≡◌, ◌<◌, true, Option, Some, option_and_then, option_map, length, slice_get};
ghost use Rattle.std.specs.Result.{result_ok};
ghost use Rattle.zone_refresh_run.specs.Acts.{AsksAt, Tells, listed_in};
ghost use Rattle.zone_refresh_run.specs.Fetching.{BringsAt};
ghost use Rattle.zone_refresh_run.specs.Keeping.{IsSame};
ghost use Rattle.zone_refresh_run.specs.Sentences as spec;

use crate::fetching::{FetchManner, bring};
use crate::sentences::news_sentence;
use crate::serials::NoSerial;
use crate::system::System;
use crate::words::KeptForm;
use crate::world::{World, ZoneNews};
use dns_base::{Serial, SocketAddr};
use std::alloc::Global;
use zone_list::Listed;
use zone_refresh::ZoneTimers;

/// A zone of the list, and whether its file has it.
pub(crate) struct KeptFile {
    pub(crate) listed: Listed,
    pub(crate) has_zone: bool,
}

impl Drop for KeptFile {
    fn drop(self) {
        let KeptFile {
            listed: _,
            has_zone: _,
        } = self;
    }
}

/// The zones of a list, in a system.
#[derive(Drop)]
pub(crate) struct Keeper<S> {
    pub(crate) alloc: Global,
    pub(crate) system: S,
    pub(crate) files: Vec<KeptFile>,
    pub(crate) form: KeptForm,
    /// What the primary said that was asked last.
    pub(crate) said: Option<Result<Serial, NoSerial>>,
}

/// A primary of a zone.
fn primary_of(listed: &Listed, number: usize) -> Option<SocketAddr>
    ensures { result ≡ slice_get listed.now.primaries number }
{
    listed.primaries.as_slice().get(number).copied()
}

/// Asks a primary for the SOA of a zone, where both are there: what it said.
fn ask<S: System>(
    system: &mut S,
    files: &[KeptFile],
    zone: usize,
    primary: usize,
) -> Option<Result<Serial, NoSerial>>
    ensures { AsksAt files.now zone primary result (S.acts system.old) (S.acts system.new) }
{
    let file = files.get(zone)?;
    let addr = primary_of(&file.listed, primary)?;
    Some(system.ask(&file.listed.zone, addr))
}

/// The serial that was said, if one was.
fn serial_in(said: Option<Result<Serial, NoSerial>>) -> Option<Serial>
    ensures { result ≡ option_and_then result_ok said }
{
    said?.ok()
}

/// Tells of a zone what there is to tell, where this was said last.
fn tell_of<S: System>(
    alloc: Global,
    system: &mut S,
    listed: &Listed,
    said: Option<Result<Serial, NoSerial>>,
    news: ZoneNews,
)
    ensures { Tells (spec.news_sentence listed.now said news) (S.acts system.old) (S.acts system.new) }
{
    if let Ok(sentence) = news_sentence(alloc, listed, said, news) {
        system.tell(sentence.as_str());
    }
}

impl<S: System> Keeper<S> {
    /// The file of a zone has it from now on.
    fn note(&mut self, zone: usize)
        ensures noted { zone < length self.old.files.items → option_map (λ f. f.has_zone) (slice_get self.new.files.items zone) ≡ Some true }
        ensures kept { listed_in self.new.files.items ≡ listed_in self.old.files.items }
        ensures untouched { self.new.system ≡ self.old.system }
        ensures same { (self.new.form ≡ self.old.form) × (self.new.said ≡ self.old.said) }
    {
        if zone < self.files.len() {
            self.files[zone].has_zone = true;
        }
    }

    /// Fetches a zone from a primary into its file, where both are there: the times of the zone that the file has then.
    fn bring(&mut self, zone: usize, primary: usize) -> Option<ZoneTimers>
        ensures brings { BringsAt self.old.files.items self.old.form zone primary result (S.acts self.old.system) (S.acts self.new.system) }
        ensures same { IsSame self.old self.new }
    {
        let file = self.files.get(zone)?;
        let addr = primary_of(&file.listed, primary)?;
        let manner = FetchManner {
            primary: addr,
            form: self.form,
            has_zone: file.has_zone,
        };
        bring(self.alloc, &mut self.system, &file.listed, manner)
    }
}

impl<S: System> World for Keeper<S> {
    ghost use Rattle.zone_refresh_run.specs.Keeping.{Does};

    ghost does = { Does S.acts };

    fn now(&mut self) -> u64 {
        self.system.now()
    }

    fn sleep_until(&mut self, moment: u64) {
        let now = self.system.now();
        if now < moment {
            self.system.sleep(moment - now);
        }
    }

    fn ask_soa(&mut self, zone: usize, primary: usize) -> Option<Serial> {
        let said = ask(&mut self.system, self.files.as_slice(), zone, primary);
        self.said = said;
        serial_in(said)
    }

    fn fetch(&mut self, zone: usize, primary: usize) -> Option<ZoneTimers> {
        let timers = self.bring(zone, primary);
        if timers.is_some() {
            self.note(zone);
        }
        timers
    }

    fn tell(&mut self, zone: usize, news: ZoneNews) {
        if let Some(file) = self.files.get(zone) {
            tell_of(self.alloc, &mut self.system, &file.listed, self.said, news);
        }
    }
}
