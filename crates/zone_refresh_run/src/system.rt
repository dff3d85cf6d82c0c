//! What keeping zones asks of the system.

ghost use Rattle.std.specs.Prelude.{◌≡◌, List, Option};
ghost use Rattle.zone_refresh_run.specs.Acts.{Act, after_act, did_ask, did_fetch, did_look, did_read, did_sleep, did_tell};

use crate::serials::NoSerial;
use dns_base::{Name, Serial, SocketAddr, Status};
use zone_fetch_run::Command;
use zone_refresh::ZoneTimers;

/// Where primaries are asked, zones fetched into their files, and time passes. Where it knows what it did, it tells that as one list.
pub trait System {
    ghost acts: { Self → Option (List Act) };

    /// The moment, in microseconds since any start.
    fn now(&mut self) -> u64
        ensures { acts self.new ≡ after_act (did_look result) (acts self.old) };

    /// Sleeps for so many microseconds at most.
    fn sleep(&mut self, micros: u64)
        ensures { acts self.new ≡ after_act (did_sleep micros) (acts self.old) };

    /// Asks a primary for the SOA of a zone, as `ask_serial` does.
    fn ask(&mut self, zone: &Name, primary: SocketAddr) -> Result<Serial, NoSerial>
        ensures { acts self.new ≡ after_act (did_ask zone.now primary result) (acts self.old) };

    /// The serial and the times of a zone, if the file at a path has it, as `held_at` tells them.
    fn held(&mut self, zone: &Name, path: &str) -> Option<ZoneTimers>
        ensures { acts self.new ≡ after_act (did_read zone.now path.now result) (acts self.old) };

    /// Fetches a zone, as `fetch_for` does, and answers its exit status.
    fn fetch(&mut self, command: &Command) -> Status
        ensures { acts self.new ≡ after_act (did_fetch command.now result.0) (acts self.old) };

    /// Tells a sentence, as far as it can be told.
    fn tell(&mut self, sentence: &str)
        ensures { acts self.new ≡ after_act (did_tell sentence.now) (acts self.old) };
}
