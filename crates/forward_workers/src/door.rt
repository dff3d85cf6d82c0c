//! Where a worker stands.

ghost use Rattle.std.specs.Prelude.{◌≡◌, List, Option, IfOk, OnOk};
ghost use Rattle.forward_run.specs.Front.{after_deed, after_deeds};
ghost use Rattle.forward_run.specs.declared.front.FrontDeed.{FrontDeed};
ghost use Rattle.forward_workers.specs.Doors.{taken};

use dns_base::NoMemory;
use front_peers::{FrontOut, FrontWhat};

/// Where a worker takes what DNS clients send by datagrams, and sends them answers.
///
/// Where a door knows what was done with it, it tells that as one list. That nothing came is no deed.
pub trait Door {
    ghost deeds: { Self → Option (List FrontDeed) };

    /// Sleeps until something comes, but not for ever, and at once where something has come.
    fn wait(&mut self) -> Result<(), NoMemory>
        ensures deeds { OnOk result (deeds self.new ≡ deeds self.old) };

    /// Whether something has come that was not taken yet.
    fn has_come(&self) -> bool;

    /// What came of a DNS client, one thing after another, without sleep.
    fn take(&mut self) -> Result<Option<FrontWhat>, NoMemory>
        ensures deeds { IfOk result (λ what. deeds self.new ≡ after_deeds (taken what) (deeds self.old)) };

    /// Answers by a datagram, whichever door its query came by. It may lie there until `flush`.
    fn answer(&mut self, out: &FrontOut) -> Result<(), NoMemory>
        ensures deeds { OnOk result (deeds self.new ≡ after_deed (FrontDeed.Acted out.now) (deeds self.old)) };

    /// Wakes whoever waits at the front that this door is beside, by the next `flush` at the latest.
    fn wake(&mut self)
        ensures deeds { deeds self.new ≡ deeds self.old };

    /// Sends what was answered and lies there.
    fn flush(&mut self)
        ensures deeds { deeds self.new ≡ deeds self.old };
}
