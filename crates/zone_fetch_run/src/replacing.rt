//! Files that are put in the place of others.

ghost use Rattle.std.specs.Prelude.{◌≡◌, ◌≢◌, ◌≤◌, ℕ, [], IfOk, IfSome, OnOk, OnErr};
ghost use Rattle.dns_values.specs.Sink.{IsFlushed};
ghost use Rattle.dns_values.specs.Source.{Rose};
ghost use Rattle.zone_fetch_run.specs.Places.{Placed, with_place};

use dns_base::{Failed, Sink};

/// Writes files beside others, and puts each in the place of one, at once and whole. Where it knows what it put in the place of which
/// file, it tells that. Its count of faults never falls.
pub trait Replacing {
    type File: Sink + Drop;

    ghost placed: { Self → Placed };

    ghost faults: { Self → ℕ };

    /// A new file beside the one at a path, with nothing in it and no fault. `Failed` only where the count of faults rose.
    fn begin(&mut self, path: &str) -> Result<Self::File, Failed>
        ensures empty { IfOk result (λ file. IfSome (Self.File.held file) (λ octets. octets ≡ [])) }
        ensures unhurt { IfOk result (λ file. Self.File.faults file ≡ 0) }
        ensures placed { placed self.new ≡ placed self.old }
        ensures count { faults self.old ≤ faults self.new }
        ensures failed { OnErr result (Rose (faults self.old) (faults self.new)) };

    /// Puts the file that was begun last in the place of the one at the path for which it was begun. `Failed` only where the count of
    /// faults rose; that file is as it was then.
    fn place(&mut self, file: Self::File, path: &str) -> Result<(), Failed>
        requires { IsFlushed (Self.File.held file) (Self.File.flushed file) }
        ensures placed { OnOk result (placed self.new ≡ with_place path.now (Self.File.held file) (placed self.old)) }
        ensures kept { OnErr result (placed self.new ≡ placed self.old) }
        ensures count { faults self.old ≤ faults self.new }
        ensures failed { OnErr result (Rose (faults self.old) (faults self.new)) };

    /// Gives up the file that was begun last. The count of faults rises where that file has one.
    fn abandon(&mut self, file: Self::File)
        ensures placed { placed self.new ≡ placed self.old }
        ensures count { faults self.old ≤ faults self.new }
        ensures failed { Self.File.faults file ≢ 0 → Rose (faults self.old) (faults self.new) };
}
