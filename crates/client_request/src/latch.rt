//! The flag of an object that gave up.

ghost use Rattle.std.specs.Prelude.{◌≡◌, ◌||◌, ◌↔◌, true, false, IsOk, IfErr, is_err};
ghost use Rattle.client_request.specs.declared.error.Error.TheVariants as errors;

use crate::error::Error;
use std::marker::Model;

/// Whether a call of an object was refused. From then on each of its calls answers `Failed`.
#[derive(Clone, Copy, Debug)]
pub struct Latch {
    is_set: bool,
}

impl Model for Latch {
    ghost use Rattle.std.specs.Prelude.{Bool};

    ghost Value = { Bool };

    ghost view = { λ l. l.is_set };

    ghost inverse = { λ b. record { is_set = b } };
}

impl Latch {
    /// No call was refused yet.
    pub fn new() -> Latch
        ensures { result ≡ false }
    {
        Latch { is_set: false }
    }

    /// Whether a call was refused.
    pub fn is_set(&self) -> bool
        ensures { result ≡ self.now }
    {
        self.is_set
    }

    /// Lets each later call be refused.
    pub fn set(&mut self)
        ensures { self.new ≡ true }
    {
        self.is_set = true;
    }

    /// Refuses a call by `Failed` where an earlier one was refused.
    pub fn check(&self) -> Result<(), Error>
        ensures ok { IsOk result ↔ self.now ≡ false }
        ensures failed { IfErr result (λ e. e ≡ errors.Failed) }
    {
        if self.is_set {
            return Err(Error::Failed);
        }
        Ok(())
    }

    /// Hands the result of a call on, and is set where it was refused.
    pub fn keep<T>(&mut self, outcome: Result<T, Error>) -> Result<T, Error>
        ensures outcome { result ≡ outcome }
        ensures set { self.new ≡ (self.old || is_err outcome) }
    {
        if outcome.is_err() {
            self.is_set = true;
        }
        outcome
    }
}
