//! Where moments come from.

ghost use Rattle.std.specs.Prelude.{◌≡◌, ℕ, List, Option};
ghost use Rattle.dns_values.specs.Source.{one_more};
ghost use Rattle.client_request.specs.Words.{IsGivenOn};
ghost use Rattle.client_core.specs.Clock.{moment_at, told_moments};

use client_request::Moment;
use std::marker::Model;

/// A clock. Where it knows the moments that it gave so far, it tells them.
pub trait Clock {
    ghost given: { Self → Option (List ℕ) };

    /// The moment, in microseconds.
    fn now(&mut self) -> Moment
        ensures given { IsGivenOn (given self.old) (given self.new) result.0 };
}

/// A clock that gives the moments of a list, and after its end the last one again, or 0 where there is
/// none.
#[derive(Drop)]
pub struct ListClock {
    moments: Vec<Moment>,
    calls: u64,
}

impl Model for ListClock {
    ghost use Rattle.client_core.specs.Clock.{Moments};

    ghost Value = { Moments };

    ghost view = { λ c. record { moments = c.moments.items; calls = c.calls } };
}

impl ListClock {
    /// A clock that gives these moments, call by call.
    pub fn new(moments: Vec<Moment>) -> ListClock
        ensures { result ≡ record { moments = moments.items; calls = 0 } }
    {
        ListClock { moments, calls: 0 }
    }
}

/// The moment of a call, counted from 0.
fn moment_at(moments: &[Moment], call: u64) -> Moment
    ensures { result.0 ≡ moment_at moments.now call }
{
    match moments {
        [] => Moment(0),
        [.., last] => match usize::try_from(call) {
            Ok(call) => moments.get(call).copied().unwrap_or(*last),
            Err(_) => *last,
        },
    }
}

impl Clock for ListClock {
    ghost given = { told_moments };

    fn now(&mut self) -> Moment
        ensures given { IsGivenOn (told_moments self.old) (told_moments self.new) result.0 }
        ensures gives { result.0 ≡ moment_at self.old.moments self.old.calls }
        ensures after { self.new ≡ record self.old { calls = one_more self.old.calls } }
    {
        let moment = moment_at(&self.moments, self.calls);
        self.calls = self.calls.saturating_add(1);
        moment
    }
}
