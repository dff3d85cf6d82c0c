//! A setting's default and its limits.

ghost use Rattle.std.specs.Prelude.{◌≡◌};
ghost use Rattle.client_request.specs.Limits.{limited};

use std::cmp::Ordering;

/// The default of a setting, and the least and greatest value that it may have.
#[derive(Clone, Copy, Debug, PartialEq, Eq)]
pub struct DefMinMax<T> {
    /// The default.
    pub def: T,
    /// The least value that it may have.
    pub min: T,
    /// The greatest value that it may have.
    pub max: T,
}

impl<T: Ord + Copy> DefMinMax<T> {
    /// The limits of a setting. That the default lies within them is the caller's business.
    pub const fn new(def: T, min: T, max: T) -> Self
        ensures { result ≡ record { def = def; min = min; max = max } }
    {
        DefMinMax { def, min, max }
    }

    /// The default.
    pub fn default(self) -> T
        ensures { result ≡ self.def }
    {
        self.def
    }

    /// The value, cut into the limits: the greater of the least value and of the lesser of the
    /// greatest one and `value`.
    pub fn limit(self, value: T) -> T
        ensures { result ≡ limited T.cmp self.min self.max value }
    {
        let low = match value.cmp(&self.max) {
            Ordering::Less => value,
            _ => self.max,
        };
        match low.cmp(&self.min) {
            Ordering::Less => self.min,
            _ => low,
        }
    }
}
