//! The places of a template's TTLs.

ghost use Rattle.std.specs.Prelude.{◌≡◌, IfOk};
ghost use Rattle.message_patching.specs.TtlPlaces.{places_of, AreWithin};

use std::alloc::{AllocError, Global};

/// Places of TTLs. Most messages have few, which stand here itself: a hit finds them beside the template's other parts.
pub(crate) enum TtlPlaces {
    Few { count: usize, places: [u32; 4] },
    Many(Vec<u32>),
}

impl Drop for TtlPlaces {
    fn drop(self) {
        match self {
            TtlPlaces::Few {
                count: _,
                places: _,
            } => {}
            TtlPlaces::Many(_) => {}
        }
    }
}

impl TtlPlaces {
    pub(crate) fn of(alloc: Global, places: &[u32]) -> Result<TtlPlaces, AllocError>
        ensures same { IfOk result (λ p. places_of p ≡ places.now) }
        ensures within { IfOk result AreWithin }
    {
        let count = places.len();
        if count <= 4 {
            let mut few = [0; 4];
            few[..count].copy_from_slice(places);
            Ok(TtlPlaces::Few { count, places: few })
        } else {
            let many = Vec::from_slice(alloc, places)?;
            Ok(TtlPlaces::Many(many))
        }
    }

    pub(crate) fn as_slice(&self) -> &[u32]
        requires { AreWithin self.now }
        ensures { result.now ≡ places_of self.now }
    {
        match self {
            TtlPlaces::Few { count, places } => &places[..*count],
            TtlPlaces::Many(places) => places,
        }
    }
}
