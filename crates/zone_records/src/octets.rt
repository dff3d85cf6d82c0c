//! Octets that a record of a zone owns.

ghost use Rattle.std.specs.Prelude.{◌≡◌, ℕ, List, IfOk};

use dns_base::NoMemory;
use std::alloc::Global;
use std::marker::Model;

/// Octets in order. A contract sees the list of them.
#[derive(Debug, Drop)]
pub struct OctetList {
    octets: Vec<u8>,
}

impl Model for OctetList {
    ghost Value = { List ℕ };

    ghost view = { λ o. o.octets.items };
}

impl OctetList {
    /// The octets of a vector. It takes no memory.
    pub fn from_vec(octets: Vec<u8>) -> OctetList
        ensures { result ≡ octets.items }
    {
        OctetList { octets }
    }

    /// The octets, where they lie.
    pub fn as_slice(&self) -> &[u8]
        ensures { result.now ≡ self.now }
    {
        self.octets.as_slice()
    }

    /// The same octets, copied.
    pub fn try_clone(&self, alloc: Global) -> Result<OctetList, NoMemory>
        ensures { IfOk result (λ o. o ≡ self.now) }
    {
        let octets = Vec::from_slice(alloc, self.octets.as_slice())?;
        Ok(OctetList { octets })
    }
}
