//! Names without the root, to be chained to others.

ghost use Rattle.std.specs.Prelude.{◌≡◌, ◌≤◌, ◌<◌, ◌++◌, [], IfOk, IfErr, length};
ghost use Rattle.dns_names.specs.Name.{Labels, octet_count, IsLegal};
ghost use Rattle.dns_names.specs.Chain.{Chains};

use crate::fault::ChainFault;
use crate::owned::Name;
use dns_values::NoMemory;
use std::alloc::Global;
use std::marker::Model;

/// Labels without the root, of 254 octets at most with their lengths; maybe none.
pub struct RelativeName {
    /// The same labels with the root.
    absolute: Name,
}

impl Drop for RelativeName {
    fn drop(self) {
        let RelativeName { absolute: _ } = self;
    }
}

impl Model for RelativeName {
    ghost Value = { Labels };

    ghost view = { λ r. r.absolute };
}

impl RelativeName {
    /// The name with no labels. It takes no memory.
    pub fn empty(alloc: Global) -> RelativeName
        ensures { result ≡ [] }
    {
        RelativeName {
            absolute: Name::root(alloc),
        }
    }

    /// The labels of a name without its root.
    pub(crate) fn without_root(absolute: Name) -> RelativeName
        ensures { result ≡ absolute }
    {
        RelativeName { absolute }
    }

    /// The same labels with the root.
    pub(crate) fn as_absolute(&self) -> &Name
        ensures { result.now ≡ self.now }
    {
        &self.absolute
    }

    /// The same name.
    pub fn try_clone(&self, alloc: Global) -> Result<RelativeName, NoMemory>
        ensures { IfOk result (λ n. n ≡ self.now) }
    {
        let absolute = self.absolute.try_clone(alloc)?;
        Ok(RelativeName { absolute })
    }

    /// These labels and then those of a suffix. `Long` exactly where that name passes 255 octets.
    pub fn chain(&self, alloc: Global, suffix: &Name) -> Result<Name, ChainFault>
        ensures { Chains self.now suffix.now result }
    {
        let front = self.absolute.as_octets();
        let back = suffix.as_octets();
        let kept = front.len() - 1;
        if kept + back.len() > 255 {
            return Err(ChainFault::Long);
        }
        let mut octets = Vec::new(alloc);
        octets.extend_from_slice(&front[..kept])?;
        octets.extend_from_slice(back)?;
        Ok(Name::from_spelling(octets))
    }

    /// These labels and the root.
    pub fn chain_root(&self, alloc: Global) -> Result<Name, NoMemory>
        ensures { IfOk result (λ n. n ≡ self.now) }
    {
        self.absolute.try_clone(alloc)
    }
}
