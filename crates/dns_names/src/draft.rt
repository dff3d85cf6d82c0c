//! The labels of a name while its text is read.

ghost use Rattle.std.specs.Prelude.{◌≡◌, ◌++◌, [], ◌∷◌, Some, None, IsOk, OnOk, MatchResult};
ghost use Rattle.dns_names.specs.Name.{Labels};
ghost use Rattle.dns_names.specs.Text.{cut_text, judged, full, Gives};
ghost use Rattle.dns_names.specs.Draft.{IsDraft, ReadsDraft};

use crate::fault::NameFault;
use crate::owned::{Name, push_label};
use crate::text::{Piece, first_piece};
use std::alloc::{AllocError, Global};

/// The most octets of a label.
const MAX_LABEL: usize = 63;

/// The most octets of a name but for the root's.
const MAX_LABELS: usize = 254;

/// The labels that were read.
#[derive(Drop)]
pub(crate) struct Draft {
    /// The whole labels, each behind its length, unless one of them is too long.
    pub octets: Vec<u8>,
    /// The octets of the label that is not whole yet.
    pub label: Vec<u8>,
    /// Whether each whole label has an octet.
    pub is_full: bool,
    /// Whether each whole label has at most 63 octets.
    pub is_short: bool,
}

impl Draft {
    fn new(alloc: Global) -> Draft
        ensures none { IsDraft result [] }
        ensures label { result.label.items ≡ [] }
    {
        Draft {
            octets: Vec::new(alloc),
            label: Vec::new(alloc),
            is_full: true,
            is_short: true,
        }
    }

    /// Ends the label that is read: it is whole from then on.
    pub fn end_label(&mut self) -> Result<(), AllocError>
        ensures whole { (labels : Labels) → IsDraft self.old labels → OnOk result (IsDraft self.new (labels ++ self.old.label.items ∷ [])) }
        ensures label { OnOk result (self.new.label.items ≡ []) }
    {
        let is_full = self.is_full & !self.label.is_empty();
        let is_short = self.is_short & (self.label.len() <= MAX_LABEL);
        if is_short {
            push_label(&mut self.octets, &self.label)?;
        }
        self.is_full = is_full;
        self.is_short = is_short;
        self.label.clear();
        Ok(())
    }

    /// The labels of a whole text, of which the last one is not ended. `Parse` where the text
    /// cannot be cut into labels.
    pub fn read(alloc: Global, text: &[u8]) -> Result<Draft, NameFault>
        ensures { ReadsDraft text.now result }
    {
        let mut draft = Draft::new(alloc);
        let mut rest = text;
        while !rest.is_empty() {
            let Some((piece, behind)) = first_piece(rest) else {
                return Err(NameFault::Parse);
            };
            match piece {
                Piece::Dot => draft.end_label()?,
                Piece::Octet(octet) => draft.label.push(octet)?,
            }
            rest = behind;
        }
        Ok(draft)
    }

    /// The name of the whole labels: `Parse` where one of them is empty, and else `Long` where one
    /// is too long or all together are.
    pub fn finish(self) -> Result<Name, NameFault>
        requires { (labels : Labels) × IsDraft self labels }
        ensures { (labels : Labels) → IsDraft self labels → Gives (judged (full labels)) result }
    {
        if !self.is_full {
            return Err(NameFault::Parse);
        }
        if !self.is_short {
            return Err(NameFault::Long);
        }
        if self.octets.len() > MAX_LABELS {
            return Err(NameFault::Long);
        }
        let mut octets = self.octets;
        octets.push(0)?;
        Ok(Name::from_spelling(octets))
    }
}
