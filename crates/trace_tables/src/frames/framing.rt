//! Frames that octets complete, in pieces.

ghost use Rattle.std.specs.Prelude.{◌≡◌, ◌+◌, ◌*◌, [], reverse, option_to_list, IfOk, OnOk};
ghost use Rattle.right_trace.specs.Frames.{Length, settled, fed_one, fed};
ghost use Rattle.trace_tables.specs.frames.Framing.{reading_of};

use dns_base::{NoMemory, Octets, Seq};
use std::alloc::Global;
use std::marker::Model;

/// What is read of the next frame.
#[derive(Clone, Copy, Debug, PartialEq, Eq)]
pub enum Stage {
    /// Nothing.
    Length,
    /// The first octet of its length.
    LengthAfter(u8),
    /// Its length: so many octets are missing.
    Body(u16),
}

/// What is read of the next frame, and what came of it.
pub struct Framing {
    stage: Stage,
    // What came of the body, if that has begun.
    got: Vec<u8>,
}

impl Drop for Framing {
    fn drop(self) {
        let Framing { stage: _, got: _ } = self;
    }
}

impl Model for Framing {
    ghost use Rattle.right_trace.specs.Frames.{Reading};
    ghost use Rattle.trace_tables.specs.frames.Framing.{reading_of};

    ghost Value = { Reading };

    ghost view = { λ f. reading_of f.stage f.got.items };
}

/// A frame of which so many octets are missing is complete where none is.
#[tactic(auto, using(crate::proofs::lemmas::frames::Feeding::twice))]
fn settle(
    alloc: Global,
    stage: &mut Stage,
    got: &[u8],
    missing: u16,
) -> Result<Option<Octets>, NoMemory>
    ensures left { OnOk result (reading_of stage.new got.now ≡ (settled missing (reverse got.now)).left) }
    ensures frames { IfOk result (λ f. option_to_list f ≡ (settled missing (reverse got.now)).frames) }
{
    if missing > 0 {
        *stage = Stage::Body(missing);
        return Ok(None);
    }
    let frame = Octets::from_slice(alloc, got)?;
    *stage = Stage::Length;
    Ok(Some(frame))
}

impl Framing {
    /// Before the first octet. It takes no memory.
    pub fn new(alloc: Global) -> Framing
        ensures { result ≡ Length }
    {
        Framing {
            stage: Stage::Length,
            got: Vec::new(alloc),
        }
    }

    /// Takes one octet: the frame that it completes, if it does.
    #[tactic(auto, using(crate::proofs::lemmas::frames::Feeding::one_more, crate::proofs::lemmas::frames::Feeding::one_less))]
    fn take(&mut self, alloc: Global, octet: u8) -> Result<Option<Octets>, NoMemory>
        ensures left { OnOk result (self.new ≡ (fed_one self.old octet).left) }
        ensures frames { IfOk result (λ f. option_to_list f ≡ (fed_one self.old octet).frames) }
    {
        match self.stage {
            Stage::Length => {
                self.stage = Stage::LengthAfter(octet);
                Ok(None)
            }
            Stage::LengthAfter(high) => {
                self.got.clear();
                let missing = 256 * u16::from(high) + u16::from(octet);
                settle(alloc, &mut self.stage, self.got.as_slice(), missing)
            }
            Stage::Body(missing) => {
                self.got.push(octet)?;
                let missing = missing.saturating_sub(1);
                settle(alloc, &mut self.stage, self.got.as_slice(), missing)
            }
        }
    }

    /// Takes octets: the frames that they complete.
    #[tactic(auto, using(crate::proofs::lemmas::frames::Feeding::fed_none, crate::proofs::lemmas::frames::Feeding::fed_some, crate::proofs::lemmas::frames::Feeding::fed_all))]
    pub fn feed(&mut self, alloc: Global, octets: &[u8]) -> Result<Seq<Octets>, NoMemory>
        ensures left { OnOk result (self.new ≡ (fed self.old octets.now).left) }
        ensures frames { IfOk result (λ f. f ≡ (fed self.old octets.now).frames) }
    {
        let mut frames = Seq::new(alloc);
        for octet in octets {
            if let Some(frame) = self.take(alloc, *octet)? {
                frames.push(frame)?;
            }
        }
        Ok(frames)
    }
}
