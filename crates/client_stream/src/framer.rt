//! Frames, taken from octets that come in pieces.

ghost use Rattle.std.specs.Prelude.{◌≡◌, ◌+◌, ◌*◌, ◌≤◌, [], ◌++◌, length, drop, IfOk, OnOk, OnErr};
ghost use Rattle.client_stream.specs.Frames.{body_size, has_frame, first_frame, behind_frame, left_of, is_in_body};

use dns_base::{NoMemory, Octets};
use std::alloc::Global;
use std::marker::Model;

/// Octets that came and that no frame has taken. Contracts see the list of them.
///
/// What was taken is dropped once it is more than what is left, so a large piece with many frames is
/// not moved for each of them.
#[derive(Drop)]
pub struct Framer {
    alloc: Global,
    kept: Vec<u8>,
    /// How many of the octets at the front were taken.
    taken: usize,
}

impl Model for Framer {
    ghost use Rattle.std.specs.Prelude.{List, ℕ, ◌+◌, ◌≤◌, length, drop};

    ghost Value = { List ℕ };

    ghost view = { λ f. drop f.taken f.kept.items };

    ghost invariant = { λ f. f.taken + f.taken ≤ length f.kept.items };
}

/// How many octets the frame has whose two octets of length stand first.
fn body_size(octets: &[u8]) -> usize
    requires { 2 ≤ length octets.now }
    ensures value { result ≡ body_size octets.now }
    ensures small { result ≤ 65535 }
{
    usize::from(octets[0]) * 256 + usize::from(octets[1])
}

/// Whether a whole frame stands first.
fn has_frame(octets: &[u8]) -> bool
    ensures { result ≡ has_frame octets.now }
{
    octets.len() >= 2 && 2 + body_size(octets) <= octets.len()
}

/// Where the octets begin that stand behind all whole frames.
fn left_from(octets: &[u8]) -> usize
    ensures within { result ≤ length octets.now }
    ensures value { drop result octets.now ≡ left_of octets.now }
{
    let mut at = 0;
    for _ in 0..octets.len() {
        let left = &octets[at..];
        if !has_frame(left) {
            return at;
        }
        at += 2 + body_size(left);
    }
    at
}

impl Framer {
    pub fn new(alloc: Global) -> Framer
        ensures { result ≡ [] }
    {
        Framer {
            alloc,
            kept: Vec::new(alloc),
            taken: 0,
        }
    }

    /// Appends what came. After want of memory nothing was appended.
    pub fn feed(&mut self, piece: &[u8]) -> Result<(), NoMemory>
        ensures ok { OnOk result (self.new ≡ self.old ++ piece.now) }
        ensures err { OnErr result (self.new ≡ self.old) }
    {
        match self.kept.extend_from_slice(piece) {
            Ok(()) => Ok(()),
            Err(_) => Err(NoMemory),
        }
    }

    /// Whether a whole frame stands first.
    pub fn has_frame(&self) -> bool
        ensures { result ≡ has_frame self.now }
    {
        has_frame(&self.kept[self.taken..])
    }

    /// Takes the first frame, if it is whole: the octets behind its two octets of length. After want of
    /// memory nothing was taken.
    pub fn next_frame(&mut self) -> Result<Option<Octets>, NoMemory>
        ensures frame { IfOk result (λ frame. frame ≡ first_frame self.old) }
        ensures rest { OnOk result (self.new ≡ behind_frame self.old) }
        ensures err { OnErr result (self.new ≡ self.old) }
    {
        let left = &self.kept[self.taken..];
        if !has_frame(left) {
            return Ok(None);
        }
        let end = 2 + body_size(left);
        let frame = Octets::from_slice(self.alloc, &left[2..end])?;
        self.drop_front(end);
        Ok(Some(frame))
    }

    /// Whether the octets end within a frame, behind its two octets of length.
    pub fn in_body(&self) -> bool
        ensures { result ≡ is_in_body self.now }
    {
        let left = &self.kept[self.taken..];
        left.len() - left_from(left) >= 2
    }

    /// Drops octets from the front.
    fn drop_front(&mut self, count: usize)
        requires { count ≤ length self.old }
        ensures { self.new ≡ drop count self.old }
    {
        let taken = self.taken + count;
        if taken > self.kept.len() - taken {
            let _ = self.kept.drain(..taken);
            self.taken = 0;
        } else {
            self.taken = taken;
        }
    }
}
