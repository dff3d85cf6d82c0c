//! Names that own their octets, and what has the labels of a name.

ghost use Rattle.std.specs.Prelude.{◌≡◌, ◌↔◌, ◌<◌, ◌++◌, [], ◌∷◌, length, IfOk, OnErr, OnOk, IsTrue, Bool, true, fold, map};
ghost use Rattle.std.specs.Char.{to_ascii_lowercase};
ghost use Rattle.std.specs.Hash as fed;
ghost use Rattle.dns_names.specs.NameHash.{name_hash, same_hash};
ghost use Rattle.dns_names.specs.Name.{Labels, labels_at, lowered, same_name, spelling, IsLegal, IsOwn, Spells};
ghost use Rattle.std.proofs.Common.{rules};
ghost use Rattle.std.specs.Cmp.Rules.{comparing};

use crate::name::{LabelIter, ParsedName};
use dns_values::NoMemory;
use std::alloc::{AllocError, Global};
use std::hash::{Hash, Hasher};
use std::marker::Model;

/// The octets of the root.
static ROOT: [u8; 1] = [0];

/// A name that owns its octets, uncompressed; none for the root.
#[derive(Debug)]
pub struct Name {
    octets: Vec<u8>,
}

impl Drop for Name {
    fn drop(self) {
        let Name { octets: _ } = self;
    }
}

impl Model for Name {
    ghost Value = { Labels };

    ghost view = { λ n. labels_at n.octets.items 0 };

    ghost invariant = { λ n. IsOwn n.octets.items };
}

impl Name {
    /// The name with no labels. It takes no memory.
    pub fn root(alloc: Global) -> Name
        ensures { result ≡ [] }
    {
        Name {
            octets: Vec::new(alloc),
        }
    }

    /// Whether it has no labels.
    pub fn is_root(&self) -> bool
        ensures { IsTrue result ↔ (self.now ≡ []) }
    {
        self.as_octets().len() == 1
    }

    /// Its octets uncompressed, with the root's (RFC 1035 3.1).
    pub fn as_octets(&self) -> &[u8]
        ensures octets { result.now ≡ spelling self.now }
        ensures legal { IsLegal self.now }
    {
        if self.octets.is_empty() {
            &ROOT
        } else {
            &self.octets
        }
    }

    /// The name that these octets spell.
    pub(crate) fn from_spelling(octets: Vec<u8>) -> Name
        requires { Spells octets.items }
        ensures { (labels : Labels) → IsLegal labels → octets.items ≡ spelling labels → result ≡ labels }
    {
        Name { octets }
    }

    /// The same name.
    pub fn try_clone(&self, alloc: Global) -> Result<Name, NoMemory>
        ensures { IfOk result (λ n. n ≡ self.now) }
    {
        let mut octets = Vec::new(alloc);
        octets.extend_from_slice(self.as_octets())?;
        Ok(Name { octets })
    }

    /// Becomes the same name with its ASCII letters in lower case (RFC 4343 3.2).
    pub fn lower(&mut self)
        ensures { self.new ≡ lowered self.old }
    {
        self.octets.make_ascii_lowercase();
    }

    /// Becomes the name that these octets spell uncompressed, with the root's (RFC 1035 3.1).
    ///
    /// It takes memory only where it has room for fewer octets. After `NoMemory` it is the root.
    pub fn respell(&mut self, octets: &[u8]) -> Result<(), NoMemory>
        requires { Spells octets.now }
        ensures spelled { OnOk result (spelling self.new ≡ octets.now) }
        ensures named { OnOk result ((labels : Labels) → IsLegal labels → octets.now ≡ spelling labels → self.new ≡ labels) }
        ensures no_memory { OnErr result (self.new ≡ []) }
    {
        self.octets.clear();
        self.octets.extend_from_slice(octets)?;
        Ok(())
    }
}

/// What has the labels of a name.
pub trait ToName {
    ghost labels_of: { Self → Labels };

    /// Its labels as they are read.
    fn parsed(&self) -> ParsedName<'_>
        ensures { result ≡ labels_of self.now };

    /// The same labels, owned.
    fn to_name(&self, alloc: Global) -> Result<Name, NoMemory>
        ensures { IfOk result (λ n. n ≡ labels_of self.now) };
}

impl<'a> ToName for ParsedName<'a> {
    ghost labels_of = { λ n. n };

    fn parsed(&self) -> ParsedName<'_> {
        self.again()
    }

    fn to_name(&self, alloc: Global) -> Result<Name, NoMemory> {
        owned(alloc, self)
    }
}

impl ToName for Name {
    ghost labels_of = { λ n. n };

    fn parsed(&self) -> ParsedName<'_> {
        ParsedName::at_start(self.as_octets())
    }

    fn to_name(&self, alloc: Global) -> Result<Name, NoMemory> {
        self.try_clone(alloc)
    }
}

/// For how many octets there is room at first. Most names have fewer.
const USUAL: usize = 32;

/// Adds a label behind its length.
pub(crate) fn push_label(octets: &mut Vec<u8>, label: &[u8]) -> Result<(), AllocError>
    requires { length label.now < 64 }
    ensures { OnOk result (octets.new.items ≡ octets.old.items ++ (length label.now ∷ label.now)) }
{
    octets.push(label.len() as u8)?;
    octets.extend_from_slice(label)
}

fn owned(alloc: Global, name: &ParsedName<'_>) -> Result<Name, NoMemory>
    ensures { IfOk result (λ n. n ≡ name.now) }
{
    let mut octets = Vec::with_capacity(alloc, USUAL)?;
    for label in name.labels() {
        push_label(&mut octets, label)?;
    }
    octets.push(0)?;
    Ok(Name { octets })
}

/// Whether two names are the same, but for case.
pub fn is_same_name(a: &ParsedName<'_>, b: &ParsedName<'_>) -> bool
    ensures { result ≡ same_name a.now b.now }
{
    are_same_labels(a.labels(), b.labels())
}

/// Whether the labels that are left of two names are the same, but for case.
pub fn are_same_labels(mut left: LabelIter<'_>, mut right: LabelIter<'_>) -> bool
    ensures { result ≡ same_name left.entry right.entry }
{
    'labels: loop {
        match left.next() {
            None => return right.next().is_none(),
            Some(x) => match right.next() {
                None => return false,
                Some(y) => {
                    if !x.eq_ignore_ascii_case(y) {
                        return false;
                    }
                }
            },
        }
    }
}

impl PartialEq for Name {
    ghost eq = { same_name };

    ghost laws = { Prim.search (comparing, rules) };

    fn eq(&self, other: &Name) -> bool {
        is_same_name(&self.parsed(), &other.parsed())
    }
}

impl Eq for Name {
    ghost laws = { Prim.search (comparing, rules) };
}

impl Hash for Name {
    ghost hash_input = { name_hash };

    ghost respects_eq = { same_hash };

    fn hash<H: Hasher>(&self, state: &mut H) {
        hash_name(&self.parsed(), state);
    }
}

fn hash_name<H: Hasher>(name: &ParsedName<'_>, state: &mut H)
    ensures { state.new ≡ fold H.write state.old (name_hash name.now) }
{
    for label in name.labels() {
        hash_label(label, state);
    }
}

fn hash_label<H: Hasher>(label: &[u8], state: &mut H)
    ensures { state.new ≡ fold H.write state.old (fed.slice fed.u8 (map to_ascii_lowercase label.now)) }
{
    state.write_usize(label.len());
    for octet in label {
        state.write_u8(octet.to_ascii_lowercase());
    }
}
