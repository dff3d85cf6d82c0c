//! Names from text: labels with dots between, and octets that a backslash writes.

ghost use Rattle.std.specs.Prelude.{◌≡◌, ◌<◌, ◌++◌, [], ◌∷◌, List, Option, Some, None, option_map, option_and_then, length, OnOk, IfSome, IfErr, MatchResult, MatchOption, IsTrue, Bool};
ghost use Rattle.std.specs.List.{onto_first};
ghost use Rattle.dns_names.specs.Name.{Labels};
ghost use Rattle.dns_names.specs.Text.{cut_text, escaped, numbered, name_of_text, relative_of_text, judged, full, Gives, is_digit, is_printable, is_dot};
ghost use Rattle.dns_names.specs.Draft.{after_first, after_octet};

use crate::draft::Draft;
use crate::fault::NameFault;
use crate::owned::Name;
use crate::relative::RelativeName;
use std::alloc::Global;

/// What stands at the head of a text.
#[derive(Clone, Copy)]
pub(crate) enum Piece {
    Dot,
    Octet(u8),
}

fn is_digit(c: u8) -> bool
    ensures { result ≡ is_digit c }
{
    b'0' <= c && c <= b'9'
}

fn is_printable(c: u8) -> bool
    ensures { result ≡ is_printable c }
{
    b' ' <= c && c <= b'~'
}

/// The piece at the head of a text, and the text behind it.
#[tactic(auto, unfolding(crate::specs::Text::cut_text))]
pub(crate) fn first_piece(text: &[u8]) -> Option<(Piece, &[u8])>
    requires { 0 < length text.now }
    ensures value { cut_text text.now ≡ after_first result }
    ensures shorter { IfSome result (λ r. length r.1.now < length text.now) }
{
    match text {
        [b'\\', rest @ ..] => {
            let (octet, behind) = escaped_octet(rest)?;
            Some((Piece::Octet(octet), behind))
        }
        [b'.', rest @ ..] => Some((Piece::Dot, rest)),
        [c, rest @ ..] if is_printable(*c) => Some((Piece::Octet(*c), rest)),
        _ => None,
    }
}

/// The octet that is written behind a backslash, and the text behind it.
#[tactic(auto, unfolding(crate::specs::Text::escaped))]
fn escaped_octet(text: &[u8]) -> Option<(u8, &[u8])>
    ensures value { escaped text.now ≡ after_octet result }
    ensures shorter { IfSome result (λ r. length r.1.now < length text.now) }
{
    match text {
        [c, rest @ ..] if is_digit(*c) => numbered_octet(*c, rest),
        [c, rest @ ..] if is_printable(*c) => Some((*c, rest)),
        _ => None,
    }
}

/// The octet that three digits write, of which the first is known, and the text behind it.
#[tactic(auto, unfolding(crate::specs::Text::numbered))]
fn numbered_octet(first: u8, text: &[u8]) -> Option<(u8, &[u8])>
    requires { IsTrue (is_digit first) }
    ensures value { numbered first text.now ≡ after_octet result }
    ensures shorter { IfSome result (λ r. length r.1.now < length text.now) }
{
    match text {
        [b, c, rest @ ..] if is_digit(*b) && is_digit(*c) => {
            let n = (first - b'0') as u16 * 100 + (*b - b'0') as u16 * 10 + (*c - b'0') as u16;
            if n > 255 {
                return None;
            }
            Some((n as u8, rest))
        }
        _ => None,
    }
}

fn is_dot(text: &[u8]) -> bool
    ensures { result ≡ is_dot text.now }
{
    matches!(text, [b'.'])
}

fn read_name(alloc: Global, text: &[u8]) -> Result<Name, NameFault>
    ensures { Gives (name_of_text text.now) result }
{
    if text.is_empty() {
        return Err(NameFault::Parse);
    }
    if is_dot(text) {
        return Ok(Name::root(alloc));
    }
    let mut draft = Draft::read(alloc, text)?;
    // a final dot leaves an empty label, which is none
    if !draft.label.is_empty() {
        draft.end_label()?;
    }
    draft.finish()
}

fn read_relative(alloc: Global, text: &[u8]) -> Result<RelativeName, NameFault>
    ensures { Gives (relative_of_text text.now) result }
{
    if text.is_empty() {
        return Ok(RelativeName::empty(alloc));
    }
    let mut draft = Draft::read(alloc, text)?;
    draft.end_label()?;
    let absolute = draft.finish()?;
    Ok(RelativeName::without_root(absolute))
}

impl Name {
    /// Reads labels of printable ASCII with dots between. A dot or a backslash of a label stands
    /// behind a backslash, as any other printable character may that is no digit; a backslash and
    /// three digits are the octet of that number, up to 255. A final dot may be left out, and a
    /// dot alone is the root. `Parse` for any other text, the empty one too, and else `Long` where
    /// a label passes 63 octets or the name 255.
    pub fn from_text(alloc: Global, text: &str) -> Result<Name, NameFault>
        ensures { Gives (name_of_text text.now) result }
    {
        read_name(alloc, text.as_bytes())
    }
}

impl RelativeName {
    /// Reads labels as `Name::from_text` does, without a final dot; the empty text is the empty
    /// name. `Parse` for any other text, and else `Long` where a label passes 63 octets or the name
    /// 254.
    pub fn from_text(alloc: Global, text: &str) -> Result<RelativeName, NameFault>
        ensures { Gives (relative_of_text text.now) result }
    {
        read_relative(alloc, text.as_bytes())
    }
}
