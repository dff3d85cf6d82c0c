//! What holds of every name.

ghost use Rattle.std.specs.Prelude.{◌≡◌, ◌<◌, ◌^◌, ℕ, slice_index, Ok};
ghost use Rattle.dns_names.specs.Laws.{NameLaws, TextLaws};
ghost use Rattle.dns_names.specs.Grammar.{GrammarLaws};
ghost use Rattle.dns_names.specs.Text.{name_of_text, relative_of_text, name_text, relative_text};

use crate::owned::Name;
use crate::relative::RelativeName;

/// The laws of reading a name in a message.
pub fn name_laws()
    ensures { NameLaws }
{}

/// The laws of the texts of names.
pub fn text_laws()
    ensures { TextLaws }
{}

/// A text is read as labels exactly where the grammar writes them so.
pub fn grammar_laws()
    ensures { GrammarLaws }
{}

/// What a name prints is read as that name.
pub fn name_is_read_back(name: &Name)
    ensures { name_of_text (name_text name.now) ≡ Ok name.now }
{
    are_octets(name.as_octets());
}

/// What a relative name prints is read as that name.
pub fn relative_name_is_read_back(name: &RelativeName)
    ensures { relative_of_text (relative_text name.now) ≡ Ok name.now }
{
    are_octets(name.as_absolute().as_octets());
}

/// Each octet is less than 256.
fn are_octets(octets: &[u8])
    ensures { (i : ℕ) → slice_index octets.now i < 2 ^ 8 }
{
    let _octets = octets;
}
