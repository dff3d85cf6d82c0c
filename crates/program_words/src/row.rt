//! Tables of options.

ghost use Rattle.std.specs.Prelude.{◌≡◌};
ghost use Rattle.program_words.specs.Rows as spec;

/// How much of an option's name a word must have.
#[derive(Clone, Copy)]
pub enum Letters {
    /// All of it, as it stands.
    Whole,
    /// At least so many of its first letters, in any case.
    First(usize),
}

/// The name of an option, how much of it a word must have, and what the option says.
pub type Row<S> = (&'static str, Letters, S);

/// Whether a text is a name cut short, in any case, and has letters enough.
fn is_short_for(least: usize, name: &str, text: &[u8]) -> bool
    ensures { result ≡ spec.is_short_for least name.now text.now }
{
    least <= text.len()
        && text.len() <= name.len()
        && name.as_bytes()[..text.len()].eq_ignore_ascii_case(text)
}

/// Whether a text stands for a name.
fn is_for(letters: Letters, name: &str, text: &[u8]) -> bool
    ensures { result ≡ spec.is_for letters name.now text.now }
{
    match letters {
        Letters::Whole => name.as_bytes() == text,
        Letters::First(least) => is_short_for(least, name, text),
    }
}

/// What the first row of a table says for whose name a text stands.
pub fn said_in<S: Copy>(rows: &[Row<S>], text: &[u8]) -> Option<S>
    ensures { result ≡ spec.said_in (spec.told rows.now) text.now }
{
    for row in rows {
        if is_for(row.1, row.0, text) {
            return Some(row.2);
        }
    }
    None
}
