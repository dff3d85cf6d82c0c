//! The words of a text.

ghost use Rattle.std.specs.Prelude.{◌≡◌, ◌++◌, ◌∷◌, [], map, OnOk, string_bytes};
ghost use Rattle.dns_lookup_files.specs.Files.{is_comment, line_words, text_words};

use dns_values::NoMemory;
use std::alloc::Global;
use std::str;

/// Why words of a text were not had.
#[derive(Clone, Copy)]
pub(crate) enum TextFault {
    /// One is no text.
    NoText,
    /// Memory ran out.
    NoMemory,
}

impl From<NoMemory> for TextFault {
    ghost use Rattle.dns_lookup_files.specs.declared.text.TextFault.{TextFault};

    ghost from_gives = { λ _ e. e ≡ TextFault.NoMemory };

    fn from(_e: NoMemory) -> TextFault {
        TextFault::NoMemory
    }
}

/// Adds a word.
pub(crate) fn push_word(alloc: Global, word: &str, words: &mut Vec<String>) -> Result<(), NoMemory>
    ensures { OnOk result (map string_bytes words.new.items ≡ map string_bytes words.old.items ++ word.now ∷ []) }
{
    words.push(String::from_str(alloc, word)?)?;
    Ok(())
}

/// Whether a line has no words, whatever stands in it.
fn is_comment(line: &[u8]) -> bool
    ensures { result ≡ is_comment line.now }
{
    match line {
        [first, ..] => *first == b'#' || *first == b';',
        [] => false,
    }
}

/// Adds the words of a line.
fn push_line(alloc: Global, line: &[u8], words: &mut Vec<String>) -> Result<(), TextFault>
    ensures { OnOk result (map string_bytes words.new.items ≡ map string_bytes words.old.items ++ line_words line.now) }
{
    if is_comment(line) {
        return Ok(());
    }
    for word in line.split(|octet| octet.is_ascii_whitespace()) {
        if word.is_empty() {
            continue;
        }
        let Ok(text) = str::from_utf8(word) else {
            return Err(TextFault::NoText);
        };
        push_word(alloc, text, words)?;
    }
    Ok(())
}

/// Adds the words of a text, line by line.
pub(crate) fn push_text(
    alloc: Global,
    text: &[u8],
    words: &mut Vec<String>,
) -> Result<(), TextFault>
    ensures { OnOk result (map string_bytes words.new.items ≡ map string_bytes words.old.items ++ text_words text.now) }
{
    for line in text.split(|octet| *octet == b'\n') {
        push_line(alloc, line, words)?;
    }
    Ok(())
}
