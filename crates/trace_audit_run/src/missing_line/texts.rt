//! What is added to a text.

ghost use Rattle.std.specs.Prelude.{◌≡◌, ◌++◌, OnOk};
ghost use Rattle.std.specs.Fmt.{decimal};

use dns_base::NoMemory;
use std::alloc::Global;

/// Adds words.
pub(crate) fn push_words(text: &mut Vec<u8>, words: &str) -> Result<(), NoMemory>
    ensures { OnOk result (text.new.items ≡ text.old.items ++ words.now) }
{
    text.extend_from_slice(words.as_bytes())?;
    Ok(())
}

/// Adds words, and a number behind them.
pub(crate) fn push_number(
    alloc: Global,
    text: &mut Vec<u8>,
    words: &str,
    number: u64,
) -> Result<(), NoMemory>
    ensures { OnOk result (text.new.items ≡ text.old.items ++ words.now ++ decimal number) }
{
    push_words(text, words)?;
    let digits = format!(in alloc; "{number}")?;
    push_words(text, digits.as_str())
}
