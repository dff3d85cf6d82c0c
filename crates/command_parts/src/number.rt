//! Numbers among the words of a command line.

ghost use Rattle.std.specs.Prelude.{◌≡◌, ◌≤◌, IfSome};
ghost use Rattle.command_parts.specs.Numbers.{is_plain, number_in};

use dns_values::decimal_number;

/// Whether no zero stands before more.
fn is_plain(word: &[u8]) -> bool
    ensures { result ≡ is_plain word.now }
{
    match word {
        [] | [_] => true,
        [first, ..] => *first != b'0',
    }
}

/// The number from the least to the greatest that a text writes in decimal, without a sign or a leading zero.
pub fn number_in(least: u64, greatest: u64, text: &str) -> Option<u64>
    ensures value { result ≡ number_in least greatest text.now }
    ensures range { IfSome result (λ n. (least ≤ n) × (n ≤ greatest)) }
{
    let word = text.as_bytes();
    if !is_plain(word) {
        return None;
    }
    let number = decimal_number(greatest, word)?;
    if number < least { None } else { Some(number) }
}
