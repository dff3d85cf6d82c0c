//! The lines of a text, and the words of a line.

ghost use Rattle.std.specs.Prelude.{◌≡◌, ◌<◌, ◌==◌, [], ◌∷◌, length, position, MatchOption, OnSome};
ghost use Rattle.std.specs.Str.Iter.{split_whitespace_rest};
ghost use Rattle.resolv_conf.specs.Words.{lines_of, words_of};

use std::str::SplitWhitespace;

/// Where the first line feed stands.
fn line_end(text: &[u8]) -> Option<usize>
    ensures { result ≡ position (λ c. c == 10) text.now }
{
    text.iter().position(|octet| *octet == b'\n')
}

/// The first line, without its line feed, and the text behind it.
pub(crate) fn split_line(text: &[u8]) -> (&[u8], &[u8])
    requires { 0 < length text.now }
    ensures first { lines_of text.now ≡ result.0.now ∷ lines_of result.1.now }
    ensures shorter { length result.1.now < length text.now }
{
    match line_end(text) {
        Some(end) => (&text[..end], &text[end + 1..]),
        None => (text, &[]),
    }
}

/// The next word.
pub(crate) fn next_word<'a>(words: &mut SplitWhitespace<'a>) -> Option<&'a str>
    ensures word { MatchOption result (words_of (split_whitespace_rest words.old) ≡ [])
        (λ word. words_of (split_whitespace_rest words.old) ≡ word.now ∷ words_of (split_whitespace_rest words.new)) }
    ensures shorter { OnSome result (length (split_whitespace_rest words.new) < length (split_whitespace_rest words.old)) }
{
    words.next()
}
