//! The words of a line, and the numbers that they write.

ghost use Rattle.std.specs.Prelude.{◌≡◌, [], ◌∷◌, MatchOption};
ghost use Rattle.std.specs.Str.Iter.{split_whitespace_rest};
ghost use Rattle.resolv_conf.specs.Words.{words_of};
ghost use Rattle.resolv_conf.specs.Number.{number_of};

use std::str::SplitWhitespace;

/// The next word.
pub(crate) fn next_word<'a>(words: &mut SplitWhitespace<'a>) -> Option<&'a str>
    ensures { MatchOption result (words_of (split_whitespace_rest words.old) ≡ [])
        (λ word. words_of (split_whitespace_rest words.old) ≡ word.now ∷ words_of (split_whitespace_rest words.new)) }
{
    words.next()
}

/// The number that a text writes, where a plus may stand first.
#[tactic(auto, using(crate::proofs::Numbers::number_is))]
pub(crate) fn number(text: &str) -> Option<usize>
    ensures { result ≡ number_of text.now }
{
    text.parse::<usize>().ok()
}
