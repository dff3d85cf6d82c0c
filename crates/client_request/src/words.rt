//! Random words, one after another.

ghost use Rattle.std.specs.Prelude.{◌≡◌, ℕ, ◌+◌, ◌^◌, ◌<◌, List, Option, Some, drop, option_map, slice_index, ◌++◌, ◌∷◌, [], None};
ghost use Rattle.client_request.specs.Words.{rest_of, IsGivenOn, listed, listed-told};

use dns_base::Seq;
use std::marker::Model;

/// Words, in order.
pub type WordList = Seq<u64>;

/// A source of words of 64 bits.
///
/// `stream` is what it gives from now on. Where it knows the list that is left, it tells it, and
/// gives 0 past its end. Where it knows the words given so far, it tells these.
pub trait Words {
    ghost stream: { Self → ℕ → ℕ };

    ghost left: { Self → Option (List ℕ) };

    ghost given: { Self → Option (List ℕ) };

    /// The next word.
    fn next(&mut self) -> u64
        ensures word { result ≡ stream self.old 0 }
        ensures rest { stream self.new ≡ rest_of (stream self.old) }
        ensures left { left self.new ≡ option_map (drop 1) (left self.old) }
        ensures given { IsGivenOn (given self.old) (given self.new) result };

    /// The list that is left is what comes, with 0 past its end.
    ghost told: { (w : Self) (ws : List ℕ) → left w ≡ Some ws → (k : ℕ) → stream w k ≡ slice_index ws k };

    /// Each word has 64 bits, whether it was drawn or not.
    ghost words_fit: { (w : Self) (k : ℕ) → stream w k < 2 ^ 64 };
}

/// The words of a list, and 0 past its end.
#[derive(Drop)]
pub struct ListWords {
    words: WordList,
    next: usize,
}

impl Model for ListWords {
    ghost use Rattle.client_request.specs.Words.{WordsLeft, words_from};

    ghost Value = { WordsLeft };

    ghost view = { λ w. words_from w.next w.words };
}

/// Each word has 64 bits, and so has the 0 past their end.
fn words_fit(words: &[u64])
    ensures { (k : ℕ) → slice_index words.now k < 2 ^ 64 }
{
    let _words = words;
}

impl ListWords {
    /// The words of this list, from its first on.
    pub fn new(words: WordList) -> ListWords
        ensures { result.items ≡ words }
    {
        words_fit(words.as_slice());
        ListWords { words, next: 0 }
    }
}

impl Words for ListWords {
    ghost stream = { λ w. listed w.items };

    ghost left = { λ w. Some w.items };

    ghost given = { λ _. None };

    fn next(&mut self) -> u64 {
        match self.words.as_slice().get(self.next) {
            None => 0,
            Some(word) => {
                let word = *word;
                self.next += 1;
                word
            }
        }
    }

    ghost told = { listed-told };

    ghost words_fit = { λ w. w.fit };
}
