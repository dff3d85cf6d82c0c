//! Words that were drawn ahead.

ghost use Rattle.std.specs.Prelude.{◌≡◌, length, Some, None};
ghost use Rattle.client_request.specs.Words.{listed, listed-told};

use client_request::{ListWords, WordList, Words};
use std::marker::Model;

/// The words of a list, and 0 past its end, with a count of those that are left.
#[derive(Drop)]
pub struct Block {
    words: ListWords,
    /// How many of the words are left.
    left: usize,
}

impl Model for Block {
    ghost use Rattle.client_request.specs.Words.{WordsLeft};
    ghost use Rattle.std.specs.Prelude.{◌≡◌, length};

    ghost Value = { WordsLeft };

    ghost view = { λ b. b.words };

    ghost invariant = { λ b. b.left ≡ length b.words.items };
}

impl Block {
    /// A block of these words.
    pub fn new(words: WordList) -> Block
        ensures { result.items ≡ words }
    {
        let left = words.len();
        Block {
            words: ListWords::new(words),
            left,
        }
    }

    /// How many words are left.
    pub fn left(&self) -> usize
        ensures { result ≡ length self.now.items }
    {
        self.left
    }
}

impl Words for Block {
    ghost stream = { λ b. listed b.items };

    ghost left = { λ b. Some b.items };

    ghost given = { λ _. None };

    #[tactic(auto, using(crate::proofs::Counting::one_less))]
    fn next(&mut self) -> u64 {
        self.left = self.left.saturating_sub(1);
        self.words.next()
    }

    ghost told = { listed-told };

    ghost words_fit = { λ b. b.fit };
}
