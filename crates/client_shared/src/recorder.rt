//! Words that are kept as they are given.

ghost use Rattle.std.specs.Prelude.{◌≡◌, true, IfOk, None};
ghost use Rattle.client_shared.specs.Drawn.{Continues};

use client_request::{WordList, Words};
use dns_base::NoMemory;
use std::alloc::Global;
use std::marker::{Brand, PhantomData};

/// The words that come when a recorder begins. Each call picks them.
pub(crate) trait Beginning {
    ghost use Rattle.std.specs.Prelude.{ℕ};

    ghost words: { ℕ → ℕ };
}

impl Beginning for Brand {
    ghost words = { λ _. 0 };
}

/// Gives the words of another source, and keeps them. Where it finds no memory for one, it goes on giving and keeps no more.
#[derive(Drop)]
pub(crate) struct Recorder<B: Beginning, W: Words> {
    words: W,
    taken: WordList,
    whole: bool,
    of: PhantomData<B>,
    ghost kept: { whole ≡ true → Continues B.words taken (W.stream words) },
}

impl<B: Beginning, W: Words> Recorder<B, W> {
    pub(crate) fn new(alloc: Global, words: W) -> Recorder<B, W>
        requires { B.words ≡ W.stream words }
        ensures { result.words ≡ words }
    {
        Recorder {
            words,
            taken: WordList::new(alloc),
            whole: true,
            of: PhantomData,
        }
    }

    /// The source as it was left, and the words that it gave.
    pub(crate) fn finish(self) -> (W, Result<WordList, NoMemory>)
        ensures words { result.0 ≡ self.words }
        ensures taken { IfOk result.1 (λ taken. Continues B.words taken (W.stream self.words)) }
    {
        let Recorder {
            words,
            taken,
            whole,
            of: _,
        } = self;
        if whole {
            (words, Ok(taken))
        } else {
            (words, Err(NoMemory))
        }
    }
}

impl<B: Beginning, W: Words> Words for Recorder<B, W> {
    ghost stream = { λ r. W.stream r.words };

    ghost left = { λ r. W.left r.words };

    ghost given = { λ _. None };

    fn next(&mut self) -> u64 {
        let word = self.words.next();
        if self.whole {
            match self.taken.push(word) {
                Ok(()) => {}
                Err(_) => self.whole = false,
            }
        }
        word
    }

    ghost told = { λ r ws is. W.told r.words ws is };

    ghost words_fit = { λ r. W.words_fit r.words };
}
