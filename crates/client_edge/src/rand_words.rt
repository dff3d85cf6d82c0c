//! Random words of a generator.

ghost use Rattle.std.specs.Prelude.{◌≡◌, None};
ghost use Rattle.client_request.specs.Words.{rest_of};
ghost use Rattle.client_edge.specs.RandWords.{words_of, words-fit, words-told};

use client_request::Words;
use rand::Rng;
use std::marker::Model;

/// The generator's next word.
fn draw<R: Rng>(generator: &mut R) -> u64
    ensures word { result ≡ words_of (R.stream generator.old) 0 }
    ensures rest { words_of (R.stream generator.new) ≡ rest_of (words_of (R.stream generator.old)) }
{
    generator.next_u64()
}

/// The words of a generator, which are a function of its state.
///
/// Nobody can tell the next word where the system seeds the generator and it is made for secrets:
/// `RandWords::new(rand::make_rng::<StdRng, _>(&rt)?)`.
#[derive(Drop)]
pub struct RandWords<R: Rng + Drop> {
    generator: R,
}

impl<R: Rng + Drop> Model for RandWords<R> {
    ghost Value = { R };

    ghost view = { λ w. w.generator };
}

impl<R: Rng + Drop> RandWords<R> {
    /// The words that this generator gives from now on.
    pub fn new(generator: R) -> RandWords<R>
        ensures { result ≡ generator }
    {
        RandWords { generator }
    }
}

impl<R: Rng + Drop> Words for RandWords<R> {
    ghost stream = { λ w. words_of (R.stream w) };

    ghost left = { λ _. None };

    ghost given = { λ _. None };

    fn next(&mut self) -> u64 {
        draw(&mut self.generator)
    }

    ghost told = { λ w. words-told (R.stream w) };

    ghost words_fit = { λ w. words-fit (R.stream w) };
}
