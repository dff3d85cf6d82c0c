//! Words have 64 bits, whichever come.

ghost use Rattle.client_request.specs.Words.{listed};
ghost use Rattle.proof_client.specs.Above.{AreWords};

/// Each word of a list has 64 bits, and so has the 0 that comes past its end.
pub(crate) fn words_are_short(words: &[u64])
    ensures { AreWords (listed words.now) }
{
    for word in words {
        let _value = *word;
    }
}
