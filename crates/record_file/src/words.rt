//! The words that name the file of a record.

ghost use Rattle.std.specs.Prelude.{◌≡◌, option_copied};
ghost use Rattle.record_file.specs.Words.{file_said, words_behind};

/// The name of the file to which it is to be recorded, where the words begin with `--record FILE`, and the words behind that.
#[tactic(auto, unfolding(crate::specs::Words::file_said, crate::specs::Words::words_behind))]
pub fn record_of(words: &[String]) -> (Option<&str>, &[String])
    ensures file { option_copied result.0 ≡ file_said words.now }
    ensures behind { result.1.now ≡ words_behind words.now }
{
    match words {
        [option, file, behind @ ..] => {
            if option.as_str() == "--record" {
                (Some(file.as_str()), behind)
            } else {
                (None, words)
            }
        }
        _ => (None, words),
    }
}
