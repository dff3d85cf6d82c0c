//! What is asked of a program about itself.

ghost use Rattle.std.specs.Prelude.{◌≡◌};
ghost use Rattle.program_words.specs.Pages as spec;

/// What a program tells of itself.
#[derive(Clone, Copy, Debug, PartialEq, Eq)]
pub enum Page {
    /// Its words and statuses.
    Help,
    /// Its release.
    Version,
}

/// What a word asks for.
#[tactic(auto, unfolding(crate::specs::Pages::page_of))]
fn page_of(word: &str) -> Option<Page>
    ensures { result ≡ spec.page_of word.now }
{
    match word {
        "--help" => Some(Page::Help),
        "--version" => Some(Page::Version),
        _ => None,
    }
}

/// What the words of a command line ask a program to tell of itself: `--help` or `--version`, alone.
pub fn page_asked(words: &[String]) -> Option<Page>
    ensures { result ≡ spec.page_asked words.now }
{
    match words {
        [word] => page_of(word.as_str()),
        _ => None,
    }
}
