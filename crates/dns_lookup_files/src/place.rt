//! Where a word stands among words.

ghost use Rattle.std.specs.Prelude.{◌≡◌, ◌<◌, option_copied};
ghost use Rattle.dns_lookup_files.specs.Files.{behind, behind_option, file_named, file_text, glued_file, is_kept, place_behind};

/// What a word may be, by those before it.
#[derive(Clone, Copy, Debug, PartialEq, Eq)]
pub enum Place {
    /// An option, a server, or any other word.
    Free,
    /// The value of the option before it.
    Value,
    /// The name of a file, which stands behind `-f`.
    File,
    /// No option and no server: `--` stands before it.
    Ended,
}

/// The text behind a sign of ASCII that stands first.
#[tactic(auto, using(std::proofs::lemmas::Str::Pattern::strip_prefix_char))]
fn behind(sign: char, word: &str) -> Option<&str>
    requires { sign < 128 }
    ensures { option_copied result ≡ behind sign word.now }
{
    word.strip_prefix(sign)
}

/// What the word behind one may be that may be an option.
#[tactic(auto, unfolding(crate::specs::Files::behind_option))]
fn behind_option(word: &str) -> Place
    ensures { result ≡ behind_option word.now }
{
    match word {
        "--" => Place::Ended,
        "-f" => Place::File,
        "-q" | "-t" | "-c" | "-p" | "-x" => Place::Value,
        _ => Place::Free,
    }
}

/// What stands behind the `-f` that a word begins with.
fn file_text(word: &str) -> Option<&str>
    ensures { option_copied result ≡ file_text word.now }
{
    match behind('-', word) {
        Some(letters) => behind('f', letters),
        None => None,
    }
}

impl Place {
    /// What the word behind this one may be.
    pub fn behind(self, word: &str) -> Place
        ensures { result ≡ place_behind self word.now }
    {
        match self {
            Place::Free => behind_option(word),
            Place::Value | Place::File => Place::Free,
            Place::Ended => Place::Ended,
        }
    }

    /// The file that a word here names.
    pub(crate) fn file_named(self, word: &str) -> Option<&str>
        ensures { option_copied result ≡ file_named self word.now }
    {
        match self {
            Place::Free => match file_text(word) {
                Some("") => None,
                Some(name) => Some(name),
                None => None,
            },
            Place::File => Some(word),
            Place::Value | Place::Ended => None,
        }
    }

    /// Whether a word here is neither the name of a file nor `-f`.
    pub(crate) fn is_kept(self, word: &str) -> bool
        ensures { result ≡ is_kept self word.now }
    {
        match self {
            Place::Free => file_text(word).is_none(),
            Place::File => false,
            Place::Value | Place::Ended => true,
        }
    }
}
