//! Words that ask for zones to be kept.

ghost use Rattle.std.specs.Prelude.{◌≡◌, IfOk};
ghost use Rattle.std.specs.String.{string_bytes};
ghost use Rattle.zone_refresh_run.specs.Words as spec;

use command_parts::number_in;
use dns_base::NoMemory;
use std::alloc::Global;
use zone_fetch_run::MOST;

/// How the zones of a list are kept.
#[derive(Clone, Copy, Debug, PartialEq, Eq)]
pub struct KeptForm {
    /// Whether their files are to be in the form that name servers load.
    pub text: bool,
    /// How much memory a zone may be reckoned to take, in octets.
    pub most: u64,
}

/// Why words that ask for zones to be kept are no command.
#[derive(Clone, Copy, Debug, PartialEq, Eq)]
pub enum UnkeptList {
    /// No list stands behind `--refresh`.
    NoList,
    /// A word stands behind the list.
    More,
}

/// What options say so far.
#[derive(Clone, Copy)]
struct Options {
    form: KeptForm,
    /// Whether the next word is the value of `--most`.
    most_is_next: bool,
}

/// What an option of such words is.
#[derive(Clone, Copy)]
enum FrontWord {
    Refresh,
    Text,
    Most,
    Other,
}

/// What a word leads to.
#[derive(Clone, Copy)]
enum Lead {
    /// The next word, where options say this.
    On(Options),
    /// The list.
    ToList,
    /// Nothing: the words ask for something else.
    Astray,
}

#[tactic(auto, unfolding(crate::specs::Words::front_of))]
fn front_of(word: &str) -> FrontWord
    ensures { result ≡ spec.front_of word.now }
{
    match word {
        "--refresh" => FrontWord::Refresh,
        "--text" => FrontWord::Text,
        "--most" => FrontWord::Most,
        _ => FrontWord::Other,
    }
}

/// What the value of `--most` leads to. One that is no number is for who reads the words of a fetch.
fn lead_of_most(word: &str, form: KeptForm) -> Lead
    ensures { result ≡ spec.lead_of_most word.now form }
{
    match number_in(0, u64::MAX, word) {
        Some(most) => Lead::On(Options {
            form: KeptForm {
                text: form.text,
                most,
            },
            most_is_next: false,
        }),
        None => Lead::Astray,
    }
}

/// What a word leads to that is an option, or none.
fn lead_of_option(word: &str, form: KeptForm) -> Lead
    ensures { result ≡ spec.lead_of_option word.now form }
{
    match front_of(word) {
        FrontWord::Refresh => Lead::ToList,
        FrontWord::Text => Lead::On(Options {
            form: KeptForm {
                text: true,
                most: form.most,
            },
            most_is_next: false,
        }),
        FrontWord::Most => Lead::On(Options {
            form,
            most_is_next: true,
        }),
        FrontWord::Other => Lead::Astray,
    }
}

/// What a word leads to, where options say this so far.
fn lead_of(word: &str, said: Options) -> Lead
    ensures { result ≡ spec.lead_of word.now said }
{
    if said.most_is_next {
        lead_of_most(word, said.form)
    } else {
        lead_of_option(word, said.form)
    }
}

/// What stands behind `--refresh`.
fn list_in(behind: &[String], form: KeptForm) -> Result<KeptForm, UnkeptList>
    ensures { result ≡ spec.list_in behind.now form }
{
    match behind {
        [] => Err(UnkeptList::NoList),
        [_] => Ok(form),
        _ => Err(UnkeptList::More),
    }
}

/// What words say, where options before them say this.
fn asked_behind(words: &[String], said: Options) -> Option<Result<KeptForm, UnkeptList>>
    ensures { result ≡ spec.asked_behind words.now said }
{
    match words {
        [] => None,
        [word, rest @ ..] => match lead_of(word.as_str(), said) {
            Lead::On(next) => asked_behind(rest, next),
            Lead::ToList => Some(list_in(rest, said.form)),
            Lead::Astray => None,
        },
    }
}

/// What words say of zones that are to be kept, `[--text] [--most OCTETS] --refresh LIST`. None where they ask for something else.
pub fn refresh_asked(words: &[String]) -> Option<Result<KeptForm, UnkeptList>>
    ensures { result ≡ spec.refresh_asked words.now }
{
    let form = KeptForm {
        text: false,
        most: MOST,
    };
    asked_behind(
        words,
        Options {
            form,
            most_is_next: false,
        },
    )
}

/// The last of words, or none at all.
pub(crate) fn last_word(words: &[String]) -> &str
    ensures { result.now ≡ spec.last_word words.now }
{
    match words.get(words.len().saturating_sub(1)) {
        Some(word) => word.as_str(),
        None => "",
    }
}

/// The sentence that tells why words are no command.
pub(crate) fn unkept_sentence(
    alloc: Global,
    words: &[String],
    unkept: UnkeptList,
) -> Result<String, NoMemory>
    ensures { IfOk result (λ s. string_bytes s ≡ spec.unkept_sentence words.now unkept) }
{
    match unkept {
        UnkeptList::NoList => Ok(String::from_str(
            alloc,
            "zone_fetch: no list stands behind --refresh; see zone_fetch --help\n",
        )?),
        UnkeptList::More => {
            let word = last_word(words);
            Ok(format!(in alloc;
                "zone_fetch: {word} stands behind the list, where no word may; see zone_fetch --help\n"
            )?)
        }
    }
}
