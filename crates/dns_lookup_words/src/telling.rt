//! The sentences that tell what is wrong with words.

ghost use Rattle.std.specs.Prelude.{◌≡◌, IfOk};
ghost use Rattle.std.specs.String.{string_bytes};
ghost use Rattle.dns_lookup_words.specs.Sentences.{due_sentence, sentence, word_at, word_sentence, wrong_text};

use crate::lacking::lack_text;
use crate::wrong::{Refusal, Value, Wrong};
use dns_values::NoMemory;
use std::alloc::Global;

fn wrong_text(wrong: Wrong) -> &'static str
    ensures { result.now ≡ wrong_text wrong }
{
    match wrong {
        Wrong::Server => "names no server: it is no address, and no name whose address is found",
        Wrong::Scope => {
            "has a scope behind its %, and no server of one interface alone is asked"
        }
        Wrong::ServerPort => "names no port from 1 to 65535 behind its #",
        Wrong::OtherPort => {
            "names another port than was said before, and all servers are asked at one"
        }
        Wrong::Port => "is no port",
        Wrong::Address => "is no address",
        Wrong::Name => "is no name",
        Wrong::Idn => {
            "is no name, since it has letters past ASCII; its form that begins with xn-- is"
        }
        Wrong::Late => "names a server behind two names, and servers are asked for all names",
        Wrong::Parted => {
            "is another name behind a server that stands behind a name, and servers are asked for all names"
        }
        Wrong::Type => "is neither a known type nor TYPE with a number",
        Wrong::Transfer => "is no type that one message answers",
        Wrong::Class => "is no class",
        Wrong::OtherClass => "is another class than IN, CH and HS",
        Wrong::Time => "gives no seconds from 0 to 600",
        Wrong::Tries => "gives no number of tries from 0 to 5",
        Wrong::Size => "gives no payload size from 0 to 65535",
        Wrong::Suffix => "gives no suffix by +domain=NAME",
        Wrong::Dots => "gives no count of dots from 0 to 65535",
        Wrong::Option => "is no option",
        Wrong::Lacking(lack) => lack_text(lack),
        Wrong::Valued => "has a value, and its option takes none",
    }
}

/// The word of a number, or none at all.
fn word_at(words: &[String], at: usize) -> &str
    ensures { result.now ≡ word_at words.now at }
{
    match words.get(at) {
        Some(word) => word.as_str(),
        None => "",
    }
}

/// The sentence of a word that is wrong.
fn word_sentence(alloc: Global, word: &str, wrong: Wrong) -> Result<String, NoMemory>
    ensures { IfOk result (λ s. string_bytes s ≡ word_sentence word.now wrong) }
{
    let text = wrong_text(wrong);
    Ok(format!(in alloc; "dns_lookup: {word} {text}; see dns_lookup --help\n")?)
}

/// The sentence of a value that is due.
fn due_sentence(value: Value) -> &'static str
    ensures { result.now ≡ due_sentence value }
{
    match value {
        Value::Port => "dns_lookup: no port stands behind -p; see dns_lookup --help\n",
        Value::Address => "dns_lookup: no address stands behind -x; see dns_lookup --help\n",
        Value::Type => "dns_lookup: no type stands behind -t; see dns_lookup --help\n",
        Value::Class => "dns_lookup: no class stands behind -c; see dns_lookup --help\n",
        Value::Name => "dns_lookup: no name stands behind -q; see dns_lookup --help\n",
    }
}

/// The sentence that tells why these words are no lookup: one line, which names the wrong word as it was given.
pub fn sentence(alloc: Global, words: &[String], refusal: Refusal) -> Result<String, NoMemory>
    ensures { IfOk result (λ s. string_bytes s ≡ sentence words.now refusal) }
{
    let text = match refusal {
        Refusal::Word { at, wrong } => return word_sentence(alloc, word_at(words, at), wrong),
        Refusal::NoValue(value) => due_sentence(value),
        Refusal::NoName => "dns_lookup: no name is asked for; see dns_lookup --help\n",
    };
    Ok(String::from_str(alloc, text)?)
}
