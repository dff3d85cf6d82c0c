//! The words behind the options.

ghost use Rattle.std.specs.Prelude.{◌≡◌};
ghost use Rattle.forward_words.specs.Words as spec;

use crate::wrong::Unasked;
use command_parts::number_in;

/// What the words behind the options ask for.
#[derive(Clone, Copy, Debug, PartialEq, Eq)]
pub struct Asked {
    /// The port at which it is listened.
    pub port: u16,
    /// How many turns are made.
    pub turns: u64,
}

/// The port that a word is.
fn port_of(word: &str) -> Option<u16>
    ensures { result ≡ spec.port_of word.now }
{
    match number_in(1, 65535, word) {
        Some(port) => Some(port as u16),
        None => None,
    }
}

/// The number of turns that a word is.
fn turns_of(word: &str) -> Option<u64>
    ensures { result ≡ spec.turns_of word.now }
{
    number_in(1, u64::MAX, word)
}

/// Whether a word begins as options do.
fn begins_option(word: &[u8]) -> bool
    ensures { result ≡ spec.begins_option word.now }
{
    match word {
        [b'-', ..] => true,
        _ => false,
    }
}

/// What is wrong with a word that is no port.
fn no_port(word: &str) -> Unasked
    ensures { result ≡ spec.no_port word.now }
{
    if begins_option(word.as_bytes()) {
        Unasked::Option
    } else {
        Unasked::Port
    }
}

/// How many turns are made, by the words behind the port: as many as there are, where none says it.
fn turns_in(words: &[String]) -> Result<u64, Unasked>
    ensures { result ≡ spec.turns_in words.now }
{
    match words {
        [] => Ok(u64::MAX),
        [turns, more @ ..] => match turns_of(turns.as_str()) {
            Some(turns) => {
                if more.is_empty() {
                    Ok(turns)
                } else {
                    Err(Unasked::More)
                }
            }
            None => Err(Unasked::Turns),
        },
    }
}

/// What the words behind the options ask a program for: `PORT`, or `PORT TURNS`, decimal numbers from 1 on without a sign or a leading
/// zero. `PORT` alone is as good as no end. Else the first word that is wrong.
pub fn command_of(words: &[String]) -> Result<Asked, Unasked>
    ensures { result ≡ spec.command_of words.now }
{
    match words {
        [] => Err(Unasked::NoPort),
        [port, rest @ ..] => match port_of(port.as_str()) {
            Some(port) => {
                let turns = turns_in(rest)?;
                Ok(Asked { port, turns })
            }
            None => Err(no_port(port.as_str())),
        },
    }
}

/// What the words behind the options ask for: `PORT TURNS`.
pub fn asked_by(words: &[String]) -> Option<Asked>
    ensures { result ≡ spec.asked_by words.now }
{
    match words {
        [port, turns] => {
            let port = port_of(port.as_str())?;
            let turns = turns_of(turns.as_str())?;
            Some(Asked { port, turns })
        }
        _ => None,
    }
}
