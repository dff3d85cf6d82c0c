//! Words that stand in files.

ghost use Rattle.std.specs.Prelude.{◌≡◌, ◌++◌, map, IfOk, IfErr, OnOk, string_bytes};
ghost use Rattle.dns_lookup_files.specs.Files.{AddsWords, AreWithFiles, HaveWords, IsUnread, files_from, kept_from, kept_in, last_words, named_in};
ghost use Rattle.dns_lookup_files.specs.declared.place.Place.TheVariants as places;

use crate::place::Place;
use crate::text::{TextFault, push_text, push_word};
use dns_values::{MOST_TEXT, NoMemory, ReadFault, read_to_end};
use resolv_conf::OpenFile;
use std::alloc::Global;

/// Why words of files were not had.
#[derive(Debug, Drop)]
pub enum FileFault {
    /// The file of this name could not be read, has more than 16777216 octets, or a word that is no text.
    Unread(String),
    /// Memory ran out.
    NoMemory,
}

impl From<NoMemory> for FileFault {
    ghost use Rattle.dns_lookup_files.specs.declared.filed.FileFault.{FileFault};

    ghost from_gives = { λ _ e. e ≡ FileFault.NoMemory };

    fn from(_e: NoMemory) -> FileFault {
        FileFault::NoMemory
    }
}

/// Words, and the names of files among them.
#[derive(Drop)]
struct Sorted {
    words: Vec<String>,
    files: Vec<String>,
}

/// Adds the file that a word names, if it names one.
fn push_named(
    alloc: Global,
    place: Place,
    word: &str,
    files: &mut Vec<String>,
) -> Result<(), NoMemory>
    ensures { OnOk result (map string_bytes files.new.items ≡ map string_bytes files.old.items ++ named_in place word.now) }
{
    match place.file_named(word) {
        Some(name) => push_word(alloc, name, files),
        None => Ok(()),
    }
}

/// Adds a word that stays.
fn push_kept(
    alloc: Global,
    place: Place,
    word: &str,
    kept: &mut Vec<String>,
) -> Result<(), NoMemory>
    ensures { OnOk result (map string_bytes kept.new.items ≡ map string_bytes kept.old.items ++ kept_in place word.now) }
{
    if place.is_kept(word) {
        push_word(alloc, word, kept)
    } else {
        Ok(())
    }
}

/// Adds a last `-f`, behind which no word stands.
fn push_last(alloc: Global, place: Place, kept: &mut Vec<String>) -> Result<(), NoMemory>
    ensures { OnOk result (map string_bytes kept.new.items ≡ map string_bytes kept.old.items ++ last_words place) }
{
    match place {
        Place::File => push_word(alloc, "-f", kept),
        Place::Free | Place::Value | Place::Ended => Ok(()),
    }
}

/// The words that stay, and the names of files.
fn sort_words(alloc: Global, words: &[String]) -> Result<Sorted, NoMemory>
    ensures words { IfOk result (λ s. map string_bytes s.words.items ≡ kept_from places.Free words.now) }
    ensures files { IfOk result (λ s. map string_bytes s.files.items ≡ files_from places.Free words.now) }
{
    let mut kept = Vec::new(alloc);
    let mut files = Vec::new(alloc);
    let mut place = Place::Free;
    for word in words {
        let word = word.as_str();
        push_named(alloc, place, word, &mut files)?;
        push_kept(alloc, place, word, &mut kept)?;
        place = place.behind(word);
    }
    push_last(alloc, place, &mut kept)?;
    Ok(Sorted { words: kept, files })
}

/// That the file of this name was not read.
fn unread(alloc: Global, name: &str) -> FileFault
    ensures { IsUnread name.now result }
{
    match String::from_str(alloc, name) {
        Ok(name) => FileFault::Unread(name),
        Err(_) => FileFault::NoMemory,
    }
}

/// Adds the words of a file.
fn push_file<O: OpenFile>(
    alloc: Global,
    opener: &mut O,
    name: &str,
    words: &mut Vec<String>,
) -> Result<(), FileFault>
    ensures added { OnOk result (AddsWords (O.files opener.old) name.now (map string_bytes words.old.items) (map string_bytes words.new.items)) }
    ensures unread { IfErr result (λ e. IsUnread name.now e) }
{
    if opener.open_file(name).is_err() {
        return Err(unread(alloc, name));
    }
    let text = match read_to_end(alloc, opener, MOST_TEXT) {
        Ok(text) => text,
        Err(ReadFault::NoMemory) => return Err(FileFault::NoMemory),
        Err(_) => return Err(unread(alloc, name)),
    };
    match push_text(alloc, &text, words) {
        Ok(()) => Ok(()),
        Err(TextFault::NoText) => Err(unread(alloc, name)),
        Err(TextFault::NoMemory) => Err(FileFault::NoMemory),
    }
}

/// The words of files, one file after another.
fn words_of_files<O: OpenFile>(
    alloc: Global,
    opener: &mut O,
    files: &[String],
) -> Result<Vec<String>, FileFault>
    ensures { IfOk result (λ words. HaveWords O.files (map string_bytes files.now) (map string_bytes words.items) opener.old opener.new) }
{
    let mut words = Vec::new(alloc);
    let mut rest = files;
    while let Some((name, later)) = rest.split_first() {
        push_file(alloc, opener, name.as_str(), &mut words)?;
        rest = later;
    }
    Ok(words)
}

/// The words, and behind them those of the files that `-f FILE` and `-fFILE` name, which stand there no more.
///
/// Where the value of an option is due, and behind `--`, a word stands for itself, and so does a `-f` behind which no word stands. The words of
/// a file stand between white space of ASCII, and a line that begins with `#` or `;` has none. `Unread` names a file that could not be opened
/// or read, is too long, or has a word that is no text.
pub fn with_files<O: OpenFile>(
    alloc: Global,
    opener: &mut O,
    words: &[String],
) -> Result<Vec<String>, FileFault>
    ensures { IfOk result (λ all. AreWithFiles O.files words.now (map string_bytes all.items) opener.old opener.new) }
{
    let Sorted {
        words: mut all,
        files,
    } = sort_words(alloc, words)?;
    let filed = words_of_files(alloc, opener, &files)?;
    for word in &filed {
        push_word(alloc, word.as_str(), &mut all)?;
    }
    Ok(all)
}
