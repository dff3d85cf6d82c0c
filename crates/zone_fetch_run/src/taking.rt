//! Words that are taken, one after another.

ghost use Rattle.std.specs.Prelude.{◌≡◌, Ok, Err};
ghost use Rattle.command_parts.specs.Numbers.{number_in};
ghost use Rattle.dns_names.specs.Text.{name_of_text};
ghost use Rattle.std.specs.Result.{result_ok};
ghost use Rattle.program_words.specs.Rows.{said_in};
ghost use Rattle.zone_fetch_run.specs.Words.{AddressGives, AllAnswer, Answers, FileGives, OutputGives, WordGives, WordsGive, any_said, with_meaning, fault_at, most_given, option_rows, port_given, zone_given};

use crate::command::{Meaning, Next, Said};
use crate::wrong::{Fault, Refusal, WordFault, Wrong};
use command_parts::number_in;
use dns_base::{IpAddr, Name, NameFault};
use program_words::{Letters, Row, said_in};
use std::alloc::Global;

/// The greatest port.
const MOST_PORT: u64 = 65535;

/// The options, each by its whole name.
const OPTIONS: [Row<Meaning>; 5] = [
    ("--text", Letters::Whole, Meaning::Text),
    ("--port", Letters::Whole, Meaning::Value(Next::Port)),
    ("--most", Letters::Whole, Meaning::Value(Next::Most)),
    ("--from", Letters::Whole, Meaning::Value(Next::File)),
    ("--output", Letters::Whole, Meaning::Value(Next::Output)),
];

/// What the option of this name says.
#[tactic(auto, unfolding(crate::specs::Words::option_rows))]
fn meaning_of(word: &str) -> Option<Meaning>
    ensures { result ≡ said_in option_rows word.now }
{
    said_in(&OPTIONS, word.as_bytes())
}

/// Why words were not taken of which the one of this number was not.
fn fault_at(at: usize, fault: WordFault) -> Fault
    ensures { result ≡ fault_at at fault }
{
    match fault {
        WordFault::Wrong(wrong) => Fault::Refused(Refusal::Word { at, wrong }),
        WordFault::NoMemory => Fault::NoMemory,
    }
}

impl Said {
    fn take_port(&mut self, word: &str) -> Result<(), WordFault>
        ensures { Answers (λ o. o ≡ port_given (number_in 1 65535 word.now) self.old) result self.new }
    {
        match number_in(1, MOST_PORT, word) {
            Some(port) => {
                self.port = port as u16;
                self.next = Next::Any;
                Ok(())
            }
            None => Err(WordFault::Wrong(Wrong::Port)),
        }
    }

    fn take_most(&mut self, word: &str) -> Result<(), WordFault>
        ensures { Answers (λ o. o ≡ most_given (number_in 0 18446744073709551615 word.now) self.old) result self.new }
    {
        match number_in(0, u64::MAX, word) {
            Some(most) => {
                self.most = most;
                self.next = Next::Any;
                Ok(())
            }
            None => Err(WordFault::Wrong(Wrong::Most)),
        }
    }

    fn take_file(&mut self, alloc: Global, word: &str) -> Result<(), WordFault>
        ensures { Answers (FileGives word.now self.old) result self.new }
    {
        let Ok(file) = String::from_str(alloc, word) else {
            return Err(WordFault::NoMemory);
        };
        self.file = Some(file);
        self.next = Next::Any;
        Ok(())
    }

    fn take_output(&mut self, alloc: Global, word: &str) -> Result<(), WordFault>
        ensures { Answers (OutputGives word.now self.old) result self.new }
    {
        let Ok(output) = String::from_str(alloc, word) else {
            return Err(WordFault::NoMemory);
        };
        self.output = Some(output);
        self.next = Next::Any;
        Ok(())
    }

    fn take_address(&mut self, word: &str) -> Result<(), WordFault>
        ensures { Answers (AddressGives word.now self.old) result self.new }
    {
        let Ok(ip) = IpAddr::from_text(word) else {
            return Err(WordFault::Wrong(Wrong::Address));
        };
        self.server = Some(ip);
        self.next = Next::Nothing;
        Ok(())
    }

    fn take_zone(&mut self, alloc: Global, word: &str) -> Result<(), WordFault>
        ensures { Answers (λ o. o ≡ zone_given (result_ok (name_of_text word.now)) self.old) result self.new }
    {
        match Name::from_text(alloc, word) {
            Ok(name) => {
                self.zone = Some(name);
                self.next = Next::Address;
                Ok(())
            }
            Err(NameFault::NoMemory) => Err(WordFault::NoMemory),
            Err(NameFault::Parse) => Err(WordFault::Wrong(Wrong::Zone)),
            Err(NameFault::Long) => Err(WordFault::Wrong(Wrong::Zone)),
        }
    }

    /// Sets what an option says.
    fn take_meaning(&mut self, meaning: Meaning)
        ensures { self.new ≡ with_meaning meaning self.old }
    {
        match meaning {
            Meaning::Text => self.text = true,
            Meaning::Value(next) => self.next = next,
        }
    }

    fn take_any(&mut self, alloc: Global, word: &str) -> Result<(), WordFault>
        ensures { Answers (λ o. o ≡ any_said word.now self.old) result self.new }
    {
        if let Some(meaning) = meaning_of(word) {
            self.take_meaning(meaning);
            return Ok(());
        }
        self.take_zone(alloc, word)
    }

    fn take(&mut self, alloc: Global, word: &str) -> Result<(), WordFault>
        ensures { Answers (WordGives word.now self.old) result self.new }
    {
        match self.next {
            Next::Any => self.take_any(alloc, word),
            Next::Port => self.take_port(word),
            Next::Most => self.take_most(word),
            Next::File => self.take_file(alloc, word),
            Next::Output => self.take_output(alloc, word),
            Next::Address => self.take_address(word),
            Next::Nothing => Err(WordFault::Wrong(Wrong::More)),
        }
    }

    /// Takes words in order, up to the first that may not stand where it does.
    pub(crate) fn take_all(&mut self, alloc: Global, words: &[String]) -> Result<(), Fault>
        ensures { AllAnswer (WordsGive 0 words.now self.old) result self.new }
    {
        let mut rest = words;
        let mut at = 0;
        while let Some((word, behind)) = rest.split_first() {
            match self.take(alloc, word.as_str()) {
                Ok(()) => rest = behind,
                Err(fault) => return Err(fault_at(at, fault)),
            }
            at += 1;
        }
        Ok(())
    }
}
