//! Words that are taken, one after another.

ghost use Rattle.std.specs.Prelude.{◌≡◌, ◌==◌, length, option_map, OnOk, IfOk};
ghost use Rattle.std.specs.Result.{result_ok};
ghost use Rattle.dns_lookup_words.specs.Words.{AddressGives, AllAnswer, Answers, DashGives, GluedGives, ServerAt, ServerGives, ServerIn, ServerOf, SignGives, ValueGives, WordGives, WordsGive, begun, behind, class_given, class_set, dash_said, fault_at, is_localhost, is_other, is_rooted, lack_of, lacking, name_alone, name_given, name_said, open_type, plain_said, plus_said, port_said, type_said, type_set, wrong_name, wrong_server};
ghost use Rattle.dns_names.specs.Text.{name_of_text};
ghost use Rattle.dns_values.specs.NumberNames.{class_of_text};
ghost use Rattle.dns_lookup_words.specs.Types.{type_number};

use crate::manner::Family;
use crate::number::number_in;
use crate::options::{is_off, sets_of, without_no};
use crate::parts::{
    address_text, behind, has_percent, is_localhost, is_past_ascii, is_transfer, lack_of,
    name_text, port_text, value_text,
};
use crate::said::{Next, Said, push_asks};
use crate::short_address::short_address;
use crate::types::{class_in, type_in};
use crate::wrong::{Fault, Refusal, Value, WordFault, Wrong};
use dns_names::{Name, NameFault, RelativeName};
use dns_values::{Class, IpAddr, NoMemory, Rtype};
use std::alloc::Global;

/// The greatest port.
const MOST_PORT: usize = 65535;

/// Why words were not taken of which the one of this number was not.
fn fault_at(at: usize, fault: WordFault) -> Fault
    ensures { result ≡ fault_at at fault }
{
    match fault {
        WordFault::Wrong(wrong) => Fault::Refused(Refusal::Word { at, wrong }),
        WordFault::NoMemory => Fault::NoMemory,
    }
}

/// What is wrong with what stands where the address of a server must.
fn wrong_server(text: &str) -> Wrong
    ensures { result ≡ wrong_server text.now }
{
    if has_percent(text.as_bytes()) {
        Wrong::Scope
    } else {
        Wrong::Server
    }
}

/// What is wrong with what stands where a name must.
fn wrong_name(word: &str) -> Wrong
    ensures { result ≡ wrong_name word.now }
{
    if is_past_ascii(word.as_bytes()) {
        Wrong::Idn
    } else {
        Wrong::Name
    }
}

/// Whether a text has a final dot, which no relative name has.
fn is_rooted(alloc: Global, word: &str) -> Result<bool, NoMemory>
    ensures { IfOk result (λ rooted. rooted ≡ is_rooted word.now) }
{
    match RelativeName::from_text(alloc, word) {
        Ok(_) => Ok(false),
        Err(NameFault::NoMemory) => Err(NoMemory),
        Err(NameFault::Parse) => Ok(true),
        Err(NameFault::Long) => Ok(true),
    }
}

/// What is wrong with what stands behind a hyphen.
fn wrong_letter(text: &str) -> Wrong
    ensures { result ≡ lacking (lack_of text.now) }
{
    match lack_of(text.as_bytes()) {
        Some(lack) => Wrong::Lacking(lack),
        None => Wrong::Option,
    }
}

/// Whether a port is another than one that was said.
fn is_other(said: Option<u16>, port: u16) -> bool
    ensures { result ≡ is_other said port }
{
    match said {
        None => false,
        Some(said) => said != port,
    }
}

impl Said {
    fn take_port(&mut self, word: &str) -> Result<(), WordFault>
        ensures { Answers (λ o. o ≡ port_said word.now self.old) result self.new }
    {
        match number_in(MOST_PORT, word) {
            Some(port) => {
                self.port = Some(port as u16);
                Ok(())
            }
            None => Err(WordFault::Wrong(Wrong::Port)),
        }
    }

    fn take_server_at(&mut self, text: &str, port: Option<u16>) -> Result<(), WordFault>
        ensures { Answers (ServerAt text.now port self.old) result self.new }
    {
        let Ok(ip) = IpAddr::from_text(text) else {
            return Err(WordFault::Wrong(wrong_server(text)));
        };
        self.servers.push(ip)?;
        self.late = self.name.is_some();
        self.port = port;
        Ok(())
    }

    /// Takes a server by its address, or this host by its name.
    fn take_server_of(&mut self, text: &str, port: Option<u16>) -> Result<(), WordFault>
        ensures { Answers (ServerOf (is_localhost text.now) text.now port self.old) result self.new }
    {
        if is_localhost(text) {
            self.servers.push(IpAddr::V4([127, 0, 0, 1]))?;
            self.late = self.name.is_some();
            self.port = port;
            return Ok(());
        }
        self.take_server_at(text, port)
    }

    /// Takes a server, if no two names stand before it.
    fn take_server_in(&mut self, is_first: bool, text: &str) -> Result<(), WordFault>
        ensures { Answers (ServerIn is_first text.now self.old) result self.new }
    {
        if !is_first {
            return Err(WordFault::Wrong(Wrong::Late));
        }
        let address = address_text(text);
        let Some(port) = port_text(text) else {
            return self.take_server_of(address, self.port);
        };
        let Some(port) = number_in(MOST_PORT, port) else {
            return Err(WordFault::Wrong(Wrong::ServerPort));
        };
        let port = port as u16;
        if is_other(self.port, port) {
            return Err(WordFault::Wrong(Wrong::OtherPort));
        }
        self.take_server_of(address, Some(port))
    }

    fn take_server(&mut self, text: &str) -> Result<(), WordFault>
        ensures { Answers (ServerGives text.now self.old) result self.new }
    {
        let is_first = self.asks.is_empty();
        self.take_server_in(is_first, text)
    }

    /// Begins a name, behind what is asked for the one that stands.
    fn begin(&mut self, alloc: Global, name: Name) -> Result<(), NoMemory>
        ensures { OnOk result (self.new ≡ begun name self.old) }
    {
        match self.name.take() {
            None => self.common = self.asking,
            Some(before) => {
                push_asks(alloc, &mut self.asks, before, self.asking)?;
                self.asking = self.common;
            }
        }
        self.name = Some(name);
        Ok(())
    }

    fn take_address(&mut self, alloc: Global, word: &str) -> Result<(), WordFault>
        ensures { Answers (AddressGives word.now self.old) result self.new }
    {
        if self.late {
            return Err(WordFault::Wrong(Wrong::Parted));
        }
        let Some(short) = short_address(alloc, word)? else {
            return Err(WordFault::Wrong(Wrong::Address));
        };
        let name = short.name(alloc)?;
        self.begin(alloc, name)?;
        self.asking.rooted = true;
        if self.asking.rtype.is_none() {
            self.asking.rtype = Some(Rtype::PTR);
        }
        Ok(())
    }

    fn set_name(&mut self, alloc: Global, word: &str) -> Result<(), WordFault>
        ensures { Answers (λ o. o ≡ name_given (result_ok (name_of_text word.now)) word.now self.old) result self.new }
    {
        match Name::from_text(alloc, word) {
            Ok(name) => {
                let rooted = is_rooted(alloc, word)?;
                self.begin(alloc, name)?;
                self.asking.rooted = rooted;
                Ok(())
            }
            Err(NameFault::NoMemory) => Err(WordFault::NoMemory),
            Err(NameFault::Parse) => Err(WordFault::Wrong(wrong_name(word))),
            Err(NameFault::Long) => Err(WordFault::Wrong(wrong_name(word))),
        }
    }

    fn take_name(&mut self, alloc: Global, word: &str) -> Result<(), WordFault>
        ensures { Answers (λ o. o ≡ name_said word.now self.old) result self.new }
    {
        if self.late {
            return Err(WordFault::Wrong(Wrong::Parted));
        }
        self.set_name(alloc, word)
    }

    fn set_type(&mut self, rtype: Rtype) -> Result<(), WordFault>
        ensures { Answers (λ o. o ≡ type_set rtype.0 self.old) result self.new }
    {
        if rtype == Rtype::AXFR {
            return Err(WordFault::Wrong(Wrong::Transfer));
        }
        self.asking.rtype = Some(rtype);
        Ok(())
    }

    fn take_type(&mut self, word: &str) -> Result<(), WordFault>
        ensures { Answers (λ o. o ≡ type_said word.now self.old) result self.new }
    {
        let Some(rtype) = type_in(word) else {
            return Err(WordFault::Wrong(Wrong::Type));
        };
        self.asking.typed = true;
        self.set_type(rtype)
    }

    fn set_class(&mut self, class: Class) -> Result<(), WordFault>
        ensures { Answers (λ o. o ≡ class_set class.0 self.old) result self.new }
    {
        match class {
            Class::IN | Class::CH | Class::HS => {
                self.asking.manner.class = class;
                Ok(())
            }
            _ => Err(WordFault::Wrong(Wrong::OtherClass)),
        }
    }

    fn take_class(&mut self, word: &str) -> Result<(), WordFault>
        ensures { Answers (λ o. o ≡ class_given (class_of_text word.now) self.old) result self.new }
    {
        match class_in(word) {
            Some(class) => self.set_class(class),
            None => Err(WordFault::Wrong(Wrong::Class)),
        }
    }

    fn take_name_alone(&mut self, alloc: Global, word: &str) -> Result<(), WordFault>
        ensures { Answers (λ o. o ≡ name_alone word.now self.old) result self.new }
    {
        if is_transfer(word.as_bytes()) {
            return Err(WordFault::Wrong(Wrong::Transfer));
        }
        self.take_name(alloc, word)
    }

    /// The type that a word alone names.
    fn open_type(&self, word: &str) -> Option<Rtype>
        ensures { option_map (λ t. t.0) result ≡ open_type self.now.asking.typed word.now }
    {
        if self.asking.typed {
            None
        } else {
            type_in(word)
        }
    }

    /// Takes a word that is no option: a type, a class, or else a name.
    fn take_plain(&mut self, alloc: Global, word: &str) -> Result<(), WordFault>
        ensures { Answers (λ o. o ≡ plain_said word.now self.old) result self.new }
    {
        if let Some(rtype) = self.open_type(word) {
            return self.set_type(rtype);
        }
        if let Some(class) = class_in(word) {
            return self.set_class(class);
        }
        self.take_name_alone(alloc, word)
    }

    fn take_value(&mut self, alloc: Global, value: Value, text: &str) -> Result<(), WordFault>
        ensures { Answers (ValueGives value text.now self.old) result self.new }
    {
        match value {
            Value::Port => self.take_port(text),
            Value::Address => self.take_address(alloc, text),
            Value::Type => self.take_type(text),
            Value::Class => self.take_class(text),
            Value::Name => self.take_name(alloc, text),
        }
    }

    /// Takes a value that is glued to its option, or awaits it.
    fn take_glued(&mut self, alloc: Global, value: Value, text: &str) -> Result<(), WordFault>
        ensures { Answers (GluedGives (length text.now == 0) value text.now self.old) result self.new }
    {
        if text.is_empty() {
            self.next = Next::Value(value);
            return Ok(());
        }
        self.take_value(alloc, value, text)
    }

    /// Takes what stands behind a hyphen and is no option with a value.
    fn take_letters(&mut self, text: &str) -> Result<(), WordFault>
        ensures { Answers (λ o. o ≡ dash_said text.now self.old) result self.new }
    {
        match text {
            "-" => self.next = Next::Plain,
            "4" => self.family = Some(Family::V4),
            "6" => self.family = Some(Family::V6),
            _ => return Err(WordFault::Wrong(wrong_letter(text))),
        }
        Ok(())
    }

    /// Takes what stands behind a hyphen.
    fn take_dash(&mut self, alloc: Global, text: &str) -> Result<(), WordFault>
        ensures { Answers (DashGives text.now self.old) result self.new }
    {
        if let Some(rest) = behind('p', text) {
            return self.take_glued(alloc, Value::Port, rest);
        }
        if let Some(rest) = behind('x', text) {
            return self.take_glued(alloc, Value::Address, rest);
        }
        if let Some(rest) = behind('t', text) {
            return self.take_glued(alloc, Value::Type, rest);
        }
        if let Some(rest) = behind('c', text) {
            return self.take_glued(alloc, Value::Class, rest);
        }
        if let Some(rest) = behind('q', text) {
            return self.take_glued(alloc, Value::Name, rest);
        }
        self.take_letters(text)
    }

    /// Takes what stands behind a plus.
    fn take_plus(&mut self, alloc: Global, text: &str) -> Result<(), WordFault>
        ensures { Answers (λ o. o ≡ plus_said text.now self.old) result self.new }
    {
        let name = name_text(text).as_bytes();
        let Some(sets) = sets_of(without_no(name)) else {
            return Err(WordFault::Wrong(Wrong::Option));
        };
        let on = !is_off(name);
        match value_text(text) {
            None => self.set_bare(sets, on),
            Some(value) => self.set_valued(alloc, sets, on, value),
        }
    }

    fn take_any(&mut self, alloc: Global, word: &str) -> Result<(), WordFault>
        ensures { Answers (SignGives (behind 64 word.now) (behind 43 word.now) (behind 45 word.now) word.now self.old) result self.new }
    {
        if let Some(text) = behind('@', word) {
            return self.take_server(text);
        }
        if let Some(text) = behind('+', word) {
            return self.take_plus(alloc, text);
        }
        if let Some(text) = behind('-', word) {
            return self.take_dash(alloc, text);
        }
        self.take_plain(alloc, word)
    }

    fn take(&mut self, alloc: Global, word: &str) -> Result<(), WordFault>
        ensures { Answers (WordGives word.now self.old) result self.new }
    {
        match self.next {
            Next::Any => self.take_any(alloc, word),
            Next::Plain => self.take_plain(alloc, word),
            Next::Value(value) => {
                self.next = Next::Any;
                self.take_value(alloc, value, word)
            }
        }
    }

    /// Takes words in order, up to the first that is wrong.
    pub(crate) fn take_all(&mut self, alloc: Global, words: &[String]) -> Result<(), Fault>
        ensures { AllAnswer (WordsGive 0 words.now self.old) result self.new }
    {
        let mut rest = words;
        let mut at = 0;
        while let Some((word, behind)) = rest.split_first() {
            match self.take(alloc, word.as_str()) {
                Ok(()) => rest = behind,
                Err(fault) => return Err(fault_at(at, fault)),
            }
            at += 1;
        }
        Ok(())
    }
}
