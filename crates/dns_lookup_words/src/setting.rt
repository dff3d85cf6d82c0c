//! What options set that begin with a plus.

ghost use Rattle.std.specs.Prelude.{◌≡◌};
ghost use Rattle.dns_lookup_words.specs.Asks.{all_set, flag_set, part_set, walking};
ghost use Rattle.dns_lookup_words.specs.Setting.{domain_said, dots_said, edns_set, only_off, only_on, set_bare, set_valued, size_bare, size_said, time_said, tries_said, version_said, with_walk};
ghost use Rattle.dns_lookup_words.specs.Words.{Answers};

use crate::lacking::Lack;
use crate::manner::{Announced, Flags, Layout, Manner};
use crate::number::number_up_to;
use crate::options::{Flag, Part, Sets};
use crate::said::Said;
use crate::wrong::{WordFault, Wrong};
use dns_names::{Name, NameFault};
use std::alloc::Global;

/// The longest time, in seconds.
const MOST_SECONDS: usize = 600;

/// The most rounds in which servers are asked.
const MOST_TRIES: usize = 5;

/// The greatest payload size, in octets.
const MOST_OCTETS: usize = 65535;

/// The most dots.
const MOST_DOTS: usize = 65535;

/// What a request says, with one part set.
fn flag_set(flag: Flag, on: bool, mut flags: Flags) -> Flags
    ensures { result ≡ flag_set flag on flags }
{
    match flag {
        Flag::Recursion => flags.recursion = on,
        Flag::Authentic => flags.authentic = on,
        Flag::Unchecked => flags.unchecked = on,
        Flag::Authoritative => flags.authoritative = on,
        Flag::Truncated => flags.truncated = on,
        Flag::Available => flags.available = on,
        Flag::Reserved => flags.reserved = on,
        Flag::Dnssec => flags.dnssec = on,
        Flag::Nsid => flags.nsid = on,
        Flag::Expire => flags.expire = on,
    }
    flags
}

/// What is written, with one part set; a TTL in units is written.
fn part_set(part: Part, on: bool, mut layout: Layout) -> Layout
    ensures { result ≡ part_set part on layout }
{
    match part {
        Part::Short => layout.short = on,
        Part::Identify => layout.identify = on,
        Part::Json => layout.json = on,
        Part::Yaml => layout.yaml = on,
        Part::Multiline => layout.multiline = on,
        Part::Ttl => layout.ttl = on,
        Part::Class => layout.class = on,
        Part::Units => {
            layout.ttl = true;
            layout.units = on;
        }
        Part::Expanded => layout.expanded = on,
        Part::Query => layout.query = on,
        Part::Question => layout.question = on,
        Part::Answer => layout.answer = on,
        Part::Authority => layout.authority = on,
        Part::Additional => layout.additional = on,
        Part::Comments => layout.comments = on,
        Part::Stats => layout.stats = on,
    }
    layout
}

/// What is written, with all sections, comments and statistics, or none.
fn all_set(on: bool, layout: Layout) -> Layout
    ensures { result ≡ all_set on layout }
{
    Layout {
        question: on,
        answer: on,
        authority: on,
        additional: on,
        comments: on,
        stats: on,
        ..layout
    }
}

/// How a walk from the root is asked, and what is written of its answers.
fn walking(mut manner: Manner) -> Manner
    ensures { result ≡ walking manner }
{
    manner.flags.recursion = true;
    manner.flags.dnssec = true;
    manner.layout = Layout {
        identify: true,
        comments: false,
        stats: false,
        question: false,
        additional: false,
        authority: true,
        ..manner.layout
    };
    manner
}

/// What is announced, with EDNS or without it.
fn edns_set(on: bool, announced: Announced) -> Announced
    ensures { result ≡ edns_set on announced }
{
    match (on, announced) {
        (false, _) => Announced::Nothing,
        (true, Announced::Nothing) => Announced::Usual,
        (true, Announced::Usual) => Announced::Usual,
        (true, Announced::Size(size)) => Announced::Size(size),
    }
}

impl Said {
    fn take_time(&mut self, text: &str) -> Result<(), WordFault>
        ensures { Answers (λ o. o ≡ time_said text.now self.old) result self.new }
    {
        match number_up_to(MOST_SECONDS, text) {
            Some(0) => {
                self.seconds = Some(1);
                Ok(())
            }
            Some(seconds) => {
                self.seconds = Some(seconds as u64);
                Ok(())
            }
            None => Err(WordFault::Wrong(Wrong::Time)),
        }
    }

    fn take_tries(&mut self, text: &str) -> Result<(), WordFault>
        ensures { Answers (λ o. o ≡ tries_said text.now self.old) result self.new }
    {
        match number_up_to(MOST_TRIES, text) {
            Some(0) => {
                self.tries = Some(1);
                Ok(())
            }
            Some(tries) => {
                self.tries = Some(tries);
                Ok(())
            }
            None => Err(WordFault::Wrong(Wrong::Tries)),
        }
    }

    fn take_size(&mut self, text: &str) -> Result<(), WordFault>
        ensures { Answers (λ o. o ≡ size_said text.now self.old) result self.new }
    {
        match number_up_to(MOST_OCTETS, text) {
            Some(size) => {
                self.announced = Announced::Size(size as u16);
                Ok(())
            }
            None => Err(WordFault::Wrong(Wrong::Size)),
        }
    }

    /// Announces the usual payload size, unless `no` stands before the option.
    fn take_usual_size(&mut self, on: bool) -> Result<(), WordFault>
        ensures { Answers (λ o. o ≡ size_bare on self.old) result self.new }
    {
        if on {
            self.announced = Announced::Usual;
            Ok(())
        } else {
            Err(WordFault::Wrong(Wrong::Size))
        }
    }

    fn take_dots(&mut self, text: &str) -> Result<(), WordFault>
        ensures { Answers (λ o. o ≡ dots_said text.now self.old) result self.new }
    {
        match number_up_to(MOST_DOTS, text) {
            Some(dots) => {
                self.dots = Some(dots);
                Ok(())
            }
            None => Err(WordFault::Wrong(Wrong::Dots)),
        }
    }

    /// Takes a suffix, which is searched.
    fn take_domain(&mut self, alloc: Global, text: &str) -> Result<(), WordFault>
        ensures { Answers (λ o. o ≡ domain_said text.now self.old) result self.new }
    {
        match Name::from_text(alloc, text) {
            Ok(name) => {
                self.search = true;
                self.domain = Some(name);
                Ok(())
            }
            Err(NameFault::NoMemory) => Err(WordFault::NoMemory),
            Err(NameFault::Parse) => Err(WordFault::Wrong(Wrong::Suffix)),
            Err(NameFault::Long) => Err(WordFault::Wrong(Wrong::Suffix)),
        }
    }

    /// Asks from the root on, or not.
    fn set_walk(&mut self, on: bool)
        ensures { self.new ≡ with_walk on self.old }
    {
        self.walk = on;
        if on {
            self.search = false;
            self.asking.manner = walking(self.asking.manner);
        }
    }

    /// Asks for what is always done.
    fn keep_on(&mut self, lack: Lack, on: bool) -> Result<(), WordFault>
        ensures { Answers (λ o. o ≡ only_on lack on self.old) result self.new }
    {
        if on {
            Ok(())
        } else {
            Err(WordFault::Wrong(Wrong::Lacking(lack)))
        }
    }

    /// Leaves what is never done.
    fn keep_off(&mut self, lack: Lack, on: bool) -> Result<(), WordFault>
        ensures { Answers (λ o. o ≡ only_off lack on self.old) result self.new }
    {
        if on {
            Err(WordFault::Wrong(Wrong::Lacking(lack)))
        } else {
            Ok(())
        }
    }

    /// Takes an option without a value.
    pub(crate) fn set_bare(&mut self, sets: Sets, on: bool) -> Result<(), WordFault>
        ensures { Answers (λ o. o ≡ set_bare sets on self.old) result self.new }
    {
        let Manner { flags, layout, .. } = self.asking.manner;
        match sets {
            Sets::Tcp => self.tcp = on,
            Sets::Time => return Err(WordFault::Wrong(Wrong::Time)),
            Sets::Tries => return Err(WordFault::Wrong(Wrong::Tries)),
            Sets::Size => return self.take_usual_size(on),
            Sets::Flag(flag) => self.asking.manner.flags = flag_set(flag, on, flags),
            Sets::Part(part) => self.asking.manner.layout = part_set(part, on, layout),
            Sets::Search => self.search = on,
            Sets::Domain => return Err(WordFault::Wrong(Wrong::Suffix)),
            Sets::Dots => return Err(WordFault::Wrong(Wrong::Dots)),
            Sets::Walk => self.set_walk(on),
            Sets::All => self.asking.manner.layout = all_set(on, layout),
            Sets::Edns => self.announced = edns_set(on, self.announced),
            Sets::Already(lack) => return self.keep_on(lack, on),
            Sets::Never(lack) => return self.keep_off(lack, on),
            Sets::Absent(lack) => return Err(WordFault::Wrong(Wrong::Lacking(lack))),
        }
        Ok(())
    }

    /// Takes a version of EDNS.
    fn take_version(&mut self, text: &str, on: bool) -> Result<(), WordFault>
        ensures { Answers (λ o. o ≡ version_said text.now on self.old) result self.new }
    {
        let is_said = on && text == "0";
        if is_said {
            self.announced = edns_set(true, self.announced);
            Ok(())
        } else {
            Err(WordFault::Wrong(Wrong::Lacking(Lack::Extension)))
        }
    }

    /// Takes an option with a value.
    pub(crate) fn set_valued(
        &mut self,
        alloc: Global,
        sets: Sets,
        on: bool,
        text: &str,
    ) -> Result<(), WordFault>
        ensures { Answers (λ o. o ≡ set_valued sets on text.now self.old) result self.new }
    {
        match (sets, on) {
            (Sets::Time, true) => self.take_time(text),
            (Sets::Time, false) => Err(WordFault::Wrong(Wrong::Time)),
            (Sets::Tries, true) => self.take_tries(text),
            (Sets::Tries, false) => Err(WordFault::Wrong(Wrong::Tries)),
            (Sets::Size, true) => self.take_size(text),
            (Sets::Size, false) => Err(WordFault::Wrong(Wrong::Size)),
            (Sets::Domain, true) => self.take_domain(alloc, text),
            (Sets::Domain, false) => Err(WordFault::Wrong(Wrong::Suffix)),
            (Sets::Dots, true) => self.take_dots(text),
            (Sets::Dots, false) => Err(WordFault::Wrong(Wrong::Dots)),
            (Sets::Edns, _) => self.take_version(text, on),
            (Sets::Never(lack), _) => Err(WordFault::Wrong(Wrong::Lacking(lack))),
            (Sets::Absent(lack), _) => Err(WordFault::Wrong(Wrong::Lacking(lack))),
            (Sets::Tcp, _) => Err(WordFault::Wrong(Wrong::Valued)),
            (Sets::Flag(_), _) => Err(WordFault::Wrong(Wrong::Valued)),
            (Sets::Part(_), _) => Err(WordFault::Wrong(Wrong::Valued)),
            (Sets::Search, _) => Err(WordFault::Wrong(Wrong::Valued)),
            (Sets::Walk, _) => Err(WordFault::Wrong(Wrong::Valued)),
            (Sets::All, _) => Err(WordFault::Wrong(Wrong::Valued)),
            (Sets::Already(_), _) => Err(WordFault::Wrong(Wrong::Valued)),
        }
    }
}
