//! The words of an `options` line.

ghost use Rattle.std.specs.Prelude.{◌≡◌, MatchResult, Some, None};
ghost use Rattle.std.specs.Str.Iter.{split_whitespace_rest};
ghost use Rattle.resolv_conf.specs.Options.{OptionsAnswer, flagged, numbered, option_after, options_after};
ghost use Rattle.resolv_conf.specs.Words.{words_of};

use crate::fault::LineFault;
use crate::options::ResolvOptions;
use crate::words::{next_word, number};
use dns_values::Duration;
use std::str::SplitWhitespace;

impl ResolvOptions {
    /// Takes the words in order, as far as the first one that is refused.
    pub(crate) fn take_words(&mut self, mut words: SplitWhitespace<'_>) -> Result<(), LineFault>
        ensures { OptionsAnswer (options_after (words_of (split_whitespace_rest words.entry)) self.old) result self.new }
    {
        while let Some(word) = next_word(&mut words) {
            self.take_word(word)?;
        }
        Ok(())
    }

    #[tactic(auto, unfolding(crate::specs::Options::option_after))]
    fn take_word(&mut self, word: &str) -> Result<(), LineFault>
        ensures { MatchResult result (λ _. option_after word.now self.old ≡ Some self.new)
            (λ e. (e ≡ LineFault.Parse) × (option_after word.now self.old ≡ None) × (self.new ≡ self.old)) }
    {
        let Some((name, value)) = word.split_once(':') else {
            self.set_flag(word);
            return Ok(());
        };
        let Some(n) = number(value) else {
            return Err(LineFault::Parse);
        };
        self.set_number(name, n);
        Ok(())
    }

    #[tactic(auto, unfolding(crate::specs::Options::flagged))]
    fn set_flag(&mut self, word: &str)
        ensures { self.new ≡ flagged word.now self.old }
    {
        match word {
            "use-vc" => self.use_vc = true,
            "inet6" => self.use_inet6 = true,
            "rotate" => self.rotate = true,
            "no-check-names" => self.no_check_name = true,
            "ip6-bytestring" => self.use_bstring = true,
            "ip6-dotint" => self.use_ip6dotint = true,
            "no-ip6-dotint" => self.use_ip6dotint = false,
            "edns0" => self.use_edns0 = true,
            "single-request" => self.single_request = true,
            "single-request-reopen" => self.single_request_reopen = true,
            "no-tld-query" => self.no_tld_query = true,
            _ => {}
        }
    }

    #[tactic(auto, unfolding(crate::specs::Options::numbered))]
    fn set_number(&mut self, name: &str, n: usize)
        ensures { self.new ≡ numbered name.now n self.old }
    {
        match name {
            "ndots" => self.ndots = n,
            "timeout" => self.timeout = Duration::from_secs(n as u64),
            "attempts" => self.attempts = n,
            _ => {}
        }
    }
}
