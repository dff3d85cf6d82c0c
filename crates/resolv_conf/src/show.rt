//! A configuration as text.

ghost use Rattle.std.specs.Prelude.{◌≡◌, ◌++◌, map, flat_map, codes, decimal, Some};
ghost use Rattle.std.specs.Fmt.{WritesOnOk};
ghost use Rattle.std.specs.List.{list_any};
ghost use Rattle.resolv_conf.specs.OptionWord.{shown_word};
ghost use Rattle.resolv_conf.specs.Show.{server_text, suffix_text, option_texts, shown_text, line_text};

use crate::conf::ResolvConf;
use crate::options::ResolvOptions;
use crate::search::{SearchList, SearchSuffix};
use crate::server::{DNS_PORT, ServerConf};
use std::fmt::{self, Display};

/// What a request may take where no option says so, in microseconds.
const DEFAULT_TIMEOUT: u128 = 5_000_000;

/// A line for each server, one for the search list and one for the options; the port is left out
/// where it is that of the DNS, one suffix is a `domain`, and what has its default isn't printed.
impl Display for ResolvConf {
    ghost use Rattle.resolv_conf.specs.Show.{conf_text};

    ghost output = { λ c. Some (conf_text c) };

    fn fmt<W: fmt::Write>(&self, f: &mut fmt::Formatter<W>) -> fmt::Result {
        write_servers(self.servers.as_slice(), f)?;
        f.write(SearchLine(&self.options.search))?;
        f.write(OptionsLine(&self.options))
    }
}

/// Each server in a line.
fn write_servers<W: fmt::Write>(servers: &[ServerConf], f: &mut fmt::Formatter<W>) -> fmt::Result
    ensures { WritesOnOk W.Write.write_str_gives f.old result (flat_map server_text servers.now) f.new }
{
    for server in servers {
        f.write(ServerLine(server))?;
    }
    Ok(())
}

#[derive(Clone, Copy)]
struct ServerLine<'a>(&'a ServerConf);

impl Display for ServerLine<'_> {
    ghost use Rattle.resolv_conf.specs.Show.{server_text};

    ghost output = { λ s. Some (server_text s.0.now) };

    #[tactic(auto, unfolding(crate::specs::Show::server_text))]
    fn fmt<W: fmt::Write>(&self, f: &mut fmt::Formatter<W>) -> fmt::Result {
        let addr = self.0.addr;
        let ip = addr.ip;
        if addr.port == DNS_PORT {
            write!(f, "nameserver {ip}\n")
        } else {
            write!(f, "nameserver {addr}\n")
        }
    }
}

#[derive(Clone, Copy)]
struct SearchLine<'a>(&'a SearchList);

impl Display for SearchLine<'_> {
    ghost use Rattle.resolv_conf.specs.Show.{search_text};

    ghost output = { λ s. Some (search_text s.0.now) };

    fn fmt<W: fmt::Write>(&self, f: &mut fmt::Formatter<W>) -> fmt::Result {
        let suffixes = self.0.as_slice();
        match suffixes {
            [] => Ok(()),
            [suffix] => write!(f, "domain {suffix}\n"),
            _ => {
                f.write_str("search")?;
                write_suffixes(suffixes, f)?;
                f.write_str("\n")
            }
        }
    }
}

/// Each suffix behind a blank.
fn write_suffixes<W: fmt::Write>(
    suffixes: &[SearchSuffix],
    f: &mut fmt::Formatter<W>,
) -> fmt::Result
    ensures { WritesOnOk W.Write.write_str_gives f.old result (flat_map suffix_text suffixes.now) f.new }
{
    for suffix in suffixes {
        write!(f, " {suffix}")?;
    }
    Ok(())
}

/// A word of the options: whether it is printed, its name, and its number.
#[derive(Clone, Copy)]
struct OptionWord {
    shown: bool,
    name: &'static str,
    value: Option<u64>,
}

impl Display for OptionWord {
    ghost use Rattle.resolv_conf.specs.Show.{shown_text};
    ghost use Rattle.resolv_conf.specs.OptionWord.{shown_word};

    ghost output = { λ w. Some (shown_text (shown_word w)) };

    #[tactic(auto, unfolding(crate::specs::OptionWord::shown_word))]
    fn fmt<W: fmt::Write>(&self, f: &mut fmt::Formatter<W>) -> fmt::Result {
        let name = self.name;
        if !self.shown {
            return Ok(());
        }
        match self.value {
            None => write!(f, " {name}"),
            Some(n) => write!(f, " {name}:{n}"),
        }
    }
}

#[tactic(auto, unfolding(crate::specs::OptionWord::shown_word))]
const fn flag(name: &'static str, shown: bool) -> OptionWord
    ensures { shown_word result ≡ (shown, name.now) }
{
    OptionWord {
        shown,
        name,
        value: None,
    }
}

#[tactic(auto, unfolding(crate::specs::OptionWord::shown_word))]
const fn number(name: &'static str, shown: bool, n: u64) -> OptionWord
    ensures { shown_word result ≡ (shown, name.now ++ codes ":" ++ decimal n) }
{
    OptionWord {
        shown,
        name,
        value: Some(n),
    }
}

#[derive(Clone, Copy)]
struct OptionsLine<'a>(&'a ResolvOptions);

impl OptionsLine<'_> {
    fn words(&self) -> [OptionWord; 21]
        ensures { map shown_word result ≡ option_texts self.now.0.now }
    {
        let o = self.0;
        [
            number("ndots", o.ndots != 1, o.ndots as u64),
            number(
                "timeout",
                o.timeout.as_micros() != DEFAULT_TIMEOUT,
                o.timeout.as_secs(),
            ),
            number("attempts", o.attempts != 2, o.attempts as u64),
            flag("aa-only", o.aa_only),
            flag("use-vc", o.use_vc),
            flag("primary", o.primary),
            flag("no-recurse", !o.recurse),
            flag("no-default-names", !o.default_names),
            flag("stay-open", o.stay_open),
            flag("no-dn-search", !o.dn_search),
            flag("use-inet6", o.use_inet6),
            flag("rotate", o.rotate),
            flag("no-check-name", o.no_check_name),
            flag("keep-tsig", o.keep_tsig),
            flag("blast", o.blast),
            flag("use-bstring", o.use_bstring),
            flag("ip6dotint", o.use_ip6dotint),
            flag("use-edns0", o.use_edns0),
            flag("single-request", o.single_request),
            flag("single-request-reopen", o.single_request_reopen),
            flag("no-tld-query", o.no_tld_query),
        ]
    }
}

impl Display for OptionsLine<'_> {
    ghost use Rattle.resolv_conf.specs.Show.{options_text};

    ghost output = { λ o. Some (options_text o.0.now) };

    fn fmt<W: fmt::Write>(&self, f: &mut fmt::Formatter<W>) -> fmt::Result {
        write_options(&self.words(), f)
    }
}

/// The line of these words, if any is printed.
#[tactic(auto, using(crate::proofs::Shows::none_shown))]
fn write_options<W: fmt::Write>(words: &[OptionWord], f: &mut fmt::Formatter<W>) -> fmt::Result
    ensures { WritesOnOk W.Write.write_str_gives f.old result (line_text (map shown_word words.now)) f.new }
{
    if any_is_shown(words) {
        write_line(words, f)
    } else {
        Ok(())
    }
}

fn write_line<W: fmt::Write>(words: &[OptionWord], f: &mut fmt::Formatter<W>) -> fmt::Result
    ensures { WritesOnOk W.Write.write_str_gives f.old result
        (codes "options" ++ flat_map (λ w. shown_text (shown_word w)) words.now ++ codes "\n") f.new }
{
    f.write_str("options")?;
    write_words(words, f)?;
    f.write_str("\n")
}

/// Each word that is printed, behind a blank.
fn write_words<W: fmt::Write>(words: &[OptionWord], f: &mut fmt::Formatter<W>) -> fmt::Result
    ensures { WritesOnOk W.Write.write_str_gives f.old result (flat_map (λ w. shown_text (shown_word w)) words.now) f.new }
{
    for word in words {
        f.write(*word)?;
    }
    Ok(())
}

fn any_is_shown(words: &[OptionWord]) -> bool
    ensures { result ≡ list_any (λ w. w.shown) words.now }
{
    words.iter().any(|word| word.shown)
}
