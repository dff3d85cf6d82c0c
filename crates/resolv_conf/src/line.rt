//! Reading a configuration line by line.

ghost use Rattle.std.specs.Prelude.{◌≡◌, ◌++◌, ◌↔◌, List, Ok, Err, Some, None, option_map, true, false, MatchResult, IsTrue};
ghost use Rattle.std.specs.Str.Iter.{split_whitespace_rest};
ghost use Rattle.resolv_conf.specs.Line.{ServerGives, domain_gives, search_gives, names_of, is_none, is_comment, LineGives, Answers, ReadsSearch};
ghost use Rattle.resolv_conf.specs.Words.{words_of};

use crate::conf::ResolvConf;
use crate::fault::LineFault;
use crate::search::SearchList;
use crate::server::{DNS_PORT, ServerConf, Transport};
use crate::words::next_word;
use dns_names::Name;
use dns_values::{IpAddr, SocketAddr};
use std::alloc::Global;
use std::str::SplitWhitespace;

impl ResolvConf {
    /// Takes a line.
    ///
    /// White space stands between its words. A line without words, and one that begins with `;`
    /// or `#`, sets nothing. `nameserver ADDRESS` adds a server, `domain NAME` and `search NAME..`
    /// set the search list, `options WORD..` sets options, and `sortlist` is ignored. Any other
    /// line is refused with `Parse`; the words before the refused one stand, but a `search` line
    /// that isn't taken whole changes nothing. After `NoMemory` nothing is changed.
    pub fn parse_line(&mut self, alloc: Global, line: &str) -> Result<(), LineFault>
        ensures { Answers (LineGives line.now self.old) self.old result self.new }
    {
        if is_comment(line) {
            return Ok(());
        }
        let mut words = line.split_whitespace();
        let Some(first) = next_word(&mut words) else {
            return Ok(());
        };
        match first {
            "nameserver" => self.take_server(words),
            "domain" => self.take_domain(alloc, words),
            "search" => self.take_search(alloc, words),
            "sortlist" => Ok(()),
            "options" => self.options.take_words(words),
            _ => Err(LineFault::Parse),
        }
    }

    fn take_server(&mut self, mut words: SplitWhitespace<'_>) -> Result<(), LineFault>
        ensures { Answers (ServerGives (words_of (split_whitespace_rest words.entry)) self.old) self.old result self.new }
    {
        let Some(word) = next_word(&mut words) else {
            return Err(LineFault::Parse);
        };
        let Ok(ip) = IpAddr::from_text(word) else {
            return Err(LineFault::Parse);
        };
        let addr = SocketAddr { ip, port: DNS_PORT };
        self.servers.push(ServerConf::new(addr, Transport::UdpTcp))?;
        no_more(words)
    }

    fn take_domain(
        &mut self,
        alloc: Global,
        mut words: SplitWhitespace<'_>,
    ) -> Result<(), LineFault>
        ensures { Answers (λ o. o ≡ domain_gives (words_of (split_whitespace_rest words.entry)) self.old) self.old result self.new }
    {
        let Some(word) = next_word(&mut words) else {
            return Err(LineFault::Parse);
        };
        let name = Name::from_text(alloc, word)?;
        self.options.search = SearchList::from_suffix(alloc, name)?;
        no_more(words)
    }

    fn take_search(&mut self, alloc: Global, words: SplitWhitespace<'_>) -> Result<(), LineFault>
        ensures { Answers (λ o. o ≡ search_gives (words_of (split_whitespace_rest words.entry)) self.old) self.old result self.new }
    {
        self.options.search = read_search(alloc, words)?;
        Ok(())
    }
}

/// Whether no word is left.
fn no_more(mut words: SplitWhitespace<'_>) -> Result<(), LineFault>
    ensures { MatchResult result (λ _. is_none (words_of (split_whitespace_rest words.entry)) ≡ true)
        (λ e. (e ≡ LineFault.Parse) × (is_none (words_of (split_whitespace_rest words.entry)) ≡ false)) }
{
    match next_word(&mut words) {
        None => Ok(()),
        Some(_) => Err(LineFault::Parse),
    }
}

/// The names that all words write, with the root at the end unless it is one of them.
fn read_search(alloc: Global, mut words: SplitWhitespace<'_>) -> Result<SearchList, LineFault>
    ensures { ReadsSearch (names_of (words_of (split_whitespace_rest words.entry))) result }
{
    let mut list = SearchList::new(alloc);
    let mut rooted = false;
    while let Some(word) = next_word(&mut words) {
        let suffix = Name::from_text(alloc, word)?;
        rooted = rooted || suffix.is_root();
        list.push(suffix)?;
    }
    if !rooted {
        list.push_root(alloc)?;
    }
    Ok(list)
}

/// A line that begins with a semicolon or a number sign.
fn is_comment(line: &str) -> bool
    ensures { result ≡ is_comment line.now }
{
    match line.as_bytes() {
        [b';' | b'#', ..] => true,
        _ => false,
    }
}
