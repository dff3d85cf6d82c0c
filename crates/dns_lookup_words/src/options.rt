//! The options that begin with a plus.

ghost use Rattle.std.specs.Prelude.{◌≡◌, ◌≤◌, length, IsTrue};
ghost use Rattle.program_words.specs.Rows.{said_in};
ghost use Rattle.dns_lookup_words.specs.Options.{is_off, plus_options, without_no};

use crate::lacking::Lack;
use program_words::{Letters, Row, said_in};

/// A part of what a request says.
#[derive(Clone, Copy)]
pub(crate) enum Flag {
    /// Whether the server is to ask others.
    Recursion,
    /// Whether it is to say that an answer is authentic.
    Authentic,
    /// Whether it may give what it could not validate.
    Unchecked,
    /// The bit AA.
    Authoritative,
    /// The bit TC.
    Truncated,
    /// The bit RA.
    Available,
    /// The bit without a meaning.
    Reserved,
    /// Whether records of DNSSEC are asked for.
    Dnssec,
    /// Whether the server is asked for its name.
    Nsid,
    /// Whether it is asked when its copy of the zone expires.
    Expire,
}

/// A part of what is written of an answer.
#[derive(Clone, Copy)]
pub(crate) enum Part {
    Short,
    Identify,
    Json,
    Yaml,
    Multiline,
    Ttl,
    Class,
    Units,
    Expanded,
    Query,
    Question,
    Answer,
    Authority,
    Additional,
    Comments,
    Stats,
}

/// What an option sets.
#[derive(Clone, Copy)]
pub(crate) enum Sets {
    /// Whether servers are asked by streams alone.
    Tcp,
    /// How long a request may take.
    Time,
    /// In how many rounds servers are asked.
    Tries,
    /// The payload size that requests announce.
    Size,
    /// What a request says.
    Flag(Flag),
    /// What is written of an answer.
    Part(Part),
    /// Whether suffixes are searched.
    Search,
    /// The suffix that is searched.
    Domain,
    /// How many dots a name has that is asked for as it stands first.
    Dots,
    /// Whether names are asked for from the root on.
    Walk,
    /// Whether sections, comments and statistics are written.
    All,
    /// Whether requests announce a payload size, by EDNS version 0 (RFC 6891).
    Edns,
    /// What is done already, and can't be left.
    Already(Lack),
    /// What is never done.
    Never(Lack),
    /// What can be neither asked for nor left.
    Absent(Lack),
}

/// The options of dig, of which the first that a word is short for counts.
const PLUS_OPTIONS: [Row<Sets>; 72] = [
    ("aaflag", Letters::First(2), Sets::Flag(Flag::Authoritative)),
    ("aaonly", Letters::First(2), Sets::Flag(Flag::Authoritative)),
    ("adflag", Letters::First(2), Sets::Flag(Flag::Authentic)),
    (
        "additional",
        Letters::First(3),
        Sets::Part(Part::Additional),
    ),
    ("all", Letters::First(2), Sets::All),
    ("answer", Letters::First(2), Sets::Part(Part::Answer)),
    ("authority", Letters::First(2), Sets::Part(Part::Authority)),
    ("badcookie", Letters::First(2), Sets::Never(Lack::Cookie)),
    (
        "besteffort",
        Letters::First(2),
        Sets::Absent(Lack::Transport),
    ),
    ("bufsize", Letters::First(2), Sets::Size),
    ("cdflag", Letters::First(2), Sets::Flag(Flag::Unchecked)),
    ("class", Letters::First(2), Sets::Part(Part::Class)),
    ("cmd", Letters::First(2), Sets::Never(Lack::Text)),
    ("comments", Letters::First(3), Sets::Part(Part::Comments)),
    ("cookie", Letters::First(3), Sets::Never(Lack::Cookie)),
    ("crypto", Letters::First(2), Sets::Already(Lack::Text)),
    ("defname", Letters::First(3), Sets::Search),
    ("dnssec", Letters::First(4), Sets::Flag(Flag::Dnssec)),
    ("do", Letters::First(2), Sets::Flag(Flag::Dnssec)),
    ("domain", Letters::First(3), Sets::Domain),
    ("edns", Letters::First(2), Sets::Edns),
    (
        "ednsflags",
        Letters::First(5),
        Sets::Absent(Lack::Extension),
    ),
    (
        "ednsnegotiation",
        Letters::First(5),
        Sets::Never(Lack::Extension),
    ),
    ("ednsopt", Letters::First(5), Sets::Absent(Lack::Extension)),
    ("expandaaaa", Letters::First(4), Sets::Part(Part::Expanded)),
    ("expire", Letters::First(4), Sets::Flag(Flag::Expire)),
    ("fail", Letters::First(1), Sets::Never(Lack::Transport)),
    ("header-only", Letters::First(2), Sets::Never(Lack::Header)),
    ("https", Letters::First(2), Sets::Never(Lack::Encryption)),
    ("identify", Letters::First(3), Sets::Part(Part::Identify)),
    ("idnin", Letters::First(4), Sets::Never(Lack::Letters)),
    ("idnout", Letters::First(4), Sets::Never(Lack::Letters)),
    ("ignore", Letters::First(2), Sets::Never(Lack::Transport)),
    ("json", Letters::First(1), Sets::Part(Part::Json)),
    (
        "keepalive",
        Letters::First(5),
        Sets::Absent(Lack::Extension),
    ),
    (
        "keepopen",
        Letters::First(5),
        Sets::Already(Lack::Transport),
    ),
    ("mapped", Letters::First(2), Sets::Never(Lack::Transport)),
    ("multiline", Letters::First(2), Sets::Part(Part::Multiline)),
    ("ndots", Letters::First(2), Sets::Dots),
    ("nsid", Letters::First(3), Sets::Flag(Flag::Nsid)),
    ("nssearch", Letters::First(3), Sets::Never(Lack::Walk)),
    ("onesoa", Letters::First(2), Sets::Absent(Lack::Text)),
    ("opcode", Letters::First(2), Sets::Absent(Lack::Header)),
    ("padding", Letters::First(1), Sets::Absent(Lack::Extension)),
    ("qid", Letters::First(2), Sets::Absent(Lack::Header)),
    ("qr", Letters::First(2), Sets::Part(Part::Query)),
    ("question", Letters::First(2), Sets::Part(Part::Question)),
    ("quic", Letters::First(4), Sets::Never(Lack::Encryption)),
    ("raflag", Letters::First(2), Sets::Flag(Flag::Available)),
    ("rdflag", Letters::First(2), Sets::Flag(Flag::Recursion)),
    ("recurse", Letters::First(3), Sets::Flag(Flag::Recursion)),
    ("retry", Letters::First(3), Sets::Absent(Lack::Tries)),
    ("rrcomments", Letters::First(2), Sets::Never(Lack::Text)),
    ("search", Letters::First(2), Sets::Search),
    ("short", Letters::First(4), Sets::Part(Part::Short)),
    ("showsearch", Letters::First(5), Sets::Never(Lack::Suffixes)),
    ("split", Letters::First(2), Sets::Never(Lack::Text)),
    ("stats", Letters::First(2), Sets::Part(Part::Stats)),
    ("subnet", Letters::First(2), Sets::Never(Lack::Subnet)),
    ("tcflag", Letters::First(3), Sets::Flag(Flag::Truncated)),
    ("tcp", Letters::First(2), Sets::Tcp),
    ("time", Letters::First(2), Sets::Time),
    ("timeout", Letters::First(5), Sets::Time),
    ("tls", Letters::First(2), Sets::Never(Lack::Encryption)),
    ("trace", Letters::First(3), Sets::Walk),
    ("tries", Letters::First(3), Sets::Tries),
    ("ttlid", Letters::First(4), Sets::Part(Part::Ttl)),
    ("ttlunits", Letters::First(4), Sets::Part(Part::Units)),
    ("unknownformat", Letters::First(3), Sets::Never(Lack::Text)),
    ("vc", Letters::First(1), Sets::Tcp),
    ("yaml", Letters::First(1), Sets::Part(Part::Yaml)),
    ("zflag", Letters::First(1), Sets::Flag(Flag::Reserved)),
];

/// What the option sets that a text is short for.
#[tactic(auto, unfolding(crate::specs::Options::plus_options))]
pub(crate) fn sets_of(text: &[u8]) -> Option<Sets>
    ensures { result ≡ said_in plus_options text.now }
{
    said_in(&PLUS_OPTIONS, text)
}

/// Whether `no` stands before the name of an option, in any case.
pub(crate) fn is_off(text: &[u8]) -> bool
    ensures value { result ≡ is_off text.now }
    ensures within { IsTrue result → 2 ≤ length text.now }
{
    text.len() >= 2 && text[..2].eq_ignore_ascii_case(b"no")
}

/// The name of an option without a `no` before it.
pub(crate) fn without_no(text: &[u8]) -> &[u8]
    ensures { result.now ≡ without_no text.now }
{
    if is_off(text) { &text[2..] } else { text }
}
