//! What dig does, and a lookup does not.

ghost use Rattle.std.specs.Prelude.{◌≡◌};
ghost use Rattle.dns_lookup_words.specs.Sentences.{lack_text};

/// What is asked for by an option of dig that is not to be had.
#[derive(Clone, Copy, Debug, PartialEq, Eq)]
pub enum Lack {
    /// Requests by TLS, HTTPS or QUIC.
    Encryption,
    /// A cookie (RFC 7873).
    Cookie,
    /// The network of a client (RFC 7871).
    Subnet,
    /// A version, a flag or an option of EDNS (RFC 6891).
    Extension,
    /// Another id or opcode, or no question.
    Header,
    /// How often a server is asked again.
    Tries,
    /// What is done with an answer that is truncated or broken, or with a stream.
    Transport,
    /// What is answered while suffixes are tried.
    Suffixes,
    /// A walk to all servers of a zone.
    Walk,
    /// Another text of an answer.
    Text,
    /// Names in letters past ASCII (RFC 5891).
    Letters,
    /// The address of this host from which requests go.
    Source,
    /// Requests that are signed (RFC 8945).
    Signature,
    /// An option of the program dig itself.
    Program,
}

/// What is told of it.
pub(crate) fn lack_text(lack: Lack) -> &'static str
    ensures { result.now ≡ lack_text lack }
{
    match lack {
        Lack::Encryption => { "asks for TLS, HTTPS or QUIC, and requests go by UDP and TCP alone" }
        Lack::Cookie => "asks for a cookie, and no request has one",
        Lack::Subnet => "asks for the network of a client, and no request has one",
        Lack::Extension => {
            "asks for another version, flag or option of EDNS than +dnssec, +nsid and +expire ask for"
        }
        Lack::Header => {
            "asks for another id or opcode, or for no question, and each request is a query with one"
        }
        Lack::Tries => {
            "asks for a number of tries behind the first, and +tries says how many there are with it"
        }
        Lack::Transport => {
            "asks for another way with truncated or broken answers or with streams than the usual"
        }
        Lack::Suffixes => {
            "asks for what is answered on the way of a search, and one answer is written for a name"
        }
        Lack::Walk => {
            "asks for the start of a zone at each of its servers, and one answer is asked for"
        }
        Lack::Text => "asks for a text of records that is not written",
        Lack::Letters => {
            "asks for names in letters past ASCII, which are asked for and written as xn-- has them"
        }
        Lack::Source => { "asks for an address of this host to ask from, which the system chooses" }
        Lack::Signature => "asks for a signed request (TSIG), and none is signed",
        Lack::Program => "asks for a way of dig's own, which is not there",
    }
}
