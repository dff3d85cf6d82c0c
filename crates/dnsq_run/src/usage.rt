//! The words of the command line, and the numbers among them.

ghost use Rattle.std.specs.Prelude.{◌≡◌, None, IfSome, ◌≤◌};
ghost use Rattle.dnsq_run.specs.Generating.{count_of};
ghost use Rattle.dnsq_run.specs.Words.{command_of};
ghost use Rattle.dns_script.specs.Reading.{number_of};

/// What the words ask for.
#[derive(Clone, Copy, Debug, PartialEq, Eq)]
pub enum Command {
    /// Replays a script.
    Replay,
    /// Reads a configuration, finalizes it and prints it.
    Conf,
}

/// What is written where the words are no command.
pub const USAGE_LINE: &str = "usage: dnsq replay|conf|gen N|many|query NAME TYPE [--port P]\n";

/// The command of the words, which do not hold the program's own name.
pub fn command_of(words: &[String]) -> Option<Command>
    ensures command { result ≡ command_of words.now }
    ensures no_count { IfSome result (λ _. count_of words.now ≡ None) }
{
    match words {
        [word] if word.as_bytes() == b"replay".as_slice() => Some(Command::Replay),
        [word] if word.as_bytes() == b"conf".as_slice() => Some(Command::Conf),
        _ => None,
    }
}

/// A decimal number without sign or leading zeros, which is at most the greatest.
pub fn number_of(greatest: u16, word: &[u8]) -> Option<u16>
    ensures value { result ≡ number_of greatest word.now }
    ensures most { IfSome result (λ n. n ≤ greatest) }
{
    let number = dns_script::number_of(u64::from(greatest), word)?;
    Some(number as u16)
}
