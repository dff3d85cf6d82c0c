//! What is wrong with words.

ghost use Rattle.std.specs.Prelude.{◌≡◌};

use dns_base::NoMemory;

/// What is wrong with a word.
#[derive(Clone, Copy)]
pub(crate) enum Wrong {
    /// It stands where a port must, and is no number from 1 to 65535.
    Port,
    /// It stands where a count of octets must, and is none.
    Most,
    /// It is no option, and as the zone's name it is outside the grammar of names, or too long.
    Zone,
    /// It stands behind the zone, where the server must, and is no address.
    Address,
    /// It stands behind the server's address.
    More,
}

/// Why words are no command.
#[derive(Clone, Copy)]
pub(crate) enum Refusal {
    /// The word of this number, counted from 0, is wrong.
    Word { at: usize, wrong: Wrong },
    /// `--port` is the last word.
    NoPort,
    /// `--most` is the last word.
    NoMost,
    /// `--from` is the last word.
    NoFile,
    /// `--output` is the last word.
    NoOutput,
    /// There is no zone.
    NoZone,
    /// The zone is the last word.
    NoAddress,
}

/// Why no command was made of words.
#[derive(Clone, Copy)]
pub(crate) enum Fault {
    /// They are none.
    Refused(Refusal),
    /// Memory ran out.
    NoMemory,
}

/// Why a word was not taken.
#[derive(Clone, Copy)]
pub(crate) enum WordFault {
    Wrong(Wrong),
    NoMemory,
}

impl From<NoMemory> for WordFault {
    ghost use Rattle.zone_fetch_run.specs.declared.wrong.WordFault.{WordFault};

    ghost from_gives = { λ _ e. e ≡ WordFault.NoMemory };

    fn from(_e: NoMemory) -> WordFault {
        WordFault::NoMemory
    }
}
