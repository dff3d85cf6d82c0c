//! What is wrong with words.

ghost use Rattle.std.specs.Prelude.{◌≡◌};

use crate::lacking::Lack;
use dns_values::NoMemory;

/// What is wrong with a word.
#[derive(Clone, Copy, Debug, PartialEq, Eq)]
pub enum Wrong {
    /// What stands behind its `@` is no address and not `localhost`.
    Server,
    /// What stands behind its `@` has a percent sign, behind which a scope stands (RFC 4007 11).
    Scope,
    /// What stands behind the `#` of its server is no number from 1 to 65535.
    ServerPort,
    /// What stands behind the `#` of its server is another port than one that was said before.
    OtherPort,
    /// It stands where a port must, and is no number from 1 to 65535.
    Port,
    /// It stands where an address must, and is none.
    Address,
    /// It stands where the name must, and is none: outside the grammar of names, or too long.
    Name,
    /// It stands where the name must, and has octets past ASCII, as names of people's languages do (RFC 5890 2.3.2.1).
    Idn,
    /// It names a server, and several names stand before it.
    Late,
    /// It stands where a name or an address must, and a server stands before it behind a name.
    Parted,
    /// It stands where a type must, and is none.
    Type,
    /// It is AXFR, or begins with `IXFR=`, which no one message answers.
    Transfer,
    /// It stands where a class must, and is none.
    Class,
    /// It is a class, and not IN, CH or HS.
    OtherClass,
    /// What stands behind its `+time=` is no number from 0 to 600.
    Time,
    /// What stands behind its `+tries=` is no number from 0 to 5.
    Tries,
    /// What stands behind its `+bufsize=` is no number from 0 to 65535.
    Size,
    /// No name stands behind its `+domain=`.
    Suffix,
    /// What stands behind its `+ndots=` is no number from 0 to 65535.
    Dots,
    /// It begins as an option does, and is none.
    Option,
    /// It is an option that dig has, and that is not to be had here.
    Lacking(Lack),
    /// A value stands in it, and its option has none.
    Valued,
}

/// What stands behind an option of one letter.
#[derive(Clone, Copy, Debug, PartialEq, Eq)]
pub enum Value {
    /// The port of all servers, behind `-p`.
    Port,
    /// The address whose names are asked for, behind `-x`.
    Address,
    /// The type, behind `-t`.
    Type,
    /// The class, behind `-c`.
    Class,
    /// The name, behind `-q`.
    Name,
}

/// Why words are no lookup.
#[derive(Clone, Copy, Debug, PartialEq, Eq)]
pub enum Refusal {
    /// The word of this number, counted from 0, is wrong.
    Word { at: usize, wrong: Wrong },
    /// The last word is an option whose value must stand behind it.
    NoValue(Value),
    /// There is no name and no address.
    NoName,
}

/// Why no lookup was made of words.
#[derive(Clone, Copy, Debug, PartialEq, Eq)]
pub enum Fault {
    /// They are none.
    Refused(Refusal),
    /// Memory ran out.
    NoMemory,
}

/// Why a word was not taken.
#[derive(Clone, Copy)]
pub(crate) enum WordFault {
    Wrong(Wrong),
    NoMemory,
}

impl From<NoMemory> for WordFault {
    ghost use Rattle.dns_lookup_words.specs.declared.wrong.WordFault.{WordFault};

    ghost from_gives = { λ _ e. e ≡ WordFault.NoMemory };

    fn from(_e: NoMemory) -> WordFault {
        WordFault::NoMemory
    }
}
