//! The words of a lookup, as `dns_lookup` is given them: what they ask, or the first that is wrong.
//!
//! Which words are which lookup, with its requests in order, one at least, and else which is the first wrong one and why:
//! words are one of both, and one alone; the sentence that tells it. By `lookup_of`, `sentence`, `lookup_laws`.
//!
//! ```text
//! match lookup_of(alloc, &words) {
//!     Ok(lookup) => ask(lookup),
//!     Err(Fault::Refused(refusal)) => tell(sentence(alloc, &words, refusal)?),
//!     Err(Fault::NoMemory) => give_up(),
//! }
//! ```
//!
//! `lookup_of` of words: `IsJudged`. They are a lookup, or refused for the first word that is wrong, or for a value or a
//! name that is missing (`LookupGives`, word by word from `nothing_said`), or memory ran out. `lookup_laws`: words are one
//! of both, and one alone. `sentence` of a refusal is the line that names that word as it was given.
//!
//! # Why it is so
//!
//! - **`dns_lookup` has `dig`'s words.** Before `run` takes them, the words of the file that `-f` names stand behind the
//!   others, and addresses in place of a server's name, for which the system's servers are asked by a client of its own; so
//!   what is proved of words and records is of words without either. One client asks all names of a line, so what is of
//!   servers is of all names, and a server behind a name is refused where another name follows: `dig` would ask it that one
//!   alone.
//! - **A word alone is a type where it names one**, as `dig` has it, so that words stand in any order, and any other is a
//!   name; a name that looks like a type needs `-q`. `#PORT` behind a server is the port of all: two that differ are
//!   refused. An option of `dig` whose state can't be changed is taken in that state alone. AXFR is no type of a lookup,
//!   since no one message answers it. The form with `xn--` of a name past ASCII is not made, since that stands on tables of
//!   Unicode.
//! - **Options are the rows of one table**, whose first row counts that a word is short for, as in the table of any program
//!   here (`program_words`). `+trace` is one of them: names are walked to from the root, and what stands then is how `dig`
//!   asks and writes each step, until a later word says otherwise. Suffixes, dots and walks are of all names, since one
//!   client with one configuration asks for all.
#![tactic(auto)]

mod lacking;
mod laws;
mod lookup;
mod manner;
mod number;
mod options;
mod parts;
mod said;
mod setting;
mod short_address;
mod taking;
mod telling;
mod types;
mod wrong;

pub use lacking::Lack;
pub use laws::lookup_laws;
pub use lookup::{Lookup, lookup_of};
pub use manner::{Announced, Ask, Family, Flags, Layout, Manner};
pub use telling::sentence;
pub use wrong::{Fault, Refusal, Value, Wrong};
