//! What a resolver does in practice: configurations as they are found, and settings with which a dead server is passed by.
//!
//! Of a file as it is found each line is read without its comment, each option for itself and an address without its zone
//! identifier, by the grammar of `resolv_conf`; each line that this refuses is told, by its number and why, and no other; a
//! client is given each server `attempts` times in rounds, from a drawn one on where they take turns, a deadline as long as
//! all rounds, settings by which errors of a transport, REFUSED and SERVFAIL wait for the other servers, and settings of
//! transports by which a round asks again and none of them does. By `Found::read`, `practical`, `practical_choice`,
//! `practical_transports`.
//!
//! `resolv_conf` reads a file exactly and refuses it at the first line that is outside the grammar. Here what is understood of
//! each line is taken, and what isn't is told. Of the configuration and of chance the one is made that a client is given: each
//! server is named as often as it may be asked, so that a lost datagram is asked again by the client's own choice among servers.
//!
//! ```text
//! let mut found = Found::read(alloc, &mut source)?;
//! for note in found.notes.as_slice() { .. }
//! found.conf.finalize(alloc)?;
//! let conf = practical(alloc, found.conf, &mut words)?;
//! let settings = Settings { redundant: practical_choice(), cache: cache::Config::new(), transports: practical_transports(&conf) };
//! let client = Client::with_settings(alloc, &conf, settings, 0)?;
//! ```
//!
//! - `Found::read` of a source: what is found in its text (`IsFoundIn`), where the source tells it, which was then read to
//!   its end. `TooLong` only where it gives more than 16777216 octets, `Failed` only where its count of faults rose; or
//!   memory ran out.
//! - `practical` of a configuration and words: that configuration as a client is given it (`practical`), and the words that
//!   are left (`words_left`): one fewer with `rotate`. Or memory ran out.
//! - `practical_choice`: the settings by which an error of a transport, REFUSED and SERVFAIL of one server wait for the
//!   others.
//! - `practical_transports` of a configuration that `practical` made: 1000 places at a server, no try but the first, an
//!   answer by datagram that counts as long as the request may take, and a stream that waits for one as long as a round.
//!   `announcing` and `with_places` change the payload size and the places alone.
//!
//! # Why it is so
//!
//! - **No try but the first, and an answer counts to the end**: the rounds ask again, each at a place of its own, so a try of
//!   the transport would only ask the same server once more. What a slow server answers after its round is an answer all the
//!   same. A server has a number in each round, and its places are counted by numbers: so a server is asked at as many
//!   sockets as it has places, times the rounds.
//! - **`attempts` counts from 1 to 5, and `timeout` from 1 to 30 seconds**, as resolver(5) says of the C library's; 0
//!   counts as 1 there too. The options stay as they were read, but for `timeout`, which is the client's deadline and
//!   becomes as long as all rounds.
//! - **A file as it is found** is read by the exact grammar of `resolv_conf`, line by line: a comment may stand behind
//!   words, where a blank stands before its sign; each option is a line of its own; a server's line ends at a percent sign,
//!   since an address here has no zone. The address without its zone is asked all the same: a global one is reached, a
//!   link-local one fails at once. What is refused is told and leaves what the exact reader leaves. Short addresses
//!   (`10.1`), which the C library takes, are none here, and all servers are asked, of which it takes three.
#![tactic(auto)]

mod found;
mod note;
mod plain;
mod practice;

pub use found::Found;
pub use note::{Note, Notes, Why};
pub use practice::{
    announcing, practical, practical_choice, practical_options, practical_transports, with_places,
};
