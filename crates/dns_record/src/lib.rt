//! What a live client saw, as a script that replays.
//!
//! What a client saw while it was recorded stands in the sink as a script, whose replay is the first of the rows that the
//! client put out, and all of them while the record goes on; cut anywhere, it is one up to its last whole line; a request
//! that is asked and recorded is asked as without a record, with the words that were written. By `Recorder`,
//! `recorded_turn`, `recorded_ask`, `record_law`.
//!
//! A recorder stands between a client and whoever holds it: it hands the client its words, and writes each event that the client
//! took as a line of a script. A replay of the script gives the very rows that the client put out. The words are drawn ahead and
//! written before the first event, where a script has them; the record ends before they run out, and from then on the client draws
//! from its own source.
//!
//! A record ends at its last whole line, and the client goes on: `Recorder::ended` tells why, and `Recorder::lost` how many events
//! came since.
//!
//! ```text
//! let mut recorder = Recorder::begin(alloc, &conf, choice, &cache, &mut words, Ahead::LARGE, &mut sink)?;
//! let mut client = Client::new(alloc, &conf, choice, cache)?;
//! let row = recorded_turn(&mut client, &mut edge, &mut clock, &mut words, &mut recorder, &mut sink)?;
//! ```
//!
//! - A `Recorder` draws words ahead (`drawn`), and writes them with the configuration and the settings; each event that the
//!   client took in `Recorder::step` or `recorded_turn` is then one line more. While the record goes on, the client draws
//!   the words that were written, as a replay of the script does, and behind its end those of its own source (`Takes`).
//!   What holds of it from one call to the next is `Recorded`: of the client of an `Opening` that has put out rows, all
//!   rows are told so far (`GoesOn`), or it has ended and the first of them are (`HasEnded`); `Keeps` says that a call's
//!   rows come behind those before.
//! - `record_law`: whatever was recorded, the sink has a text that is a script of at most 16777216 octets, and its replay
//!   (`plain_trace`, which is what `Client::replay` gives) is the first of the rows that the client put out: all of them,
//!   as long as the record goes on. Behind it stands at most the first of one more line, where the sink failed in it. Cut
//!   anywhere behind what stands before the first event, this text is up to its last whole line such a record too
//!   (`IsCutRecord`).
//! - A record ends where a line would pass that limit, where fewer words are left than was said, where the sink failed,
//!   where memory for a line ran out, where an event has a fault of the client's own, and where a server is added (`Ended`,
//!   each but want of memory with its cause, `EndsFor`); the client goes on, and `lost` counts the events from then on.
//!   `begin` refuses a configuration whose servers are not asked alike, a time that is no whole number of seconds, and a
//!   setting outside its limits (`IsRefused`).
//! - `recorded_ask` asks a request as `client_loop::ask` does (`IsAnswered`, with the words that were written), also behind
//!   the record's end, and records the rows of its asking and its turns (`IsAnsweredAnd`); each of its steps finds as many
//!   words as was said.
//!
//! # Why it is so
//!
//! - **The recorder owns the words for one step**, since a step does not say that it gives back what it borrowed; between
//!   calls they lie in an `Option`. The words that are drawn ahead have a name in contracts (`words_ahead`), which no proof
//!   but that of the record's beginning opens.
#![tactic(auto)]

mod asking;
mod block;
mod ended;
mod laws;
mod recorder;
mod turns;

pub use asking::recorded_ask;
pub use block::Block;
pub use ended::{Ended, Refused};
pub use laws::record_law;
pub use recorder::{Ahead, Recorder};
pub use turns::recorded_turn;
