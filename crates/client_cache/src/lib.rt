//! A cache of results: a request that asks what was asked before is given what came then, as long as that may be
//! kept.
//!
//! A cache over any transport: each call is exactly a step of its plain machine, which says which entry serves a request,
//! as what, what is derived and stored by that, and what is kept of a result; whether a request would be served is told
//! without using an entry. By `Connection`.
//!
//! It is a transport over any other one, of which it knows nothing but that.
//!
//! `Connection` is a transport over any other, seen as `Cached`: the transport below, what is kept (`Kept`: settings,
//! table, what was handed on) and whether it failed. The table is `lru`'s: the list of entries by key, the one used last
//! first, and how many there may be. Its plain machine is `crates/client_cache/specs/Plain.antt`; what an entry gives and
//! what is derived from it stands in `Keeping.antt`. Each call is exactly that machine's step.
//!
//! - A request of which no message can be made has that error as its result, and it is not kept. What has no key
//!   (`Key::asking`) is handed on. No message is composed here: `sole_question` and `check_message` tell what it would ask,
//!   and whether it can be made. The entry under the request's own key is found and used by one look-up.
//! - A request takes the first entry that is there, of the request's own class and of those that have more, then of the
//!   same with RD set (`first_kept`). It is used by that, in time or not. What is derived from an entry under another key
//!   is stored under the request's own, from the first moment (`keeps_derived`); RD is cleared last, and before that the
//!   entry with RD set is stored if its class was another. A message is kept as it came, and beside it the header under
//!   which it is given (`Stored`), since names may be read out of its own. So AA, AD and RD are cleared without reading its
//!   data; from an entry of DO it is written anew, and `MessageParseError` is the answer where it can't be, with nothing
//!   stored.
//! - An entry serves while its age is at most its validity (`serves`): its error, or its message at its age (`shown`). A
//!   message is composed when it is given for the first time and patched from then on, where that may be done (`Form`): the
//!   octets are the same (`views_are_patched`), so nothing is said of it in a clause. What is patched takes at most twice
//!   the octets that came and 512, and four for each record; with the message as it came an entry so has at most some four
//!   times that message and 0.7 KB.
//! - `Connection::would_serve` tells whether a request would have its result at once at a moment (`would_serve`): just
//!   where the way that the machine takes with it is that it is given something, so that the transport below is not called
//!   for it. It uses no entry.
//! - `Connection::entry_count` is how many results are kept.
//! - A result from below is given unchanged and is kept, AA clear, for as long as `validity` says, from the moment it came
//!   (`keeps`); not for no time. A message that has no validity is `MessageParseError`, and is not kept.
//! - Results are taken off a board of the transport's own, in the order in which they came, after each call. One for a
//!   ticket that nothing waits for is handed on as it is: so a request may be sent past the cache, by `upstream_mut`.
//! - `look_ups_are_askings`, of `proof_cache`: what looking up does to the table is what an asking does in the machine of
//!   `proof_right` (`AskDoes`): the same keys in the same order, and the same uses and stores.
//!
//! A client that keeps nothing, or looks nothing up, is refused by `hits` of `Client::replay` too. One that never gives a
//! stale message is refused by `stale` of `Client::replay`, and one that gives such a message while no server failed by
//! `right`.
//!
//! # Why it is so
//!
//! - **The table takes memory as it fills, and is hashed from a seed**, so that who does not know it can't pick names of
//!   equal hash. `with_seed` takes one; `new`, `with_config` and `Client::new`, which is handed no word, have the seed 0.
//!   The seed is in no clause: what the table does is the same.
//! - **A key is hashed by SipHash, in two writes**: eight octets of type, class and flags, and the name in lower case. The
//!   standard library's cheaper hasher (`FoldHasher`) has one seed for all, and begun with one of ours it would have names
//!   that collide under each seed: of a name whose second eight octets are its multiplier, but for one bit, the state is
//!   turned and not mixed.
//! - **Results are taken off the board below after each of the three calls**, so none waits there for a later event. Where
//!   a request is handed on its response holds that of the transport below, and the job is found by that one's ticket: an
//!   event that is no result costs the cache nothing.
//! - **Results without validity.** A message that has none is an error for a request that the cache keeps; the machine may
//!   also give it as it is, as a client without a cache does. Both are right.
//! - **A derived header is kept beside its message.** A pointer may name any place before its own, in the header too, so
//!   octets in which AA is cleared may have other names. `Stored` has the message as it came and the header as it is given:
//!   so every view is one of the first message.
//! - **What a request has to spare is taken when it is asked**, behind deriving: the entry under its own key, with the
//!   class and the name of that request. What others do to the table meanwhile is nothing to it. It is given also where
//!   another entry became fresher while the request waited, and where a newer answer that may not be kept came before. A
//!   response code other than NOERROR and NXDOMAIN that is kept takes the place of the expired message, so that none serves
//!   then. It stands on the heap (`Spared`): few requests have any, and one that waits is moved several times.
//! - **A kept message is composed when it is given for the first time** to a request with the flags of its key, and patched
//!   from then on. What is never asked for again costs nothing more; where memory is wanting the hit is composed, and the
//!   next one tries again. What can't be patched, or is long, is composed each time. A copy of an entry, as one for other
//!   flags, has a template of its own once it is given.
//! - **What is long is not kept.** Written out, a message may be many times what came: an SRV record of 20 octets whose
//!   target is a pointer becomes 273. A template of more than twice the octets that came and 512 is not kept.
//! - **The kit's `lru` keeps the entries**, as a library that is proved and kept well, though a table of our own, whose
//!   places hold hash, name and octets, would read half as many lines of memory at a hit among 100,000 (docs/PROFILE.md).
#![tactic(auto)]

mod connection;
mod entry;
mod finding;
mod form;
mod keeping;
mod serving;
mod settling;
mod steps;
mod table;

pub use cache_rules::{AdDo, Key, validity, view};
pub use client_settings::cache::Config;
pub use connection::{Connection, Request};
pub use table::Flags;
