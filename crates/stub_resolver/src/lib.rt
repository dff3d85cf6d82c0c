//! A stub resolver: lookups over a client of the servers of a configuration.
//!
//! A resolver with a client, an edge, a clock and words of its own: a query is one request of the client, asked once more
//! where its reply says that it could not be read, tied to the edge's polls and acts and the clock's moments as `ask` is;
//! two questions of a name wait at once, so that both deadlines pass together, and so do as many questions as `resolve_all`
//! is given, each of which gets what the reply to its own request says; the lookups over it are those of `resolv_lookup`;
//! the edge learns each server before the client has it; what fails, why, and what that leaves. By `StubResolver::query`,
//! `query_both`, `resolve_all`, `lookup_hosts`, `with_settings`, `from_conf`, `new`, `add_connection`, `run`,
//! `run_with_conf`, the lookups, `Query::run`.
//!
//! `StubResolver` asks those servers, and each lookup can be made over it. It is in no hurry of its own: what happens at
//! sockets comes from its edge, the time from its clock, and the words of chance from its words, so that it runs in memory as
//! well as over the system's sockets.
//!
//! ```text
//! let mut resolver = StubResolver::new(alloc, &mut opener, edge, clock, words)?;
//! let host = Name::from_text(alloc, "www.example.com")?;
//! for address in resolver.lookup_host(alloc, &host)?.iter() { .. }
//! ```
//!
//! `StubResolver` is seen as `Stub`: a plain client, the options of its configuration, its edge, clock and words, a count
//! of the queries that got no message, and whether it failed. What is seen of it by what these tell is a scene of
//! `client_loop` (`seen`).
//!
//! - `with_settings`: a new client of the configuration with these settings, whose edge learned the servers in order
//!   (`IsNewWith`); `from_conf` is that with the default settings (`IsNew`); `new` is that with the configuration of the
//!   system's file (`ByFile`). `NoMemory` alone.
//! - `query`: `Gets`. The question is asked with RD set, and the reply is the client's (`IsAnswered`, a million turns at
//!   most); where it says that the question could not be read, the same is asked once more, with a timeout of its own
//!   (`Replies`). Any message is an answer. `NoReply` where no reply came in a million turns, `Client` with the client's
//!   error else. After `NoMemory` or `NumbersUsed` (`Stops`) the resolver has failed: each further query is
//!   `Client(Failed)` and changes the count alone (`failed`).
//! - `query_both`: `AskBoth`. Where the resolver has not failed, neither question is for a whole zone and two numbers are
//!   left (`CanWait`), both are asked side by side (`QueriesBoth`, by `AreAnswered` of `client_loop`), and then each whose
//!   reply says that it could not be read once more, the first before the second (`SettleBoth`). Else they take turns: one
//!   query, then the other (`MustTakeTurns`, `TakeTurns`). Where numbers or memory run out while both wait, both have that
//!   fault.
//! - `resolve_all`: `QueriesAll`. The questions that one message answers (`is_asked`) are asked at once (`AllReplied` of
//!   `client_loop`, in one run of the plain client's rows), and once more, at once too, those whose replies say that they
//!   could not be read (`unread`, `settled`). What each question gets is, in the order of the questions, what the reply to
//!   its own request says, whatever the others get (`gots_of`); one for a whole zone is `Client(FormError)`. An error of
//!   them all is `NumbersUsed` (`StopsAll`) or `NoMemory`, after which the resolver has failed, or `Failed` where it had.
//! - `lookup_hosts`: `LooksUpHosts`. Of each host its A and its AAAA records are asked for, all of them at once by
//!   `resolve_all`, and each result is `hosts_found` of what its own two questions got (`all_found`).
//! - `Error` is made of each error of these calls, of a name that is none, and of a failed stream; it prints what they do
//!   (`error_text`).
//! - `Query::run`: the same with a message of one's own; `disable_edns` lets the first answer stand.
//! - `add_connection`: the edge learns the server (`learned`), then the client has it (`added`); else `NoMemory`, and it
//!   has failed.
//! - The lookups are those of `resolv_lookup` over queries of this resolver (`AsksStub`, and `AsksStubBoth` for those of a
//!   host), each with its count and faults.
//! - `run_with_conf` and `run` call an operation with a new resolver and give what it gives; where there is no memory for
//!   one, what its fault's type makes of that (`IsDone`).
//!
//! # Why it is so
//!
//! - **Many questions at once are one call with one list of results.** `resolve_all` asks them by `client_loop::ask_all`,
//!   which gives all replies when the last is there; a call that gives each as it comes would need one that hands on what
//!   each turn brings. A question for a whole zone is left out, and has its own fault. Those that could not be read are
//!   asked again together, of the cache where it keeps such a reply. Want of memory or numbers is an error of them all.
//! - **A resolver's calls keep their own faults**, since their clauses speak of them; `stub_resolver::Error` is for
//!   programs, which `?` makes of any of them.
//! - **A lookup of a host asks for A and AAAA side by side, and tells A, then AAAA.** `Resolver::query_both` is a call of
//!   its own, whose default asks one after the other; what a resolver says of asking two at once (`together`) is no fact
//!   where it can't. `StubResolver` waits for both but where it has failed, where one of the types is AXFR, or where no two
//!   numbers are left. A question that could not be read is asked once more when both have their replies, since its server
//!   is there. Where memory or numbers run out, both questions have that fault, also one that had its reply.
#![tactic(auto)]

mod all;
mod asking;
mod both;
mod error;
mod lookups;
mod query;
mod question;
mod running;
mod stub;

pub use all::Question;
pub use client_core::{Settings, Transports, cache, dgram, multi_stream, redundant, stream};
pub use error::Error;
pub use query::Query;
pub use resolv_lookup::{
    Answer, AsMessage, Asking, FoundAddrs, FoundAddrsIter, FoundHosts, FoundHostsIter,
    FoundHostsSocketIter, FoundSrvs, HostFault, IntoSrvs, ListResolver, QueryFault,
    ResolvedSrvItem, Resolver, SearchIter, SearchNames, Srv, SrvError, SrvItem, lookup_addr,
    lookup_host, lookup_srv, order_laws, search_host,
};
pub use stub::StubResolver;
