//! Lookups over any resolver: the names of an address, the addresses of a host, and the servers of a
//! service.
//!
//! Lookups over any resolver: which questions are asked, in which order, and exactly what is made of what they got, each
//! fault by its cause: names of an address, addresses of a host, also by the search list, servers of a service in an order
//! of RFC 2782 with the drawn words. By `lookup_addr`, `lookup_host`, `search_host`, `lookup_srv`, `order_laws`.
//!
//! A lookup is a function of the answers that it gets: its contract says which questions it asks, in
//! which order, and what it makes of what they got.
//!
//! A `Resolver` answers a question of the class IN with something that shows a message. Where it knows them it tells the
//! questions so far, each with what it got (`IsTold`); its count of faults never falls, and each fault but want of memory
//! comes with a rise (`IsCounted`). A question that found no memory may be missing in what is told. Two questions of a name
//! (`query_both`) are asked one after the other, or side by side as the resolver says of such a call (`together`); they are
//! told in order (`AsksBoth`). A resolver that leaves `query_both` out, as `ListResolver` does, asks one after the other,
//! and `together` says of it that nothing is asked side by side.
//!
//! - `lookup_addr` asks for the PTR records of the reverse name, and hands on what that gets. `FoundAddrs::iter` gives
//!   `names_found`.
//! - `lookup_host` asks for A, then for AAAA records of the name, as `query_both` does, and no more; its result is
//!   `hosts_found` of what both got (`LooksUpHost`): `Query` with the fault for AAAA where both failed, `NoQuestion`,
//!   `CnameLoop` by the chosen answer, and both results else. `FoundHosts::new` is that function; `aaaa_rcode` and
//!   `a_rcode` are the codes of the two answers, or the faults (`code_got`); `is_empty`, `qname`, `canonical_name`, `iter`
//!   and `port_iter` read what was found (`addresses_found`: IPv6 addresses, then IPv4 addresses).
//! - `search_host` looks up the name behind each suffix that keeps it within 255 octets, up to the first lookup that is
//!   `Ok` and not empty, which is the result, and else the name alone (`Searches`). After `NoMemory` nothing was asked.
//! - `lookup_srv` answers `LongName` only where the name of the service passes 255 octets, and there always, but for want
//!   of memory; nothing was asked then, and no word drawn (`AsksNothing`). Else it asks for the SRV records of that name,
//!   and makes `service_in` of the answer (`LooksUpSrv`): `MalformedAnswer`, None, the name itself, or the servers in order
//!   (`IsOrder`), with a word drawn for each.
//! - `SrvItem::resolve` gives the addresses that came with the server, and then asks nothing, or else those that a lookup
//!   of its target finds (`Resolves`). `FoundSrvs::merge` orders the items of both lists anew; after `NoMemory` nothing has
//!   changed.
//! - `order_laws`: an order is a permutation, and its priorities never fall.
//! - A fault of a question comes only with a rise of the resolver's count (`HostIsCounted`, `SrvIsCounted`); `NoMemory` is
//!   free.
//! - The iterators give their lists item by item, and end.
//!
//! # Why it is so
//!
//! - **Lookups take `alloc`**, and a resolver's `query` too, since it makes a message. A question that found no memory is
//!   told or not: a resolver in memory that can't keep the question does not ask it. `ListResolver` keeps its questions, so
//!   that it can tell them; `with_search` gives it suffixes.
//! - **`search_host` makes all names first**, so that want of memory comes before the first question, and the suffixes that
//!   the resolver lends are given back before it is asked. `SearchIter` stands in `resolv_lookup`, beside the trait that
//!   hands it out.
//! - **The word of a draw** is bounded by the sum of the weights in the definition, which changes nothing for words of 64
//!   bits; so the laws of the order hold for any words.
#![tactic(auto)]

mod addr;
mod address_iter;
mod answer;
mod answer_section;
mod fault;
mod fault_text;
mod host;
mod host_table;
mod laws;
mod list_resolver;
mod owned;
mod resolver;
mod search;
mod search_iter;
mod service;
mod srv;
mod srv_item;
mod srv_order;

pub use addr::{FoundAddrs, FoundAddrsIter, lookup_addr};
pub use answer::Answer;
pub use fault::{HostFault, QueryFault, SrvError};
pub use host::{FoundHosts, FoundHostsIter, FoundHostsSocketIter, lookup_host};
pub use laws::order_laws;
pub use list_resolver::ListResolver;
pub use resolver::{AsMessage, Asking, Resolver, SearchNames};
pub use search::search_host;
pub use search_iter::SearchIter;
pub use srv::{FoundSrvs, IntoSrvs, lookup_srv};
pub use srv_item::{ResolvedSrvItem, Srv, SrvItem};
