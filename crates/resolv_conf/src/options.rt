//! How a resolver goes about its questions.

ghost use Rattle.std.specs.Prelude.{◌≡◌, IfOk};
ghost use Rattle.resolv_conf.specs.Conf.{default_options};

use crate::search::SearchList;
use dns_values::{Duration, NoMemory};
use std::alloc::Global;

/// The options of a resolver; some are kept and printed alone, and change nothing else.
#[derive(Debug, Drop)]
pub struct ResolvOptions {
    /// The suffixes that are tried with a short name.
    pub search: SearchList,
    /// Kept alone, nothing reads it: a name with fewer dots is tried with the search list first.
    pub ndots: usize,
    /// How long a request may take.
    pub timeout: Duration,
    /// Kept alone, nothing reads it: how often a server is asked.
    pub attempts: usize,
    /// Kept alone: authoritative answers only (RFC 1035 4.1.1).
    pub aa_only: bool,
    /// Whether servers are asked by streams alone.
    pub use_vc: bool,
    /// Kept alone: the primary server only.
    pub primary: bool,
    /// Kept alone: recursion is desired (RFC 1035 4.1.1).
    pub recurse: bool,
    /// Kept alone: a name without a dot gets the default domain.
    pub default_names: bool,
    /// Kept alone: a connection stays open between questions.
    pub stay_open: bool,
    /// Kept alone: parents of the domain are searched.
    pub dn_search: bool,
    /// Kept alone: `inet6`, IPv6 addresses are asked for first.
    pub use_inet6: bool,
    /// Kept alone: servers take turns.
    pub rotate: bool,
    /// Kept alone: `no-check-names`, names may have any octets.
    pub no_check_name: bool,
    /// Kept alone: TSIG records are left in messages (RFC 8945).
    pub keep_tsig: bool,
    /// Kept alone: all servers are asked at once.
    pub blast: bool,
    /// Kept alone: `ip6-bytestring`, reverse names of IPv6 as bit strings (RFC 2673).
    pub use_bstring: bool,
    /// Kept alone: `ip6-dotint`, reverse names of IPv6 under ip6.int.
    pub use_ip6dotint: bool,
    /// Kept alone: `edns0`, an OPT record is sent (RFC 6891).
    pub use_edns0: bool,
    /// Kept alone: addresses of IPv4 and IPv6 are asked for one after the other.
    pub single_request: bool,
    /// Kept alone: and by another socket.
    pub single_request_reopen: bool,
    /// Kept alone: a name without a dot is not asked for as it is.
    pub no_tld_query: bool,
}

impl ResolvOptions {
    /// The defaults: one dot, five seconds, two attempts, and an empty search list. It takes no
    /// memory.
    pub fn new(alloc: Global) -> ResolvOptions
        ensures { result ≡ default_options }
    {
        ResolvOptions {
            search: SearchList::new(alloc),
            ndots: 1,
            timeout: Duration::from_secs(5),
            attempts: 2,
            aa_only: false,
            use_vc: false,
            primary: false,
            recurse: true,
            default_names: true,
            stay_open: false,
            dn_search: true,
            use_inet6: false,
            rotate: false,
            no_check_name: false,
            keep_tsig: false,
            blast: false,
            use_bstring: false,
            use_ip6dotint: false,
            use_edns0: false,
            single_request: false,
            single_request_reopen: false,
            no_tld_query: false,
        }
    }

    /// The same options.
    pub fn try_clone(&self, alloc: Global) -> Result<ResolvOptions, NoMemory>
        ensures { IfOk result (λ o. o ≡ self.now) }
    {
        let search = self.search.try_clone(alloc)?;
        Ok(ResolvOptions { search, ..*self })
    }
}
