//! Tests of what the programs `dnsq` and `dns_lookup` do, over sources and sinks in memory.

mod generated;
mod lookup_runs;
mod lookups;
mod queries;
mod runs;
mod sinks;
mod statuses;
