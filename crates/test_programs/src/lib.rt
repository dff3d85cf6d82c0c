//! Tests of what the programs `dnsq` and `dns_lookup` do, and of records, over sources and sinks in memory.
#![tactic(auto)]

#[cfg(test)]
mod programs;
#[cfg(test)]
mod records;
