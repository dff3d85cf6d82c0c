//! Tests of what several threads share: a history, a client, and a forwarder, which is tried by one thread too.
#![tactic(auto)]

#[cfg(test)]
mod clients;
#[cfg(test)]
mod forwarders;
#[cfg(test)]
mod histories;
