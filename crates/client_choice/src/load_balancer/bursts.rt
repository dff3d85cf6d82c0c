//! How many requests each server of a balancer gets in a burst.

ghost use Rattle.std.specs.Prelude.{◌≡◌, OnOk, IfOk};
ghost use Rattle.client_choice.specs.Bursts as plain;
ghost use Rattle.client_choice.specs.BalancerSettings.{BurstSettings};

use crate::candidates::Candidate;
use crate::load_balancer::config::ConnConfig;
use crate::servers::Server;
use dns_base::NoMemory;
use std::alloc::Global;
use std::marker::Model;

/// The limit of a server: when its burst began, in microseconds, and how many requests had been started
/// there before.
#[derive(Clone, Copy, Debug, PartialEq, Eq)]
pub struct Limit {
    config: ConnConfig,
    since: u64,
    before: u64,
}

impl Model for Limit {
    ghost use Rattle.client_choice.specs.Bursts.{Limit};

    ghost Value = { Limit };

    ghost view = { λ l. record { settings = l.config; since = l.since; before = l.before } };

    ghost inverse = { λ l. record { config = l.settings; since = l.since; before = l.before } };
}

impl Limit {
    /// The first burst begins at moment 0.
    pub(crate) fn new(config: ConnConfig) -> Limit
        ensures { result ≡ plain.fresh_limit config }
    {
        Limit {
            config,
            since: 0,
            before: 0,
        }
    }

    /// A burst begins anew where requests are limited and the last one began too long ago.
    fn restart(&mut self, now: u64, starts: u64)
        ensures { self.new ≡ plain.restarted now starts self.old }
    {
        if self.config.max_burst().is_none() {
            return;
        }
        let passed = now.saturating_sub(self.since);
        if u128::from(passed) > self.config.burst_interval().as_micros() {
            self.since = now;
            self.before = starts;
        }
    }

    /// Whether the burst may have a request more.
    fn has_room(&self, starts: u64) -> bool
        ensures { result ≡ plain.has_room starts self.now }
    {
        match self.config.max_burst() {
            None => true,
            Some(most) => starts.saturating_sub(self.before) < most,
        }
    }
}

/// What is known of a server.
fn candidate<U>(index: usize, server: &Server<U>) -> Candidate
    ensures { result ≡ plain.candidate index server.now }
{
    Candidate {
        server: index,
        queue: server.waiting.len(),
        estimate: server.stats.estimate(),
    }
}

/// Adds a server, unless its burst has reached its limit.
fn add_if_room<U>(
    candidates: &mut Vec<Candidate>,
    limit: &Limit,
    index: usize,
    server: &Server<U>,
) -> Result<(), NoMemory>
    ensures { OnOk result (candidates.new.items ≡ plain.joined index server.now limit.now candidates.old.items) }
{
    if !limit.has_room(server.starts) {
        return Ok(());
    }
    candidates.push(candidate(index, server))?;
    Ok(())
}

/// Adds the server of an index, unless its burst has reached its limit. Before that its burst may begin
/// anew.
fn survey_one<U>(
    limits: &mut Vec<Limit>,
    candidates: &mut Vec<Candidate>,
    servers: &[Server<U>],
    index: usize,
    now: u64,
) -> Result<(), NoMemory>
    ensures { OnOk result (plain.survey_of limits.new.items candidates.new.items ≡ plain.surveys_one now index servers.now (plain.survey_of limits.old.items candidates.old.items)) }
{
    let Some(server) = servers.get(index) else {
        return Ok(());
    };
    let Some(limit) = limits.get_mut(index) else {
        return Ok(());
    };
    limit.restart(now, server.starts);
    add_if_room(candidates, limit, index, server)
}

/// The servers that a request may be started at: those whose burst has not reached its limit.
pub(crate) fn survey<U>(
    alloc: Global,
    limits: &mut Vec<Limit>,
    servers: &[Server<U>],
    now: u64,
) -> Result<Vec<Candidate>, NoMemory>
    ensures { IfOk result (λ candidates. plain.survey_of limits.new.items candidates.items ≡ plain.surveyed now servers.now limits.old.items) }
{
    let mut candidates = Vec::new(alloc);
    for index in 0..servers.len() {
        survey_one(limits, &mut candidates, servers, index, now)?;
    }
    Ok(candidates)
}
