//! The configuration and the settings of a script, as a judge of traces has them.

ghost use Rattle.std.specs.Prelude.{◌≡◌, map, IfOk};
ghost use Rattle.trace_judge.specs.script.Judged as plain;

use client_settings::{Transports, cache, redundant};
use dns_base::NoMemory;
use resolv_conf::{ResolvConf, ServerConf, Transport};
use std::alloc::Global;
use trace_errors::promptness::TraceSettings;
use trace_points::questions::{ServerUse, TraceConf};

fn use_of(use_vc: bool, server: &ServerConf) -> ServerUse
    ensures { result ≡ plain.use_of use_vc server.now }
{
    match server.transport {
        Transport::Tcp => ServerUse::Streams,
        Transport::UdpTcp if use_vc => ServerUse::Streams,
        Transport::UdpTcp => ServerUse::Datagrams,
    }
}

/// How each of these servers is used: by streams alone where its line says so, or `use_vc` does.
pub fn uses_of(
    alloc: Global,
    use_vc: bool,
    servers: &[ServerConf],
) -> Result<Vec<ServerUse>, NoMemory>
    ensures { IfOk result (λ uses. uses.items ≡ map (plain.use_of use_vc) servers.now) }
{
    let mut uses = Vec::new(alloc);
    for server in servers {
        uses.push(use_of(use_vc, server))?;
    }
    Ok(uses)
}

/// How each server of a configuration is used, the timeout of a request, and the settings of transports.
pub fn conf_of(
    alloc: Global,
    conf: &ResolvConf,
    transports: &Transports,
) -> Result<TraceConf, NoMemory>
    ensures { IfOk result (λ c. c ≡ plain.conf_of conf.now transports.now) }
{
    let uses = uses_of(alloc, conf.options.use_vc, conf.servers.as_slice())?;
    let transports = transports.try_clone()?;
    Ok(TraceConf::new(alloc, uses, conf.options.timeout, transports))
}

/// What the settings of the choice among servers defer, and how long the cache may keep what.
pub fn settings_of(redundant: redundant::Config, cache: cache::Config) -> TraceSettings
    ensures { result ≡ plain.settings_of redundant cache }
{
    TraceSettings::new(
        cache,
        redundant.defer_transport_error(),
        redundant.defer_refused(),
        redundant.defer_servfail(),
    )
}
