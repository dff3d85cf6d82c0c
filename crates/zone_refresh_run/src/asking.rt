//! A primary that is asked for the SOA of a zone.

ghost use Rattle.std.specs.Prelude.{◌≡◌, IfOk};
ghost use Rattle.zone_refresh_run.specs.Asking.{Asks, conf_of, said_of};

use crate::serials::{NoSerial, serial_said};
use client_core::{Clock, Edge};
use client_request::{Error, Words};
use dns_base::{Duration, Name, NoMemory, Rtype, Serial, SocketAddr};
use resolv_conf::{ResolvConf, ServerConf, Transport};
use resolv_lookup::{Answer, AsMessage, QueryFault};
use std::alloc::Global;
use stub_resolver::StubResolver;

/// So long a primary is waited for, in seconds. It is asked again behind the first half.
const PATIENCE: u64 = 10;

/// The configuration whose one server is a primary.
fn conf_of(alloc: Global, primary: SocketAddr) -> Result<ResolvConf, NoMemory>
    ensures { IfOk result (λ conf. conf ≡ conf_of primary) }
{
    let mut conf = ResolvConf::new(alloc);
    conf.options.timeout = Duration::from_secs(PATIENCE);
    conf.servers
        .push(ServerConf::new(primary, Transport::UdpTcp))?;
    Ok(conf)
}

/// What is said by what a question got.
fn said_of(
    zone: &Name,
    got: Result<Answer, QueryFault>,
) -> Result<Result<Serial, NoSerial>, NoMemory>
    ensures { IfOk result (λ said. said ≡ said_of zone.now got) }
{
    match got {
        Ok(answer) => Ok(serial_said(zone, answer.as_message())),
        Err(QueryFault::Client(Error::NoMemory)) => Err(NoMemory),
        Err(fault) => Ok(Err(NoSerial::Failed(fault))),
    }
}

/// Asks a primary for the SOA of a zone, by datagrams, over an edge that was not used before: the serial that it says, or why it says
/// none (`serial_said`): no answer came in ten seconds, or another one.
///
/// `NoMemory` alone is an error of the call.
pub fn ask_serial<E: Edge + Drop, C: Clock + Drop, W: Words + Drop>(
    alloc: Global,
    zone: &Name,
    primary: SocketAddr,
    edge: E,
    clock: C,
    words: W,
) -> Result<Result<Serial, NoSerial>, NoMemory>
    ensures { IfOk result (Asks E.deeds E.waits E.polls E.faults C.given W.stream zone.now primary edge clock words) }
{
    let conf = conf_of(alloc, primary)?;
    let Ok(mut resolver) = StubResolver::from_conf(alloc, conf, edge, clock, words) else {
        return Err(NoMemory);
    };
    let got = resolver.query(alloc, zone, Rtype::SOA);
    let said = said_of(zone, got)?;
    Ok(said)
}
