//! The configuration that a source gives, and at which port its servers are asked.

ghost use Rattle.std.specs.Prelude.{◌≡◌, ◌≢◌, [], map, Some, IfSome, IfOk, IfErr};
ghost use Rattle.dns_values.specs.Source.{Rose};
ghost use Rattle.command_parts.specs.Conf.{Configures, IsConfRefused, at_port, conf_at};
ghost use Rattle.command_parts.specs.Ends.{IsEarly, status_of, line_of};

use crate::ending::Ending;
use crate::lines::{refused_line, says};
use crate::statuses::{NO_MEMORY, REFUSED, SOURCE_FAULT};
use dns_values::Source;
use resolv_conf::{Error, IoFault, ResolvConf, Servers};
use std::alloc::Global;

/// The configuration that a source gives, finalized.
pub fn configuration<S: Source>(alloc: Global, source: &mut S) -> Result<ResolvConf, Ending>
    ensures done { IfOk result (λ conf. IfSome (S.left source.old) (λ text. Configures text conf × (S.left source.new ≡ Some []))) }
    ensures early { IfErr result IsEarly }
    ensures source_fault { IfErr result (λ e. status_of e ≡ 3 → Rose (S.faults source.old) (S.faults source.new)) }
    ensures refused { IfErr result (λ e. status_of e ≡ 1 → IfSome (S.left source.old) (λ text. IsConfRefused text (line_of e))) }
    ensures no_numbers { IfErr result (λ e. status_of e ≢ 7) }
{
    let mut conf = ResolvConf::new(alloc);
    match conf.parse(alloc, source) {
        Ok(()) => {}
        Err(Error::ParseError(line)) => {
            return Err(refused_line(alloc, line));
        }
        Err(Error::Io(IoFault::NotUtf8(line))) => {
            return Err(refused_line(alloc, line));
        }
        Err(Error::Io(IoFault::Read)) => return Err(Ending::Silent(SOURCE_FAULT)),
        Err(Error::TooLong) => return Err(says(alloc, REFUSED, "input too long\n")),
        Err(Error::NoMemory) => return Err(Ending::Silent(NO_MEMORY)),
    }
    conf.finalize(alloc)?;
    Ok(conf)
}

/// The servers at this port in place of their own.
fn at_port(servers: Servers, port: u16) -> Servers
    ensures { result ≡ map (at_port port) servers }
{
    let mut items = servers.into_vec();
    for server in items.iter_mut() {
        server.addr.port = port;
    }
    Servers::from_vec(items)
}

/// The configuration that is asked.
pub fn conf_at(port: Option<u16>, conf: ResolvConf) -> ResolvConf
    ensures { result ≡ conf_at port conf }
{
    let Some(port) = port else {
        return conf;
    };
    let ResolvConf { servers, options } = conf;
    ResolvConf {
        servers: at_port(servers, port),
        options,
    }
}
