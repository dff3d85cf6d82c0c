//! The lines behind what a server said.

ghost use Rattle.std.specs.Prelude.{◌≡◌, Some, IfOk};
ghost use Rattle.std.specs.String.{string_bytes};
ghost use Rattle.dns_lookup_walk.specs.Texts.{failure_text, host_text, received_line, silent_line};

use crate::server::NameServer;
use crate::verdict::Failure;
use dns_base::NoMemory;
use std::alloc::Global;
use std::fmt::{self, Display};

/// The name of a server, or its address where it is known by that alone.
#[derive(Clone, Copy)]
struct Host<'a>(&'a NameServer);

impl Display for Host<'_> {
    ghost output = { λ host. Some (host_text host.0.now) };

    fn fmt<W: fmt::Write>(&self, f: &mut fmt::Formatter<W>) -> fmt::Result {
        let server = self.0;
        match &server.name {
            Some(name) => write!(f, "{name}"),
            None => write!(f, "{}", server.ip),
        }
    }
}

impl Display for Failure {
    ghost output = { λ failure. Some (failure_text failure) };

    fn fmt<W: fmt::Write>(&self, f: &mut fmt::Formatter<W>) -> fmt::Result {
        match self {
            Failure::Silent => f.write_str("no answer came"),
            Failure::Refuses(rcode) => write!(f, "the server said {rcode}"),
            Failure::Misleads => f.write_str("BAD REFERRAL"),
            Failure::Lame => f.write_str("the server said nothing"),
        }
    }
}

/// That no message came from a server at a port, and why.
pub fn silent_line(
    alloc: Global,
    port: u16,
    server: &NameServer,
    why: &str,
) -> Result<String, NoMemory>
    ensures { IfOk result (λ line. string_bytes line ≡ silent_line port server.now why.now) }
{
    let ip = server.ip;
    let host = Host(server);
    Ok(format!(in alloc; ";; No answer from {ip}#{port}({host}): {why}\n")?)
}

/// How many octets came from a server at a port, and in how many milliseconds, as `dig` has it.
pub fn received_line(
    alloc: Global,
    octets: usize,
    port: u16,
    server: &NameServer,
    millis: u64,
) -> Result<String, NoMemory>
    ensures { IfOk result (λ line. string_bytes line ≡ received_line octets port server.now millis) }
{
    let ip = server.ip;
    let host = Host(server);
    Ok(format!(in alloc; ";; Received {octets} bytes from {ip}#{port}({host}) in {millis} ms\n")?)
}
