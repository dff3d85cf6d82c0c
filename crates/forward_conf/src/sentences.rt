//! The sentences that tell why the program ends, and of the lines of a configuration.

ghost use Rattle.std.specs.Prelude.{◌≡◌, IfOk};
ghost use Rattle.std.specs.String.{string_bytes};
ghost use Rattle.forward_conf.specs.Sentences as spec;

use crate::cause::Cause;
use client_request::Fault;
use dns_base::{IpAddr, NoMemory};
use dns_values::SocketAddr;
use resolver_policy::Note;
use std::alloc::Global;

/// What a fault of listening means.
fn fault_text(fault: Fault) -> &'static str
    ensures { result.now ≡ spec.fault_text fault }
{
    match fault {
        Fault::Unreachable => "it is no address of this host",
        Fault::Other => "there is no right to that port, or another fault",
        _ => fault.text(),
    }
}

/// Addresses, each behind a blank.
fn addresses_text(alloc: Global, listened: &[IpAddr]) -> Result<String, NoMemory>
    ensures { IfOk result (λ s. string_bytes s ≡ spec.addresses_text listened.now) }
{
    let mut text = String::new(alloc);
    for ip in listened {
        let one = format!(in alloc; " {ip}")?;
        text.push_str(&one)?;
    }
    Ok(text)
}

/// The address at which it can't be listened, or all of them, each behind a blank.
fn place_text(alloc: Global, listened: &[IpAddr], at: Option<IpAddr>) -> Result<String, NoMemory>
    ensures { IfOk result (λ s. string_bytes s ≡ spec.place_text listened.now at) }
{
    match at {
        Some(ip) => Ok(format!(in alloc; " {ip}")?),
        None => addresses_text(alloc, listened),
    }
}

/// That it can't be listened.
fn deaf_text(
    alloc: Global,
    listened: &[IpAddr],
    port: u16,
    at: Option<IpAddr>,
    fault: Fault,
) -> Result<String, NoMemory>
    ensures { IfOk result (λ s. string_bytes s ≡ spec.deaf_text listened.now port at fault) }
{
    let place = place_text(alloc, listened, at)?;
    let place = place.as_str();
    let fault = fault_text(fault);
    Ok(format!(in alloc; "dns_forward: can't listen at port {port} of{place}: {fault}\n")?)
}

/// That a server is the forwarder itself.
fn itself_text(alloc: Global, server: SocketAddr) -> Result<String, NoMemory>
    ensures { IfOk result (λ s. string_bytes s ≡ spec.itself_text server) }
{
    Ok(format!(in alloc;
        "dns_forward: the server {server} is this very forwarder, which would ask itself\n"
    )?)
}

/// A text behind the program's name.
fn named_text(alloc: Global, line: &[u8]) -> Result<Vec<u8>, NoMemory>
    ensures { IfOk result (λ v. v.items ≡ spec.refused_text line.now) }
{
    let mut text = Vec::from_slice(alloc, b"dns_forward: standard input: ")?;
    text.extend_from_slice(line)?;
    Ok(text)
}

/// The octets of a text.
fn octets_of(alloc: Global, text: &str) -> Result<Vec<u8>, NoMemory>
    ensures { IfOk result (λ v. v.items ≡ text.now) }
{
    Ok(Vec::from_slice(alloc, text.as_bytes())?)
}

/// The sentence that tells why the program ends, which listens at these addresses and this port.
pub(crate) fn sentence_of(
    alloc: Global,
    listened: &[IpAddr],
    port: u16,
    cause: &Cause,
) -> Result<Vec<u8>, NoMemory>
    ensures { IfOk result (λ v. v.items ≡ spec.sentence_of listened.now port cause.now) }
{
    match cause {
        Cause::Refused(line) => named_text(alloc, line),
        Cause::SourceFault => {
            octets_of(alloc, "dns_forward: standard input could not be read\n")
        }
        Cause::Itself(server) => octets_of(alloc, itself_text(alloc, *server)?.as_str()),
        Cause::Deaf { at, fault } => {
            octets_of(
                alloc,
                deaf_text(alloc, listened, port, *at, *fault)?.as_str(),
            )
        }
        Cause::NoMemory => octets_of(alloc, "dns_forward: memory ran out\n"),
        Cause::NumbersUsed => octets_of(alloc, "dns_forward: numbers are used up\n"),
    }
}

/// The line that tells of a line of the configuration.
fn note_line(alloc: Global, note: Note) -> Result<String, NoMemory>
    ensures { IfOk result (λ s. string_bytes s ≡ spec.note_line note) }
{
    Ok(format!(in alloc; "dns_forward: {note}\n")?)
}

/// The lines that tell of those of the configuration.
pub(crate) fn note_lines(alloc: Global, notes: &[Note]) -> Result<String, NoMemory>
    ensures { IfOk result (λ s. string_bytes s ≡ spec.notes_text notes.now) }
{
    let mut text = String::new(alloc);
    for note in notes {
        let line = note_line(alloc, *note)?;
        text.push_str(line.as_str())?;
    }
    Ok(text)
}
