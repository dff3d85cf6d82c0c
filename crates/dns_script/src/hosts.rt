//! Messages about the hosts of a generated script.

ghost use Rattle.std.specs.Prelude.{◌≡◌, ◌++◌, ◌∷◌, ◌<◌, length, IfOk, OnOk};
ghost use Rattle.client_request.specs.Request.{recorded_from};
ghost use Rattle.dns_script.specs.Generated.{frame, header, host_answer, host_label, host_query, host_question, truncated_answer};

use client_request::RequestMessage;
use dns_base::{Message, NoMemory, Octets};
use std::alloc::Global;

/// How many hosts are asked for: `h0.example.com` to `h49.example.com`.
pub(crate) const HOSTS: u64 = 50;

/// Adds the first label of a host, behind its length.
fn push_label(octets: &mut Vec<u8>, host: u8) -> Result<(), NoMemory>
    requires { host < 50 }
    ensures { OnOk result (octets.new.items ≡ octets.old.items ++ length (host_label host) ∷ host_label host) }
{
    if host < 10 {
        octets.extend_from_slice(&[2, b'h', b'0' + host])?;
    } else {
        octets.extend_from_slice(&[3, b'h', b'0' + host / 10, b'0' + host % 10])?;
    }
    Ok(())
}

/// Adds the question for the addresses of a host (RFC 1035 4.1.2).
fn push_question(octets: &mut Vec<u8>, host: u8) -> Result<(), NoMemory>
    requires { host < 50 }
    ensures { OnOk result (octets.new.items ≡ octets.old.items ++ host_question host) }
{
    push_label(octets, host)?;
    octets.extend_from_slice(b"\x07example\x03com\x00\x00\x01\x00\x01")?;
    Ok(())
}

/// A message with the question for a host: its header, and so many answers are to follow.
fn begun(alloc: Global, id: u16, flags: u16, answers: u8, host: u8) -> Result<Vec<u8>, NoMemory>
    requires { host < 50 }
    ensures { IfOk result (λ v. v.items ≡ header id flags answers ++ host_question host) }
{
    let [id_high, id_low] = id.to_be_bytes();
    let [flags_high, flags_low] = flags.to_be_bytes();
    let head = [
        id_high, id_low, flags_high, flags_low, 0, 1, 0, answers, 0, 0, 0, 0,
    ];
    let mut octets = Vec::from_slice(alloc, &head)?;
    push_question(&mut octets, host)?;
    Ok(octets)
}

/// The request for the addresses of a host.
pub(crate) fn host_request(alloc: Global, host: u8) -> Result<RequestMessage, NoMemory>
    requires { host < 50 }
    ensures { IfOk result (λ r. r ≡ recorded_from (host_query host)) }
{
    let octets = Octets::from_vec(begun(alloc, 0, 0x0100, 0, host)?)?;
    let Ok(message) = Message::from_octets(octets) else {
        unreachable!()
    };
    match RequestMessage::new(alloc, message) {
        Ok(request) => Ok(request),
        Err(_) => unreachable!(),
    }
}

/// The answer for a host: its address, for two minutes.
pub(crate) fn host_answer(alloc: Global, id: u16, host: u8) -> Result<Vec<u8>, NoMemory>
    requires { host < 50 }
    ensures { IfOk result (λ v. v.items ≡ host_answer id host) }
{
    let mut octets = begun(alloc, id, 0x8180, 1, host)?;
    octets.extend_from_slice(b"\xc0\x0c\x00\x01\x00\x01\x00\x00\x00\x78\x00\x04\xc0\x00\x02")?;
    octets.push(host)?;
    Ok(octets)
}

/// The answer for a host, truncated to its question.
pub(crate) fn truncated_answer(alloc: Global, id: u16, host: u8) -> Result<Vec<u8>, NoMemory>
    requires { host < 50 }
    ensures { IfOk result (λ v. v.items ≡ truncated_answer id host) }
{
    begun(alloc, id, 0x8380, 0, host)
}

/// A message behind its length, as a stream has it (RFC 1035 4.2.2).
pub(crate) fn frame(alloc: Global, message: &[u8]) -> Result<Vec<u8>, NoMemory>
    requires { length message.now < 65536 }
    ensures { IfOk result (λ v. v.items ≡ frame message.now) }
{
    let length = message.len() as u16;
    let mut octets = Vec::from_slice(alloc, &length.to_be_bytes())?;
    octets.extend_from_slice(message)?;
    Ok(octets)
}
