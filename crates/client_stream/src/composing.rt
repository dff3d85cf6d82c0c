//! What is written for a request.

ghost use Rattle.std.specs.Prelude.{◌≡◌, ◌≤◌, ◌||◌, length, IfOk, OnOk};
ghost use Rattle.client_stream.specs.Plain as plain;

use crate::keepalive::KEEPALIVE;
use client_request::{Compose, Error};
use dns_base::{NoMemory, Octets};
use std::alloc::Global;

/// The most octets that a message by stream may have, whose length is said in two octets.
const MAX_MESSAGE: usize = 65535;

/// A message behind its two octets of length.
fn framed(alloc: Global, message: &[u8]) -> Result<Octets, NoMemory>
    requires { length message.now ≤ 65535 }
    ensures { IfOk result (λ frame. frame ≡ plain.framed message.now) }
{
    let len = message.len();
    let mut frame = Vec::with_capacity(alloc, 2 + len)?;
    frame.extend_from_slice(&[(len / 256) as u8, (len % 256) as u8])?;
    frame.extend_from_slice(message)?;
    Octets::from_vec(frame)
}

/// The frame of a request, unless its message can't be composed or is too long.
pub(crate) fn frame_of<T: Compose>(alloc: Global, request: &T) -> Result<Option<Octets>, NoMemory>
    ensures { IfOk result (λ frame. frame ≡ plain.frame_of T.requests request.now) }
{
    let message = match request.to_message() {
        Ok(message) => message,
        Err(Error::NoMemory) => return Err(NoMemory),
        Err(_) => return Ok(None),
    };
    if message.as_slice().len() > MAX_MESSAGE {
        return Ok(None);
    }
    let frame = framed(alloc, message.as_slice())?;
    Ok(Some(frame))
}

/// Adds the empty option edns-tcp-keepalive to a request (RFC 7828 3.2.1), unless one was added before
/// or the request has no room for it. `had` says afterwards whether one was added by then.
pub(crate) fn add_keepalive<T: Compose>(had: &mut bool, request: &mut T) -> Result<(), NoMemory>
    ensures request { OnOk result (request.new ≡ plain.with_keepalive T.requests had.old request.old) }
    ensures had { OnOk result (had.new ≡ (had.old || plain.adds_keepalive T.requests had.old request.old)) }
{
    if *had {
        return Ok(());
    }
    match request.add_opt(KEEPALIVE, &[]) {
        Ok(()) => {
            *had = true;
            Ok(())
        }
        Err(Error::OptTooLong) => Ok(()),
        Err(_) => Err(NoMemory),
    }
}

/// Gives a request its id and, where it is due, the option, and makes its frame, unless that is too long.
pub(crate) fn prepare_frame<T: Compose>(
    alloc: Global,
    had: &mut bool,
    id: u16,
    request: &mut T,
) -> Result<Option<Octets>, NoMemory>
    ensures request { OnOk result (request.new ≡ plain.readied T.requests id had.old request.old) }
    ensures had { OnOk result (had.new ≡ plain.had_by T.requests id had.old request.old) }
    ensures frame { IfOk result (λ frame. frame ≡ plain.frame_of T.requests request.new) }
{
    request.set_id(id);
    add_keepalive(had, request)?;
    frame_of(alloc, request)
}
