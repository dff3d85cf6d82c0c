//! Frames that come, and who gets their messages.

ghost use Rattle.std.specs.Prelude.{◌≡◌, ◌<◌, length, None};
ghost use Rattle.client_request.specs.Calls.{Follows};
ghost use Rattle.client_request.specs.Numbered.{entry_at};
ghost use Rattle.client_stream.specs.Calls.{Leaves};
ghost use Rattle.client_stream.specs.declared.request.Holder.TheVariants as holder;
ghost use Rattle.client_stream.specs.Plain as plain;

use crate::keepalive::idle_time_told;
use crate::line::{Line, become_active, become_idle_if_unused, end_with};
use crate::request::Holder;
use crate::transfer::part_of;
use client_request::{ComposeRequest, ComposeRequestMulti, Cx, Error, Words};
use client_transfer::{XfrState, check_stream};
use dns_base::{Message, NoMemory, Octets};

/// Gives a message to a transfer, and then its end, or the transfer holds the id again.
fn deliver_part<Req: ComposeRequest, ReqMulti: ComposeRequestMulti, W: Words>(
    line: &mut Line<Req, ReqMulti>,
    cx: &mut Cx<'_, W>,
    message: Message,
    ticket: u64,
    request: ReqMulti,
    state: XfrState,
) -> Result<(), NoMemory>
    requires below { plain.message_id message < line.old.held.mark }
    requires free { entry_at (plain.message_id message) line.old.held.held ≡ None }
    requires room { length line.old.held.held < 32768 }
    ensures leaves { Leaves W.stream cx.old cx.new result (λ v. plain.delivers Req.requests ReqMulti.requests message line.old v (holder.Transfers ticket request state)) line.new }
{
    let id = message.header().id();
    let (ends, state, taken) = check_stream(&request, state, &message);
    cx.board.put(ticket, part_of(message, taken))?;
    if ends {
        let _ = line.ids.remove(ticket);
        return cx.board.put(ticket, Ok(None));
    }
    let holder = Holder::Transfers {
        ticket,
        request,
        state,
    };
    line.held.insert_at(id, holder);
    Ok(())
}

/// Gives a message to who held its id, unless the request was given up: as it is where it answers the
/// request.
fn deliver<Req: ComposeRequest, ReqMulti: ComposeRequestMulti, W: Words>(
    line: &mut Line<Req, ReqMulti>,
    cx: &mut Cx<'_, W>,
    message: Message,
    holder: Holder<Req, ReqMulti>,
) -> Result<(), NoMemory>
    requires below { plain.message_id message < line.old.held.mark }
    requires free { entry_at (plain.message_id message) line.old.held.held ≡ None }
    requires room { length line.old.held.held < 32768 }
    ensures leaves { Leaves W.stream cx.old cx.new result (λ v. plain.delivers Req.requests ReqMulti.requests message line.old v holder) line.new }
{
    match holder {
        Holder::GivenUp => Ok(()),
        Holder::Waits { ticket, request } => {
            let _ = line.ids.remove(ticket);
            let part = if request.is_answer(&message) {
                Ok(Some(message))
            } else {
                Err(Error::WrongReplyForQuery)
            };
            cx.board.put(ticket, part)
        }
        Holder::Transfers {
            ticket,
            request,
            state,
        } => deliver_part(line, cx, message, ticket, request, state),
    }
}

/// The id of a message is free, and who held it gets the message: a transfer holds it again while more
/// are to come. If nobody held it, it is nobody's.
fn release<Req: ComposeRequest, ReqMulti: ComposeRequestMulti, W: Words>(
    line: &mut Line<Req, ReqMulti>,
    place: u64,
    cx: &mut Cx<'_, W>,
    message: Message,
) -> Result<(), Error>
    ensures follows { Follows W.stream cx.old cx.new result (plain.releases Req.requests ReqMulti.requests place message line.old) line.new }
{
    let id = message.header().id();
    let Some(holder) = line.held.try_remove(id) else {
        return Ok(());
    };
    deliver(line, cx, message, holder)?;
    become_idle_if_unused(line, place, cx)
}

/// A message came: the connection is active, and who held the message's id gets it.
fn hear_message<Req: ComposeRequest, ReqMulti: ComposeRequestMulti, W: Words>(
    line: &mut Line<Req, ReqMulti>,
    place: u64,
    cx: &mut Cx<'_, W>,
    message: Message,
) -> Result<(), Error>
    ensures follows { Follows W.stream cx.old cx.new result (plain.message_comes Req.requests ReqMulti.requests place message line.old) line.new }
{
    line.idle_time = idle_time_told(&message).unwrap_or(line.idle_time);
    become_active(line, cx)?;
    release(line, place, cx, message)
}

/// A frame came. One that is too short for a message ends the connection.
pub(crate) fn hear_frame<Req: ComposeRequest, ReqMulti: ComposeRequestMulti, W: Words>(
    line: &mut Line<Req, ReqMulti>,
    place: u64,
    cx: &mut Cx<'_, W>,
    frame: Octets,
) -> Result<(), Error>
    ensures follows { Follows W.stream cx.old cx.new result (plain.frame_comes Req.requests ReqMulti.requests place frame line.old) line.new }
{
    match Message::from_octets(frame) {
        Ok(message) => hear_message(line, place, cx, message),
        Err(_) => end_with(line, place, cx, Error::ShortMessage),
    }
}
