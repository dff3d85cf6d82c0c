//! How a kept message is given without being composed anew.

ghost use Rattle.client_cache.specs.Forms.{IsFormOf};

use cache_rules::AdDo;
use client_request::Error;
use dns_base::{Header, Message, Name};
use message_patching::Template;
use std::alloc::Global;

/// What is known of how a message may be given.
#[derive(Drop)]
pub enum Form {
    /// It was not given yet.
    Untried,
    /// It is composed each time: what is composed of it can't be patched, or is long.
    Composed,
    /// It was composed once, and is patched.
    Patched(Template),
}

/// The form of a message, which is made as it is given for the first time. Where memory is wanting it stays untried.
pub(crate) fn form_of(
    alloc: Global,
    header: Header,
    message: &Message,
    class: AdDo,
    name: &Name,
) -> Form
    ensures { IsFormOf message.now result }
{
    match Template::of_views(alloc, header, message, class, name) {
        Ok(Some(template)) => Form::Patched(template),
        Ok(None) => Form::Composed,
        Err(Error::NoMemory) => Form::Untried,
        Err(_) => Form::Composed,
    }
}
