//! What a request asks, by the whole key under which its results are kept.

ghost use Rattle.std.specs.Prelude.{◌≡◌, IfOk};
ghost use Rattle.trace_hits.specs.Question as plain;

use cache_rules::Key;
use client_request::RequestMessage;
use dns_base::{Name, NoMemory};
use message_judging::views::Flags;
use std::alloc::Global;
use trace_replies::given::{Asks, asks_of};

/// What a request asks whose results are kept.
#[derive(Drop)]
pub(crate) struct Question {
    pub key: Key,
    pub flags: Flags,
    /// The name of its question, as it is spelled.
    pub name: Name,
}

/// A key with these flags.
fn whole(mut key: Key, flags: Flags) -> Key
    ensures { result ≡ plain.whole flags key }
{
    key.set_addo(flags.class);
    key.set_rd(flags.rd);
    key
}

/// What a request asks. None exactly where its results are not kept.
pub(crate) fn question_of(
    alloc: Global,
    request: &RequestMessage,
) -> Result<Option<Question>, NoMemory>
    ensures { IfOk result (plain.IsTold request.now) }
{
    let Some(asks) = asks_of(alloc, request)? else {
        return Ok(None);
    };
    let Asks { key, flags, name } = asks;
    Ok(Some(Question {
        key: whole(key, flags),
        flags,
        name,
    }))
}
