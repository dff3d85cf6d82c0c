//! What an answer says of itself.

use crate::given::answer;
use resolv_lookup::AsMessage;
use std::alloc::Global;

/// Whether an answer is final, whether it is truncated, and its id, three times.
pub fn text_of(alloc: Global, digits: &str) -> Option<String> {
    let answer = answer(alloc, digits).ok()?.ok()?;
    let answer = answer.try_clone().ok()?;
    let (is_final, is_truncated) = (answer.is_final(), answer.is_truncated());
    let (id, again) = (answer.header().id(), answer.as_message().header().id());
    let last = answer.into_message().header().id();
    format!(in alloc; "answer {is_final} {is_truncated} {id} {again} {last}\n").ok()
}
