//! What errors print: `error WORDS`, an error by the words of a trace. Of one of datagrams the texts of the try, of its kind and of its
//! fault stand behind that. `copy-error count|limit|memory` is why records were not copied.

use crate::reading::error_of;
use crate::saying::say_value;
use client_request::{CopyRecordsError, Error, Fault};
use dns_base::PushError;
use std::alloc::Global;

/// Says the texts of a copy of an error.
pub fn show(alloc: Global, words: &str, said: &mut String) -> Option<()> {
    let error = error_of(alloc, words)?.try_clone().ok()?;
    say_value(said, &error)?;
    match error {
        Error::Dgram(error) => {
            say_value(said, &error)?;
            say_value(said, &error.kind())?;
            say_value(said, &Fault::from(error))
        }
        _ => Some(()),
    }
}

pub fn show_of_copy(word: &str, said: &mut String) -> Option<()> {
    let error = match word {
        "count" => PushError::Count,
        "limit" => PushError::Limit,
        "memory" => PushError::NoMemory,
        _ => return None,
    };
    say_value(said, &CopyRecordsError::Push(error))
}
