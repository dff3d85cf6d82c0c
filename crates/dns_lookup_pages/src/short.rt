//! What is written of an answer whose data alone is asked for.

ghost use Rattle.std.specs.Prelude.{◌≡◌};
ghost use Rattle.dns_lookup_pages.specs.Lacking.{lacking_in};

use crate::data::data_text;
use dns_base::{Message, NoMemory, Rcode};
use dns_lookup_words::Layout;
use std::alloc::Global;

/// Why an answer has no data to write.
#[derive(Clone, Copy, Debug, PartialEq, Eq)]
pub enum Lacking {
    /// There is no such name (RFC 2308 2.1).
    Name,
    /// The name has no such data (RFC 2308 2.2).
    Data,
    /// The server did not serve, and said so by this response code.
    Service(u8),
}

/// Why an answer has no data to write, if so.
pub fn lacking_in(message: &Message) -> Option<Lacking>
    ensures { result ≡ lacking_in message.now }
{
    let rcode = message.header().rcode();
    match rcode {
        Rcode::NXDOMAIN => Some(Lacking::Name),
        Rcode::NOERROR => {
            if message.header_counts().ancount() == 0 {
                Some(Lacking::Data)
            } else {
                None
            }
        }
        _ => Some(Lacking::Service(rcode.0)),
    }
}

/// The data of the records of the answer section, one line each with this behind it, up to the first that can't be read.
pub fn short_text(
    alloc: Global,
    layout: Layout,
    message: &Message,
    behind: &str,
) -> Result<String, NoMemory> {
    let mut text = String::new(alloc);
    let Ok(records) = message.answer() else {
        return Ok(text);
    };
    for record in records {
        let Ok(record) = record else {
            break;
        };
        let data = data_text(alloc, layout, &record)?;
        text.push_str(data.as_str())?;
        text.push_str(behind)?;
        text.push('\n')?;
    }
    Ok(text)
}
