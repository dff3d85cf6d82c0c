//! The text of a script.
//!
//! A script is printed so that it is read as the very script, where it can be told; one more event is one more line, and a
//! text that is cut anywhere is read up to its last whole line; else the answer names what can't be told. By `script_text`,
//! `head_text`, `push_event`, `printing_laws`.
//!
//! `dns_script` reads scripts, and here one is written: its text is read as the very script. The text of one more event is one
//! more line, so that a script can be written event by event, and may end behind any line.
//!
//! ```text
//! let text = script_text(alloc, &script)?;
//! let same = read_script(alloc, &text, false)?;
//! ```
//!
//! - `script_text` prints a script of one lane (`script_text_of`), and the text is read as that very script (`IsScript`).
//!   It is so told where its configuration has, beside servers by their addresses, the time for a request and `use-vc`,
//!   only defaults, its settings lie within their limits, times are whole seconds, those of transports whole thousandths of
//!   one, and no event has a fault that the client finds itself (`CanBeTold`); else the answer names the first of these that fails (`IsUntold`). What has its default is
//!   not printed.
//! - `head_text` is what stands before the first event, and `push_event` adds the line of a row's event. `printing_laws`:
//!   the text of a script that can be told is read back, and one more event is one more line, so that a script may end
//!   behind any line. Cut anywhere behind its head, the text is up to its last whole line that of the script with the first
//!   of the events, and read as that (`IsCut`).
#![tactic(auto)]

mod events;
mod head;
mod laws;
mod settings;
mod told;
mod untold;
mod whole;

pub use events::{event_is_in_range, push_event};
pub use head::{head_is_in_range, head_text};
pub use laws::printing_laws;
pub use told::{is_told_server, is_whole, settings_are_told, tells_well, transports_are_told};
pub use untold::Untold;
pub use whole::script_text;
