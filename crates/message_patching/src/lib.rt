//! A message that was composed once, and is patched for each request: its header, the spelling of its question's name,
//! and its TTLs are written over a copy of its octets.
//!
//! What is patched is exactly what composing anew gives: for every header, for the question's name in each of its
//! spellings, and with every TTL; a template's places are those of its TTLs and of no OPT record's; a template that is made
//! of a message gives its views, and is not long beside it. By `views_are_patched`, `Template`.
//!
//! A [`Template`] is made of a view of a kept message. [`Template::patch`] gives the octets that composing the view anew
//! would give ([`views_are_patched`]).
//!
//! `Template::of` takes a message and finds its places (`template_of`): where the name of its question stands, if it has
//! one, and each TTL, an OPT record's in the additional section left out. It answers none where there are more questions
//! than one, where a record isn't found by the ends of names, and from 4 GiB on. `Template::patch` copies the octets and
//! writes a header, the spelling of a name and each TTL over them (`patched`); it answers none exactly where the name is
//! another one than the question's, its case aside (`IsFor`).
//!
//! `views_are_patched` says what that is good for: where the message is a view of no age of any message that came, what is
//! patched is exactly what `view_under` and `stale_under` would compose of that message, octet by octet. So a cache may
//! keep a template beside what came, and nothing that is proved of its views changes. It holds for messages that our
//! builder composed, since names in these point only to places where names were written out. In a message as it came a
//! pointer may lead into the header or a TTL; so no such message may be patched.
//!
//! `Template::of_views` composes the view of no age itself, and gives a template that gives the views of the message which
//! leave no record out (`gives`). It answers none also where what it composed has more than twice the message's octets and
//! 512 (`short`): names that pointers led to may be many times what came. Of each message whose views a template gives,
//! what is patched is that view (`views`). The cache's entries have such templates.
//!
//! # Why it is so
//!
//! - **A message that is patched is found, not told.** The places of its TTLs are found by walking it once, by the ends of
//!   its names, and not told by the builder: so a template is made of any composed message. Its name is compared at place
//!   12, octet by octet without case. It has at most one question, and without one it serves every name. It has octets of
//!   its own, which need no count of owners, and up to four places of TTLs in itself.
#![tactic(auto)]

mod laws;
mod places;
mod template;
mod ttl_places;
mod writes;

pub use laws::views_are_patched;
pub use template::Template;
