//! A kept message as it is given to another request, later.

ghost use Rattle.std.specs.Prelude.{◌≡◌, ◌<◌, ℕ, slice_index, IfOk, IfErr};
ghost use Rattle.dns_base.specs.Draft.{counts_in};
ghost use Rattle.dns_base.specs.Message.{header_of};
ghost use Rattle.dns_base.specs.Sections.{HasNoRecords};
ghost use Rattle.client_request.specs.Composed.{IsCopied};
ghost use Rattle.client_request.specs.Composing.{IsComposed};
ghost use Rattle.cache_rules.specs.Key.{flag_class};
ghost use Rattle.cache_rules.specs.Viewing.{header_between, drops_signing, carries_all, octets_by, view_octets, IsViewable, SaysView, SaysEntries, SaysExpired, IsRefusedView};
ghost use Rattle.cache_rules.specs.declared.copying.Ttls.TheVariants.{Lessened, Stale};

use crate::copying::{Manner, Ttls, copy_questions, copy_section};
use crate::key::AdDo;
use client_request::{CopyRecordsError, Error};
use dns_base::{Builder, Header, Message, Name, Section};
use std::alloc::Global;

/// The header of a message that was asked for with the first flags, as it is given to a request with the second: AA is
/// clear, AD where only the first asked for it (RFC 6840 5.8), and RD where that is said.
pub fn derived_header(header: Header, from: AdDo, to: AdDo, clear_rd: bool) -> Header
    ensures { result ≡ header_between (flag_class from) (flag_class to) clear_rd header }
{
    let mut derived = header;
    derived.set_aa(false);
    if matches!(to, AdDo::None) && !matches!(from, AdDo::None) {
        derived.set_ad(false);
    }
    if clear_rd {
        derived.set_rd(false);
    }
    derived
}

/// Whether RRSIG, NSEC and NSEC3 are left out: only the first asked for DNSSEC records (RFC 4035 3.2.1).
fn drops_signing(from: AdDo, to: AdDo) -> bool
    ensures { result ≡ drops_signing (flag_class from) (flag_class to) }
{
    matches!(from, AdDo::Do) && !matches!(to, AdDo::Do)
}

fn carry_all(
    message: &Message,
    name: &Name,
    manner: Manner,
    target: &mut Builder,
) -> Result<(), CopyRecordsError>
    requires { HasNoRecords (counts_in target.old) }
    ensures { IsCopied (carries_all name.now manner.drops_signing manner.ttls message.now target.old) result target.new }
{
    copy_questions(message.question(), name, target)?;
    copy_section(Section::Answer, manner, message, target)?;
    copy_section(Section::Authority, manner, message, target)?;
    copy_section(Section::Additional, manner, message, target)
}

/// Each octet is less than 256.
fn are_octets(octets: &[u8])
    ensures { (i : ℕ) → slice_index octets.now i < 256 }
{
    let _octets = octets;
}

/// The parts of a view have the ranges of what they are made of.
pub fn is_viewable(header: Header, msg: &Message, question: &Name)
    ensures { IsViewable header question.now msg.now }
{
    are_octets(msg.as_slice());
    let _header = header.to_octets();
    let _name = question.as_octets();
}

/// The entries of a kept message under a header. Where an entry can't be read, what was copied is dropped.
#[tactic(auto, unfolding(crate::specs::Viewing::carried, crate::specs::Viewing::octets_by))]
fn copied(
    alloc: Global,
    header: Header,
    msg: &Message,
    from: AdDo,
    to: AdDo,
    question: &Name,
    ttls: Ttls,
) -> Result<Message, Error>
    ensures { IsComposed (octets_by header question.now (drops_signing (flag_class from) (flag_class to)) ttls msg.now) result }
{
    let mut target = Builder::new(alloc, None)?;
    let manner = Manner {
        drops_signing: drops_signing(from, to),
        ttls,
    };
    carry_all(msg, question, manner, &mut target)?;
    target.set_header(header);
    let message = target.finish()?;
    Ok(message)
}

/// The entries of a kept message under a header of its own, as they are given later: with this name in each question,
/// without what only the first flags asked for, and with each TTL less by so many seconds, 0 at least, but for an OPT
/// record of the additional section. Names are compressed as [`Builder`] does.
///
/// `MessageParseError` exactly where the message or the data of a record can't be read by its type.
///
/// A name may be read out of the octets of the header, by a pointer. So a header that was derived is kept beside its
/// message, and not written over it, which could change names.
pub fn view_under(
    alloc: Global,
    header: Header,
    msg: &Message,
    from: AdDo,
    to: AdDo,
    question: &Name,
    secs: u32,
) -> Result<Message, Error>
    ensures made { IsComposed (view_octets header question.now (drops_signing (flag_class from) (flag_class to)) secs msg.now) result }
    ensures says { IfOk result (SaysEntries header (flag_class from) (flag_class to) question.now (Lessened secs) msg.now) }
    ensures refused { IfErr result (IsRefusedView msg.now) }
{
    is_viewable(header, msg, question);
    copied(alloc, header, msg, from, to, question, Ttls::Lessened(secs))
}

/// The entries of a kept message that has expired, under a header of its own, as they are given to a request with the
/// same flags: as by [`view_under`], but with 30 seconds in the place of each TTL (RFC 8767 5).
pub fn stale_under(
    alloc: Global,
    header: Header,
    msg: &Message,
    class: AdDo,
    question: &Name,
) -> Result<Message, Error>
    ensures made { IsComposed (octets_by header question.now (drops_signing (flag_class class) (flag_class class)) Stale msg.now) result }
    ensures says { IfOk result (SaysExpired header (flag_class class) question.now msg.now) }
    ensures refused { IfErr result (IsRefusedView msg.now) }
{
    is_viewable(header, msg, question);
    copied(alloc, header, msg, class, class, question, Ttls::Stale)
}

/// A message that was asked for with the first flags as it is given to a request with the second, so many seconds
/// later: its entries as by [`view_under`], and its header as by [`derived_header`].
pub fn view(
    alloc: Global,
    msg: &Message,
    from: AdDo,
    to: AdDo,
    clear_rd: bool,
    question: &Name,
    secs: u32,
) -> Result<Message, Error>
    ensures made { IsComposed (view_octets (header_between (flag_class from) (flag_class to) clear_rd (header_of msg.now)) question.now (drops_signing (flag_class from) (flag_class to)) secs msg.now) result }
    ensures says { IfOk result (SaysView (flag_class from) (flag_class to) clear_rd question.now (Lessened secs) msg.now) }
    ensures refused { IfErr result (IsRefusedView msg.now) }
{
    let header = msg.header();
    is_viewable(header, msg, question);
    let derived = derived_header(header, from, to, clear_rd);
    view_under(alloc, derived, msg, from, to, question, secs)
}
